// A place on a sheet: a row and a column, both below 64.
ghost use Rattle.std.specs.Prelude.{◌<◌};
ghost use Rattle.system.specs.Reading.{max_count};

#[derive(Clone, Copy, PartialEq, Eq, Debug)]
pub struct Place {
    pub row: usize,
    pub column: usize,
    ghost few_rows: { row < max_count },
    ghost few_columns: { column < max_count },
}
