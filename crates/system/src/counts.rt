// How many rows and columns a system has, and which places there are.
ghost use Rattle.std.specs.Prelude.{◌≤◌};
ghost use Rattle.system.specs.Reading.{max_count};

pub mod ops;

#[derive(Clone, Copy, PartialEq, Eq, Debug)]
pub struct Counts {
    pub rows: usize,
    pub columns: usize,
    ghost some_rows: { 1 ≤ rows },
    ghost few_rows: { rows ≤ max_count },
    ghost some_columns: { 1 ≤ columns },
    ghost few_columns: { columns ≤ max_count },
}
