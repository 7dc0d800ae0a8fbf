// How counts are made, and how a place or a column is looked up in them.
ghost use Rattle.std.specs.Prelude.{◌≡◌};
ghost use Rattle.interval.specs.Refusals.{unless, Answers, Gives};
ghost use Rattle.system.specs.Counts.{counts_refusal, place_refusal, column_refusal};

use crate::counts::Counts;
use crate::places::Place;
use interval::Refusal;

// The largest count of rows and of columns.
pub const MAX_COUNT: usize = 64;

impl Counts {
    pub const ONE: Counts = Counts {
        rows: 1,
        columns: 1,
    };

    // From 1 to 64 each. Counts that nobody checked yet are two numbers, here and where sheets are sized.
    pub fn new(rows: usize, columns: usize) -> Result<Counts, Refusal>
        ensures { Gives (counts_refusal rows columns) (λ c. (c.rows ≡ rows) × (c.columns ≡ columns)) result }
    {
        let allowed = 1..=MAX_COUNT;
        if !allowed.contains(&rows) || !allowed.contains(&columns) {
            return Err(Refusal::OutsideLimit);
        }
        Ok(Counts { rows, columns })
    }

    // Two plain numbers become a place here.
    pub fn place(self, row: usize, column: usize) -> Result<Place, Refusal>
        ensures { Gives (place_refusal self row column) (λ p. (p.row ≡ row) × (p.column ≡ column)) result }
    {
        if row >= self.rows {
            return Err(Refusal::NoSuchPlace);
        }
        let column = self.column(column)?;
        Ok(Place { row, column })
    }

    // The column, where it is there.
    pub fn column(self, column: usize) -> Result<usize, Refusal>
        ensures { Answers (column_refusal self column) column result }
    {
        if column >= self.columns {
            return Err(Refusal::NoSuchPlace);
        }
        Ok(column)
    }
}
