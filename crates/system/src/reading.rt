// A system to be read.
ghost use Rattle.std.specs.Prelude.{◌≡◌};
ghost use Rattle.interval.specs.Refusals.{unless, Answers};
ghost use Rattle.system.specs.Reading.{Model, Bounded, has_place, has_column};

use interval::{Interval, Limited, Number, Refusal};

// The largest held number in size, and a number at which a column may be held.
pub const MAX_HELD: u32 = 1000;

pub type Held = Number<MAX_HELD>;

// The largest reach, and a cell that some system may show.
pub const MAX_REACH: u32 = 10_000_000;

pub type InLimit = Limited<MAX_REACH>;

// Rows and columns are numbered from 0, and asked by two plain numbers, as places of a table are: a struct of the two would be
// written out at each call and say no more. A place that was looked up is a `Place`. Code over this trait knows of an
// implementation what `meaning` says, and no more.
pub trait System {
    ghost meaning: { Self → Model };

    fn rows(&self) -> usize
        ensures { result ≡ (meaning self.now).rows };

    fn columns(&self) -> usize
        ensures { result ≡ (meaning self.now).columns };

    // No end of a cell is larger in size.
    fn reach(&self) -> u64
        ensures { result ≡ (meaning self.now).reach };

    fn cell(&self, row: usize, column: usize) -> Result<Interval, Refusal>
        ensures { Answers (unless (has_place (meaning self.now) row column) 2) ((meaning self.now).cell row column) result };

    // The number at which the column is held, or nothing if it is free.
    fn held(&self, column: usize) -> Result<Option<i64>, Refusal>
        ensures { Answers (unless (has_column (meaning self.now) column) 2) ((meaning self.now).held column) result };

    ghost bounded: { (s : Self) → Bounded (meaning s) };
}
