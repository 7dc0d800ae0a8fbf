// A sheet without its cells: its counts, and which columns are held.
ghost use Rattle.std.specs.Prelude.{◌≡◌, Some, None};
ghost use Rattle.interval.specs.Refusals.{Answers, Changes};
ghost use Rattle.system.specs.Reading.{with_held};
ghost use Rattle.system.specs.Writing.{hold_refusal, free_refusal};
ghost use Rattle.sheets.specs.Frame.{frame_model, blank, Placed};

use interval::Refusal;
use system::{Counts, Held, MAX_COUNT, Place};

// A sheet takes no memory from the heap once it is made, so the columns have an array. Clauses speak of a frame by `frame_model`
// of its fields; an `impl Model` needs a value by which proofs can tell two frames apart, and what each column is held at is a
// function, of which no proof can.
#[derive(Drop)]
pub struct Frame {
    counts: Counts,
    held: [Option<Held>; MAX_COUNT],
}

impl Frame {
    // These counts, and every column free.
    pub(crate) fn all_free(counts: Counts) -> Frame
        ensures { frame_model result ≡ blank counts.rows counts.columns }
    {
        Frame {
            counts,
            held: [None; MAX_COUNT],
        }
    }

    pub(crate) fn counts(&self) -> Counts
        ensures rows { result.rows ≡ (frame_model self.now).rows }
        ensures columns { result.columns ≡ (frame_model self.now).columns }
    {
        self.counts
    }

    // Two plain numbers, as the system is asked.
    pub(crate) fn place(&self, row: usize, column: usize) -> Result<Place, Refusal>
        ensures { Placed (frame_model self.now) row column result }
    {
        self.counts.place(row, column)
    }

    pub(crate) fn held(&self, column: usize) -> Result<Option<i64>, Refusal>
        ensures { Answers (free_refusal (frame_model self.now) column) ((frame_model self.now).held column) result }
    {
        let column = self.counts.column(column)?;
        Ok(self.held[column].map(|number| number.value))
    }

    pub(crate) fn hold(&mut self, column: usize, number: i64) -> Result<(), Refusal>
        ensures { Changes (hold_refusal (frame_model self.old) column number) (with_held column (Some number)) (frame_model self.old) (frame_model self.new) result }
    {
        let column = self.counts.column(column)?;
        self.held[column] = Some(Held::try_from(number)?);
        Ok(())
    }

    pub(crate) fn free(&mut self, column: usize) -> Result<(), Refusal>
        ensures { Changes (free_refusal (frame_model self.old) column) (with_held column None) (frame_model self.old) (frame_model self.new) result }
    {
        let column = self.counts.column(column)?;
        self.held[column] = None;
        Ok(())
    }
}
