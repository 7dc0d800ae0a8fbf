// A bottom: a frame, and what keeps its cells.
ghost use Rattle.std.specs.Prelude.{◌≡◌, Some, None};
ghost use Rattle.interval.specs.Refusals.{Changes};
ghost use Rattle.system.specs.Reading.{with_value};
ghost use Rattle.system.specs.Writing.{Puts, hold_refusal, free_refusal, holding};
ghost use Rattle.system.specs.Counts.{counts_refusal};
ghost use Rattle.sheets.specs.Frame.{frame_model, blank};
ghost use Rattle.sheets.specs.Bottom.{bottom_of, ruled, put_refusal, state_of};
ghost use Rattle.std.proofs.Common.{rules};

use crate::frame::Frame;
use cells::{Cells, Clear, InReach, REACH};
use interval::{Interval, Refusal};
use system::{Counts, PutFault, Sheet, System};

// Clauses speak of it by `bottom_of` of its fields, which holds functions, and so not by an `impl Model`, as with the frame.
#[derive(Drop)]
pub struct Bottom<C> {
    pub(crate) frame: Frame,
    pub(crate) cells: C,
}

impl<C> Bottom<C> {
    // One row and one column, which is free.
    pub(crate) fn over(cells: C) -> Bottom<C>
        ensures frame { frame_model result.frame ≡ blank 1 1 }
        ensures cells { result.cells ≡ cells }
    {
        Bottom {
            frame: Frame::all_free(Counts::ONE),
            cells,
        }
    }
}

impl<C: Clear> Bottom<C> {
    // Sets the counts, which are two numbers until they are checked, makes every cell (0, 0), and frees every column.
    pub fn size(&mut self, rows: usize, columns: usize) -> Result<(), Refusal>
        ensures { Changes (counts_refusal rows columns) (λ b. ruled (blank rows columns) b.rule) (bottom_of C.Cells.cell C.Cells.rule self.old) (bottom_of C.Cells.cell C.Cells.rule self.new) result }
    {
        self.frame = Frame::all_free(Counts::new(rows, columns)?);
        self.cells.clear();
        Ok(())
    }
}

impl<C: Cells> Bottom<C> {
    // Puts a value where the place is there, the value is within the reach, and the cells take it. What is beyond the limit
    // of every sheet is beyond the reach too, and refused by the same number.
    fn store(&mut self, row: usize, column: usize, value: Interval) -> Result<(), Refusal>
        ensures changes { Changes (put_refusal (bottom_of C.Cells.cell C.Cells.rule self.old) row column value) (with_value row column value) (C.Cells.cell self.old.cells) (C.Cells.cell self.new.cells) result }
        ensures steady { C.Cells.rule self.new.cells ≡ C.Cells.rule self.old.cells }
        ensures frame { self.new.frame ≡ self.old.frame }
    {
        let place = self.frame.place(row, column)?;
        self.cells.put(place, InReach::try_from(value)?)
    }
}

impl<C: Cells> System for Bottom<C> {
    ghost meaning = { λ s. (bottom_of C.Cells.cell C.Cells.rule s).model };

    ghost bounded = { Prim.search rules };

    fn rows(&self) -> usize {
        self.frame.counts().rows
    }

    fn columns(&self) -> usize {
        self.frame.counts().columns
    }

    fn reach(&self) -> u64 {
        u64::from(REACH)
    }

    fn cell(&self, row: usize, column: usize) -> Result<Interval, Refusal> {
        Ok(self.cells.get(self.frame.place(row, column)?))
    }

    fn held(&self, column: usize) -> Result<Option<i64>, Refusal> {
        self.frame.held(column)
    }
}

impl<C: Cells> Sheet for Bottom<C> {
    ghost refuses = { λ s. (state_of (bottom_of C.Cells.cell C.Cells.rule s)).refuses };

    ghost checks = { Prim.search rules };

    ghost places = { Prim.search rules };

    fn put(&mut self, row: usize, column: usize, value: Interval) -> Result<(), PutFault>
        ensures puts { Puts row column value (state_of (bottom_of C.Cells.cell C.Cells.rule self.old)) (state_of (bottom_of C.Cells.cell C.Cells.rule self.new)) result }
        ensures rule { (bottom_of C.Cells.cell C.Cells.rule self.new).rule ≡ (bottom_of C.Cells.cell C.Cells.rule self.old).rule }
    {
        self.store(row, column, value)
            .map_err(|refusal| PutFault::at(refusal, row, column))
    }

    fn hold(&mut self, column: usize, number: i64) -> Result<(), Refusal>
        ensures changes { Changes (hold_refusal (bottom_of C.Cells.cell C.Cells.rule self.old).model column number) (holding column (Some number)) (state_of (bottom_of C.Cells.cell C.Cells.rule self.old)) (state_of (bottom_of C.Cells.cell C.Cells.rule self.new)) result }
        ensures rule { (bottom_of C.Cells.cell C.Cells.rule self.new).rule ≡ (bottom_of C.Cells.cell C.Cells.rule self.old).rule }
    {
        self.frame.hold(column, number)
    }

    fn free(&mut self, column: usize) -> Result<(), Refusal>
        ensures changes { Changes (free_refusal (bottom_of C.Cells.cell C.Cells.rule self.old).model column) (holding column None) (state_of (bottom_of C.Cells.cell C.Cells.rule self.old)) (state_of (bottom_of C.Cells.cell C.Cells.rule self.new)) result }
        ensures rule { (bottom_of C.Cells.cell C.Cells.rule self.new).rule ≡ (bottom_of C.Cells.cell C.Cells.rule self.old).rule }
    {
        self.frame.free(column)
    }
}
