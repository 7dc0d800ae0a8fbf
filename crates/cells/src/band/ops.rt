// What a band takes and gives.
ghost use Rattle.std.specs.Prelude.{◌≡◌, true, IfOk};
ghost use Rattle.interval.specs.Refusals.{Changes};
ghost use Rattle.cells.specs.Band.{keeps, band_slot, band_cell, band_rule, banding, blank_band, width_refusal};
ghost use Rattle.std.proofs.Common.{rules};

use crate::band::Band;
use crate::keeping::{BLANK, Cells, InReach};
use interval::{Interval, Refusal};
use std::alloc::{AllocError, Global};
use system::Place;

const MAX_WIDTH: usize = 8;

const STRIDE: usize = 18;

const LAST_SLOT: usize = 17;

const SIZE: usize = 1152;

impl Band {
    // A band of width 0 on a sheet of one column, its cells (0, 0).
    pub fn new(heap: Global) -> Result<Band, AllocError>
        ensures { IfOk result (λ b. banding b ≡ blank_band 0 0) }
    {
        Ok(Band {
            width: 0,
            last: 0,
            cells: vec![in heap; BLANK; SIZE]?,
        })
    }

    // Sets the width and the last column, and makes every cell (0, 0).
    pub fn shape(&mut self, width: usize, last: usize) -> Result<(), Refusal>
        ensures { Changes (width_refusal width) (λ _. blank_band width last) (banding self.old) (banding self.new) result }
    {
        if width > MAX_WIDTH {
            return Err(Refusal::OutsideLimit);
        }
        self.width = width;
        self.last = last;
        self.cells.fill(BLANK);
        Ok(())
    }

    fn keeps(&self, place: Place) -> bool
        ensures { result ≡ keeps self.now place.row place.column }
    {
        let (row, column) = (place.row, place.column);
        column == self.last || column.abs_diff(row) <= self.width
    }

    fn slot(&self, place: Place) -> usize
        requires { keeps self.now place.row place.column ≡ true }
        ensures { result ≡ band_slot self.now.last place.row place.column }
    {
        let offset = if place.column == self.last {
            LAST_SLOT
        } else {
            place.column + MAX_WIDTH - place.row
        };
        place.row * STRIDE + offset
    }
}

impl Cells for Band {
    ghost cell = { band_cell };

    ghost rule = { λ b. band_rule b.width b.last };

    ghost near = { Prim.search rules };

    fn get(&self, place: Place) -> Interval {
        if self.keeps(place) {
            self.cells[self.slot(place)].into()
        } else {
            Interval::NOUGHT
        }
    }

    fn put(&mut self, place: Place, value: InReach) -> Result<(), Refusal> {
        if !self.keeps(place) {
            return Err(Refusal::NotKept);
        }
        let slot = self.slot(place);
        self.cells[slot] = value;
        Ok(())
    }
}
