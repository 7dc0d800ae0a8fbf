// What a grid takes and gives.
ghost use Rattle.std.specs.Prelude.{◌≡◌, IfOk};
ghost use Rattle.interval.specs.Directed.{nought};
ghost use Rattle.cells.specs.Grid.{grid_slot, grid_cell, grid_rule};
ghost use Rattle.std.proofs.Common.{rules};

use crate::grid::Grid;
use crate::keeping::{BLANK, Cells, Clear, InReach};
use interval::{Interval, Refusal};
use std::alloc::{AllocError, Global};
use system::Place;

const STRIDE: usize = 64;

const SIZE: usize = 4096;

impl Grid {
    // A grid of cells (0, 0).
    pub fn new(heap: Global) -> Result<Grid, AllocError>
        ensures { IfOk result (λ g. grid_cell g ≡ (λ _ _. nought)) }
    {
        Ok(Grid {
            cells: vec![in heap; BLANK; SIZE]?,
        })
    }
}

fn slot(place: Place) -> usize
    ensures { result ≡ grid_slot place.row place.column }
{
    place.row * STRIDE + place.column
}

impl Cells for Grid {
    ghost cell = { grid_cell };

    ghost rule = { λ _. grid_rule };

    ghost near = { Prim.search rules };

    fn get(&self, place: Place) -> Interval {
        self.cells[slot(place)].into()
    }

    fn put(&mut self, place: Place, value: InReach) -> Result<(), Refusal> {
        self.cells[slot(place)] = value;
        Ok(())
    }
}

impl Clear for Grid {
    fn clear(&mut self) {
        self.cells.fill(BLANK);
    }
}
