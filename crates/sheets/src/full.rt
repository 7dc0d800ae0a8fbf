// The full sheet: it takes every cell.
ghost use Rattle.std.specs.Prelude.{◌≡◌, IfOk};
ghost use Rattle.cells.specs.Grid.{grid_rule};
ghost use Rattle.sheets.specs.Frame.{blank};
ghost use Rattle.sheets.specs.Bottom.{ruled};
ghost use Rattle.sheets.specs.Full.{full as full_of};

use crate::bottom::Bottom;
use cells::Grid;
use std::alloc::{AllocError, Global};

pub type Full = Bottom<Grid>;

impl Full {
    // A `new` for every kind that takes memory would clash with that of `Parts`, which takes none and cannot fail.
    pub fn new(heap: Global) -> Result<Full, AllocError>
        ensures { IfOk result (λ s. full_of s ≡ ruled (blank 1 1) grid_rule) }
    {
        Ok(Bottom::over(Grid::new(heap)?))
    }
}
