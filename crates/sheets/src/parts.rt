// The parts sheet: it keeps up to 128 cells that are not (0, 0).
ghost use Rattle.std.specs.Prelude.{◌≡◌};
ghost use Rattle.cells.specs.Parts.{parts_rule};
ghost use Rattle.sheets.specs.Frame.{blank};
ghost use Rattle.sheets.specs.Bottom.{ruled};
ghost use Rattle.sheets.specs.Parts.{parts as parts_of};

use crate::bottom::Bottom;
use cells::PartTable;

pub type Parts = Bottom<PartTable>;

impl Parts {
    pub fn new() -> Parts
        ensures { parts_of result ≡ ruled (blank 1 1) parts_rule }
    {
        Bottom::over(PartTable::new())
    }
}
