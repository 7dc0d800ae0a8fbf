// The banded sheet: it keeps the cells near the diagonal, and the last column.
ghost use Rattle.std.specs.Prelude.{◌≡◌, ◌-◌, IfOk};
ghost use Rattle.interval.specs.Refusals.{Changes, or_else};
ghost use Rattle.system.specs.Counts.{counts_refusal};
ghost use Rattle.cells.specs.Band.{band_rule, width_refusal};
ghost use Rattle.sheets.specs.Frame.{blank};
ghost use Rattle.sheets.specs.Bottom.{ruled};
ghost use Rattle.sheets.specs.Banded.{banded as banded_of};

use crate::bottom::Bottom;
use crate::frame::Frame;
use cells::Band;
use interval::Refusal;
use std::alloc::{AllocError, Global};
use system::Counts;

pub type Banded = Bottom<Band>;

impl Banded {
    // The width is 0, until the sheet is sized.
    pub fn new(heap: Global) -> Result<Banded, AllocError>
        ensures { IfOk result (λ s. banded_of s ≡ ruled (blank 1 1) (band_rule 0 0)) }
    {
        Ok(Bottom::over(Band::new(heap)?))
    }

    // Sets the counts and the width, makes every cell (0, 0), and frees every column.
    pub fn size_with_width(
        &mut self,
        rows: usize,
        columns: usize,
        width: usize,
    ) -> Result<(), Refusal>
        ensures { Changes (or_else (counts_refusal rows columns) (width_refusal width)) (λ _. ruled (blank rows columns) (band_rule width (columns - 1))) (banded_of self.old) (banded_of self.new) result }
    {
        let frame = Frame::all_free(Counts::new(rows, columns)?);
        self.cells.shape(width, columns - 1)?;
        self.frame = frame;
        Ok(())
    }
}
