// The turnover: it turns over each cell.
ghost use Rattle.std.specs.Prelude.{◌≡◌};
ghost use Rattle.layers.specs.Turnover.{turned, TurnoverLaw};
ghost use Rattle.std.proofs.Common.{rules};

use interval::{Interval, Refusal};
use layer::{Layer, Shape};
use system::InLimit;

// It has no settings.
#[derive(Clone, Copy, PartialEq, Eq, Debug)]
pub struct Turnover;

impl Turnover {
    pub fn new() -> Turnover
        ensures { TurnoverLaw }
    {
        Turnover
    }
}

impl Layer for Turnover {
    ghost view = { λ _. turned };

    ghost lawful = { Prim.search rules };

    fn reach(&self, below: Shape) -> u64 {
        below.reach
    }

    fn row(&self, below: Shape, row: usize) -> usize {
        row
    }

    fn column(&self, below: Shape, column: usize) -> usize {
        column
    }

    fn negated(&self, below: Shape, column: usize) -> bool {
        false
    }

    fn shown(&self, below: Shape, row: usize, column: usize, value: InLimit) -> Interval {
        value.dual().into()
    }

    fn lowered(
        &self,
        below: Shape,
        row: usize,
        column: usize,
        value: InLimit,
    ) -> Result<InLimit, Refusal> {
        Ok(value.dual())
    }
}
