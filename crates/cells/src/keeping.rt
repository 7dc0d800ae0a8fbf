// What keeps cells.
ghost use Rattle.std.specs.Prelude.{◌≡◌, ℕ};
ghost use Rattle.interval.specs.declared.directed.Interval.{Interval as Kept};
ghost use Rattle.interval.specs.Directed.{nought, Within};
ghost use Rattle.interval.specs.Limited.{interval_of};
ghost use Rattle.interval.specs.Refusals.{Changes};
ghost use Rattle.system.specs.Reading.{with_value};
ghost use Rattle.cells.specs.Keeping.{bottom_reach, Rule};

use interval::{Interval, Limited, Number, Refusal};
use system::Place;

// The reach of everything that keeps cells, and a value within it.
pub const REACH: u32 = 100_000;

pub type InReach = Limited<REACH>;

// A cell (0, 0).
pub(crate) const BLANK: InReach = Limited {
    first: Number { value: 0 },
    second: Number { value: 0 },
};

// `cell` is what each place holds, and `rule` the number with which a value within the reach is refused, by what the places
// hold.
pub trait Cells {
    ghost cell: { Self → ℕ → ℕ → Kept };

    ghost rule: { Self → Rule };

    fn get(&self, place: Place) -> Interval
        ensures { result ≡ cell self.now place.row place.column };

    fn put(&mut self, place: Place, value: InReach) -> Result<(), Refusal>
        ensures changes { Changes (rule self.old (cell self.old) place.row place.column (interval_of value)) (with_value place.row place.column (interval_of value)) (cell self.old) (cell self.new) result }
        ensures steady { rule self.new ≡ rule self.old };

    ghost near: { (s : Self) (r c : ℕ) → Within bottom_reach (cell s r c) };
}

// Cells that keep nothing but what is put: they are cleared by themselves, whatever the counts.
pub trait Clear: Cells {
    // Makes every cell (0, 0).
    fn clear(&mut self)
        ensures cells { Self.Cells.cell self.new ≡ (λ _ _. nought) }
        ensures steady { Self.Cells.rule self.new ≡ Self.Cells.rule self.old };
}
