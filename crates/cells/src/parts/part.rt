// One slot of a table of parts. A slot whose interval is (0, 0) is empty.
ghost use Rattle.std.specs.Prelude.{◌≡◌};
ghost use Rattle.cells.specs.Slots.{is_empty as is_empty_of, stands_at as stands_at_of};

use crate::keeping::{BLANK, InReach};
use system::Place;

pub const SLOTS: usize = 128;

pub(crate) const EMPTY: Part = Part {
    place: Place { row: 0, column: 0 },
    value: BLANK,
};

#[derive(Clone, Copy)]
pub struct Part {
    pub place: Place,
    pub value: InReach,
}

impl Part {
    // A slot is empty however it came to be so: never used, or its part taken off.
    pub(crate) fn is_empty(&self) -> bool
        ensures { result ≡ is_empty_of self.now }
    {
        self.value == BLANK
    }

    // The place first: that tells most slots by one comparison.
    pub(crate) fn stands_at(&self, place: Place) -> bool
        ensures { result ≡ stands_at_of place.row place.column self.now }
    {
        self.place == place && !self.is_empty()
    }
}
