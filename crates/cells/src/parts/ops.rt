// What a table of parts takes and gives.
ghost use Rattle.std.specs.Prelude.{◌≡◌};
ghost use Rattle.interval.specs.Directed.{nought};
ghost use Rattle.cells.specs.Slots.{Found};
ghost use Rattle.cells.specs.Parts.{table_cell, parts_rule, Room};
ghost use Rattle.cells.specs.Nearness.{near_cell};

use crate::keeping::{BLANK, Cells, Clear, InReach};
use crate::parts::PartTable;
use crate::parts::part::{EMPTY, Part, SLOTS};
use interval::{Interval, Refusal};
use system::Place;

impl PartTable {
    // A table without parts.
    pub fn new() -> PartTable
        ensures { table_cell result ≡ (λ _ _. nought) }
    {
        PartTable {
            parts: [EMPTY; SLOTS],
        }
    }

    // The slot of the part that stands at a place.
    fn find(&self, place: Place) -> Option<usize>
        ensures { Found self.now.parts place.row place.column result }
    {
        self.parts.iter().position(|part| part.stands_at(place))
    }

    // An empty slot, as long as fewer than 128 parts stand.
    fn room(&self) -> Option<usize>
        ensures { Room self.now result }
    {
        self.parts.iter().position(|part| part.is_empty())
    }
}

impl Cells for PartTable {
    ghost cell = { table_cell };

    ghost rule = { λ _. parts_rule };

    ghost near = { λ t. near_cell t.parts };

    fn get(&self, place: Place) -> Interval {
        match self.find(place) {
            Some(slot) => self.parts[slot].value.into(),
            None => Interval::NOUGHT,
        }
    }

    // An interval (0, 0) takes the part off, since it empties the slot.
    fn put(&mut self, place: Place, value: InReach) -> Result<(), Refusal> {
        if let Some(slot) = self.find(place) {
            self.parts[slot].value = value;
            return Ok(());
        }
        if value == BLANK {
            return Ok(());
        }
        let slot = self.room().ok_or(Refusal::PartsFull)?;
        self.parts[slot] = Part { place, value };
        Ok(())
    }
}

impl Clear for PartTable {
    // Takes every part off.
    fn clear(&mut self) {
        *self = PartTable::new();
    }
}
