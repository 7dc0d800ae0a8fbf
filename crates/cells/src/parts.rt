// A table of up to 128 parts, each a place and an interval.
ghost use Rattle.std.specs.Prelude.{◌≡◌, true};
ghost use Rattle.cells.specs.Slots.{one_part};

use part::{Part, SLOTS};

pub mod ops;
mod part;

// The slots of the parts, one after the other. No place has two parts. It is an array of structs by a rule of the project: a put
// takes no memory, and rewrites one part and no other. An array of `Option<Part>` would be no plainer: an invariant more would
// have to keep (0, 0) out of each part. Clauses are by `table_cell` of the fields, and not by an `impl Model`, as with the grid.
#[derive(Drop)]
pub struct PartTable {
    parts: [Part; SLOTS],
    ghost apart: { one_part parts ≡ true },
}
