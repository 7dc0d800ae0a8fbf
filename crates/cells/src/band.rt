// The cells of a band along the diagonal, and of the last column.
ghost use Rattle.std.specs.Prelude.{◌≡◌, ◌≤◌, vec_len};

use crate::keeping::InReach;

pub mod ops;

// Each row has 18 slots: its column c stands at slot c + 8 − r of row r, and the last column at slot 17. Clauses are by `banding` of the
// fields, and not by an `impl Model`, as with the grid.
#[derive(Drop)]
pub struct Band {
    width: usize,
    last: usize,
    cells: Vec<InReach>,
    ghost narrow: { width ≤ 8 },
    ghost all: { vec_len cells ≡ 1152 },
}
