// Every cell of a sheet, row by row.
ghost use Rattle.std.specs.Prelude.{◌≡◌, vec_len};

use crate::keeping::InReach;

pub mod ops;

// The cell at row r and column c stands at 64 r + c. Clauses speak of it by `grid_cell` of its fields: an `impl Model` needs a value
// by which proofs can tell two grids apart, and what each place holds is a function, of which none can.
#[derive(Drop)]
pub struct Grid {
    cells: Vec<InReach>,
    ghost all: { vec_len cells ≡ 4096 },
}
