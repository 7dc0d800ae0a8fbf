// What a bottom keeps its cells in: every cell, a band of them, or a table of parts.
#![tactic(auto)]

mod band;
mod grid;
mod keeping;
mod parts;

pub use band::Band;
pub use grid::Grid;
pub use keeping::{Cells, Clear, InReach, REACH};
pub use parts::PartTable;
