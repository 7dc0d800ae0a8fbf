// The bottoms: sheets that keep their cells themselves.
#![tactic(auto)]

mod banded;
mod bottom;
mod frame;
mod full;
mod parts;

pub use banded::Banded;
pub use bottom::Bottom;
pub use full::Full;
pub use parts::Parts;
