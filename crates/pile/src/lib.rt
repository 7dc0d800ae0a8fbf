// A pile: a bottom, and any number of layers over it, picked while a program runs.
#![tactic(auto)]

mod descent;
mod piling;

pub use piling::Pile;
