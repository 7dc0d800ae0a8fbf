// Two layers: one turns over each cell, and one shows the opposite in the columns that are marked.
#![tactic(auto)]

mod mirror;
mod turnover;

pub use mirror::{Mark, Mirror};
pub use turnover::Turnover;
