// Directed intervals and Kaucher's arithmetic, proved at every sign, and the numbered refusals.
#![tactic(auto)]

mod arithmetic;
mod classes;
mod directed;
mod limited;
mod numbers;
mod operands;
mod refusals;

pub use classes::Class;
pub use directed::{Interval, Kind, in_limit};
pub use limited::Limited;
pub use numbers::Number;
pub use refusals::{NoSuchRefusal, Refusal};
