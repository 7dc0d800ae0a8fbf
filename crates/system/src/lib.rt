// What a fit sheet is: a system to be read, a sheet to be written, and when two systems are the same.
#![tactic(auto)]

mod comparison;
mod counts;
mod faults;
mod places;
mod reading;
mod writing;

pub use comparison::same;
pub use counts::Counts;
pub use counts::ops::MAX_COUNT;
pub use faults::PutFault;
pub use places::Place;
pub use reading::{Held, InLimit, MAX_HELD, MAX_REACH, System};
pub use writing::Sheet;
