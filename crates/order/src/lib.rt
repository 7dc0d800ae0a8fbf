// The order: a layer that shows rows and columns in another order.
#![tactic(auto)]

mod places;
mod tables;

pub use tables::{Exchange, Order};
