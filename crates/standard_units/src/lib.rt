//! The units of a standard machine: new, each in a box, and in a list in bus order; and the multiplexer behind them.
#![tactic(auto)]

mod boxes;
pub mod units;

pub use units::{Boxes, boxed_multiplexer, boxed_units, in_bus_order, with_multiplexer};
