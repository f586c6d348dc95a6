//! The real-time clock, a device of the machine.
#![tactic(auto)]

pub mod clock;

pub use clock::Clk;
