//! The magnetic tape, a device of the machine.
#![tactic(auto)]

pub mod control;
pub mod mta;
pub mod places;

pub use mta::Mta;
