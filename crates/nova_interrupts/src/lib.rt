//! The program interrupt of a Nova: its mask word, and which device asks for it.
#![tactic(auto)]

pub mod interrupts;
pub mod laws;

pub use interrupts::Ints;
pub use laws::zero_is_no_request;
