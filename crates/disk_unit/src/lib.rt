//! The fixed-head disk, a device of the machine.
#![tactic(auto)]

pub mod disk;
pub mod dsk;

pub use dsk::Dsk;
