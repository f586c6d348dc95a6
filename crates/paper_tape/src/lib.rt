//! The units that read and write a file byte by byte: the paper tape reader, the paper tape punch and the line printer,
//! three devices of the machine.
#![tactic(auto)]

pub mod lpt;
pub mod ptp;
pub mod ptr;
mod writer;

pub use lpt::Lpt;
pub use ptp::Ptp;
pub use ptr::Ptr;
