//! Files that are read or written whole: scripts, keys files, loader tapes and saved sessions, and the images of disks.
#![tactic(auto)]

mod reading;
pub mod whole;
pub mod writing;

pub use reading::fill;
pub use whole::{FailedCall, LONGEST_FILE, Whole, WholeFault, read_file};
pub use writing::{Written, write_file};
