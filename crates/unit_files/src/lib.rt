//! The files of units: what is attached to each, and what is done with it (SIMH Users' Guide, "Attaching Devices").
#![tactic(auto)]

pub mod attached;
pub mod bytes;
pub mod digest;
pub mod disk;
mod disk_copy;
pub mod faults;
mod flushing;
pub mod laws;
pub mod modes;
mod opening;
mod reading;
mod slots;

pub use attached::Attached;
pub use disk::SECTOR_BYTES;
pub use faults::{AttachFault, ByteAnswer, DetachFault, SectorAnswer, UnitFault};
pub use file_digests::FileDigest;
pub use laws::{
    digests_are_of_the_file, flushes_leave_the_copy, sectors_mark_their_pages, sectors_read_back,
};
pub use modes::AttachMode;
