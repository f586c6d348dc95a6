//! Loader tapes in Data General's absolute binary format: read into a memory, and written from one.
#![tactic(auto)]

pub mod blocks;
pub mod dumping;
pub mod faults;
pub mod laws;
pub mod loading;

pub use dumping::{dump, push_start, push_words};
pub use faults::{LoadFault, Start};
pub use laws::{
    dumps_read_back, last_stores_stay, runs_read_back, tapes_are_read, tapes_have_forms,
};
pub use loading::load;
pub use std::alloc::AllocError as OutOfMemory;
