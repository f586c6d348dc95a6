//! How the control program starts: the files that the words of its command line name are read, or refused by a text,
//! and a workload is put into memory.
#![tactic(auto)]

pub mod refusals;
pub mod word_files;
pub mod workload;

pub use refusals::{print_refusal, print_usage};
pub use word_files::{Beginning, Refusal, begin};
pub use workload::set_up;
