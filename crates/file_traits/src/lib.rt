//! What the program asks of streams of bytes and of files by their names: the traits, and what it does through them.
#![tactic(auto)]

pub mod files;
pub mod laws;
pub mod one_file;
pub mod one_list;
pub mod streams;

pub use files::{FileCall, FileId, Files, OpenFault, OpenMode, WriteFault};
pub use laws::{counts_begin_with_ids, openings_end_with_ids};
pub use one_file::OneFile;
pub use one_list::Bytes;
pub use std::alloc::AllocError as OutOfMemory;
pub use streams::{Failed, Sink, Source, next_byte, put_all, put_pieces};
