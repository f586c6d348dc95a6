//! What the program reads from and writes to: streams of bytes, and files by their names, with versions of both in
//! memory for tests and for whoever runs a machine inside a program of their own.
#![tactic(auto)]

pub mod byte_list;
pub mod byte_sink;
pub mod byte_source;
mod calls;
mod failing;
mod mem_file;
pub mod mem_files;
pub mod open_table;

pub use byte_list::ByteList;
pub use byte_sink::ByteSink;
pub use byte_source::ByteSource;
pub use file_traits::{
    Bytes, Failed, FileCall, FileId, Files, OneFile, OpenFault, OpenMode, Sink, Source, WriteFault,
    counts_begin_with_ids, next_byte, openings_end_with_ids, put_all, put_pieces,
};
pub use mem_files::{AddFault, MemFiles};
pub use open_table::OpenTable;
pub use std::alloc::AllocError as OutOfMemory;
