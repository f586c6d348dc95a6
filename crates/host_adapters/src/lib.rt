//! The standard streams, and any other reader or writer, as the source and the sink that a machine reads from and
//! writes to, the files of the system as the files that it attaches, and sockets as its terminal lines.
#![tactic(auto)]

pub mod paged_files;
mod positioned;
pub mod reader_source;
mod readiness;
pub mod real_files;
pub mod real_lines;
mod retries;
mod sockets;
pub mod writer_sink;

pub use paged_files::{PAGE, PagedFiles};
pub use reader_source::{READ_AHEAD, ReaderSource};
pub use real_files::RealFiles;
pub use real_lines::RealLines;
pub use writer_sink::WriterSink;
