// The adapters over readers, writers, files of the system and sockets.
mod calls;
mod paged_files;
mod reader_source;
mod real_files;
mod real_lines;
mod writer_sink;
