//! Words of memory, to and from bytes: those of a sector of the disk, and those of a block of a tape, with what an
//! operation does on a tape's image. It knows no unit, no file by its name, and no machine.
#![tactic(auto)]

mod sector_words;
pub mod tape;
mod word_bytes;

pub use sector_words::{bytes_of, put_words};
pub use tape::{TapeStop, operate};
