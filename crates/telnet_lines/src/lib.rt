//! A terminal line over Telnet: what is typed on its connection becomes keys, and what is put on it is coded and sent.
#![tactic(auto)]

mod decoder;
pub mod laws;
pub mod line;
mod pieces;

pub use decoder::{Place, Rest};
pub use laws::{
    accounts_add_up, data_are_read_by_sequences, keys_under_any_cutting, lines_stand_apart,
};
pub use line::{Line, LineFull};
pub use std::alloc::AllocError as OutOfMemory;
