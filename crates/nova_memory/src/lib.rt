//! The memory of a Nova: 32768 words of 16 bits, and the effective address of a memory reference.
#![tactic(auto)]

pub mod address;
pub mod laws;
pub mod memory;
pub mod words;

pub use address::{ChainLimit, indexed};
pub use memory::Memory;
pub use std::alloc::AllocError as OutOfMemory;
pub use words::{Words, is_size};
