//! The processor: its registers and its memory, the instructions on them, and bursts of instructions. It knows no time,
//! no interrupt and no device.
#![tactic(auto)]

mod arithmetic;
pub mod burst;
pub mod cpu;
pub mod input_output;
mod memory_reference;
pub mod processor;
pub mod stops;
mod table;

pub use burst::{Burst, BurstEnd, Step};
pub use cpu::Cpu;
pub use input_output::flag_skips;
pub use processor::Processor;
pub use std::alloc::AllocError as OutOfMemory;
pub use stops::{Nowhere, Stops};
