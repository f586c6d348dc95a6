//! The machine: its processor, its switches, units, events and time, one turn, and a run of turns.
#![tactic(auto)]

mod burst;
mod drive;
mod idle;
mod instruction_end;
mod lending;
mod line_looks;
pub mod machine;
mod on_line;
mod registers;
mod run;
mod sector;
mod service;
mod settings;
mod transfer;
mod turn;
mod unit_registers;
mod wait;

pub use machine::{Machine, RunLimit, Stop, Turn};
pub use nova_interrupts::Ints;
pub use std::alloc::AllocError as OutOfMemory;
pub use unit_trait::{CpuReg, RegFault};
