//! The arithmetic of the Nova: the arithmetic and logical instructions, multiplication and division.
#![tactic(auto)]

pub mod arithmetic;
mod carries;
mod functions;
pub mod multiply_divide;
pub mod outcome;
mod shifts;
mod skips;
mod table;

pub use arithmetic::{arith, arith_in_place};
pub use multiply_divide::{Divided, divide, divide_in_place, multiply, multiply_in_place};
pub use outcome::Arith;
