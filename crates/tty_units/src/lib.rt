//! The teletype of the console and the second one: a keyboard and a printer each, four devices of the machine.
#![tactic(auto)]

mod keyboard;
mod teleprinter;
pub mod tti;
pub mod tti1;
pub mod tto;
pub mod tto1;

pub use tti::Tti;
pub use tti1::Tti1;
pub use tto::Tto;
pub use tto1::Tto1;
