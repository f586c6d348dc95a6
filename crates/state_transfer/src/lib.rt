//! A session is taken as what is saved of it, and put back.
#![tactic(auto)]

mod processor;
mod putting;
pub mod putting_ports;
pub mod putting_state;
pub mod taking;
mod taking_machine;

pub use putting_state::set_state;
pub use taking::take_state;
