//! EXAMINE, DEPOSIT and the test of ASSERT, on a machine.
#![tactic(auto)]

pub mod assert_command;
mod check;
pub mod deposit_command;
pub mod examine_command;
pub mod fault;
mod fill;
mod item;
pub mod laws;
mod place;
mod registers;
mod show;

pub use assert_command::holds;
pub use deposit_command::deposit;
pub use examine_command::examine;
pub use fault::ExamineFault;
pub use laws::{
    deposits_change_the_listed_places_alone, deposits_read_back, every_state_is_a_machine,
    registers_are_printed_by_their_names, symbolic_devices_are_the_kinds,
};
