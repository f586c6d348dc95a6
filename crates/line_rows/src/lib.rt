//! Rows of a machine's terminal lines, one line behind another: whether they are there, the ports that they have or
//! get, and who is connected.
#![tactic(auto)]

pub mod putting_ports;
pub mod rows;

pub use putting_ports::put_row;
pub use rows::{are_taken, connected_in, first_port, has_row};
