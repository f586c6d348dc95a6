//! A saved session as the bytes of a state file: written, and read with the one fault of bytes that are none.
#![tactic(auto)]

mod behind_units;
pub mod fault;
mod file_formats;
pub mod laws;
mod machine_formats;
mod port_formats;
pub mod reading;
mod state_reader;
mod watch_formats;
mod writing;

pub use fault::StateFault;
pub use laws::{state_texts_are_one_to_one, valid_states_are_read};
pub use reading::read_state;
pub use state_reader::StateReader;
pub use writing::write_state;
