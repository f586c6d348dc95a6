//! State files: a session is taken as it is saved, and put back; and what is saved is written as bytes, and read.
#![tactic(auto)]

pub use saved_files::{RestoreFault, SaveFault, attach_all, digest_all};
pub use saved_session::{
    Saved, SavedBreak, SavedCpu, SavedEvent, SavedExpect, SavedFile, SavedPorts, SavedSend,
    SavedUnit,
};
pub use state_text::{
    StateFault, StateReader, read_state, state_texts_are_one_to_one, valid_states_are_read,
    write_state,
};
pub use state_transfer::{set_state, take_state};
pub use std::alloc::AllocError as OutOfMemory;
