//! A session: the texts that come in it, which are lines of its input and of its scripts and the actions of its stops,
//! and what they come to one behind another.
#![tactic(auto)]

mod answers;
mod command_loop;
pub mod perform_session;
pub mod progress;

pub use perform_session::{Opening, perform};
pub use progress::Finish;
