//! The ports of terminal lines: no two lines have one, and ports in a row are listened on by one call.
#![tactic(auto)]

pub mod listening;
pub mod taken;

pub use listening::{listen_for, listen_up};
pub use taken::{is_taken, owns};
