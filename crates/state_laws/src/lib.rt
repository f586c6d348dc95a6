//! The laws of sessions that are saved and put back.
#![tactic(auto)]

pub mod laws;

pub use laws::{put_back_is_valid, saved_is_valid, saving_puts_back};
