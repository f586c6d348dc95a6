//! The laws of the machine: what holds of every turn and every run, and which states they work on.
#![tactic(auto)]

pub mod laws;
