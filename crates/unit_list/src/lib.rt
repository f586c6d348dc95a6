//! The units of a machine, in bus order: each is found by the code of its kind, asked, and set.
#![tactic(auto)]

pub mod bus;
pub mod laws;
pub mod places;
pub mod registers;
pub mod reset;
pub mod service;
pub mod whole;

pub use bus::{BusAnswer, Flags, flags_at, has_unit, io_at};
pub use laws::{calls_reach_one_unit, units_are_whole, units_stay_in_range};
pub use places::Places;
pub use registers::{all_fit, reg_at, set_reg_at};
pub use reset::reset_all;
pub use service::{due_at, got_at};
pub use whole::{register_count, regs_at, set_regs_at};
