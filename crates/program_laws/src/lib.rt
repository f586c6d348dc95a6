//! Laws of the program: what its outcome is, of any words, input, console, files and lines. No function is proved with
//! them.
#![tactic(auto)]

pub mod laws;

pub use laws::{
    console_takes_first_part, more_room_same_end, program_stays_valid, restored_programs_go_on,
    told_is_enough, whole_without_faults, workload_uses_nothing,
};
