//! The laws of what commands do.
#![tactic(auto)]

pub mod laws;

pub use laws::{
    breaks_are_passed_once, commands_keep_states, quoted_texts_read_back, refusals_change_nothing,
    resets_leave_the_program, restore_puts_back, same_state_same_command, set_cpu_leaves_the_rest,
};
