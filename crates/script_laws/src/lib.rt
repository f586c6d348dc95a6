//! Laws of sessions: what their definitions come to, of any script, input and files. No function of the program is
//! proved with them but `simulate`, which says of a restored session that it goes on.
#![tactic(auto)]

pub mod laws;

pub use laws::{
    actions_are_forgotten, ended_scripts_do_not_matter, lines_are_consumed,
    restored_session_goes_on, same_core_same_future, saved_and_restored_go_on_alike,
    session_goes_line_by_line, session_is_cut_behind_texts, sessions_end_alike,
    sessions_stay_valid,
};
