//! What a command script is as a text: its lines, its labels, what stands for its arguments, and what a line costs.
#![tactic(auto)]

pub mod arguments;
pub mod filling;
pub mod labels;
pub mod laws;
pub mod lines;

pub use arguments::Arguments;
pub use filling::{LONGEST_LINE, filled, piece_at};
pub use labels::{find_label, is_label_line};
pub use laws::{
    labels_are_the_first, lines_make_the_script, other_arguments_do_not_matter, plain_lines_stay,
};
pub use lines::{Line, line_cost, next_line};
pub use std::alloc::AllocError as OutOfMemory;
