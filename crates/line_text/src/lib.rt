//! The words of a line, with spaces and tabs between them, and a short text that is put together before it is printed.
#![tactic(auto)]

pub mod text;
pub mod words;

pub use text::Text;
pub use words::{is_blank, is_spelled, past_blanks, trimmed, word_at};
