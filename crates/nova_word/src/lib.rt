//! Words and addresses of the Nova, numbers as texts of octal and decimal digits, and quoted texts.
#![tactic(auto)]

pub mod numbers;
pub mod quoted;
pub mod words;

pub use numbers::{
    NumberFault, digits_read_back, octal_width, read_decimal, read_octal, texts_have_one_answer,
    write_octal,
};
pub use quoted::{quoted_texts_are_unambiguous, read_quoted, skip_quoted};
pub use words::{Addr, Word};
