//! The symbolic text of the words of the Nova.
#![tactic(auto)]

mod arithmetic;
pub mod fault;
mod input_output;
mod memory_reference;
mod names;
mod operands;
pub mod reader;
pub mod reference;
pub mod writer;

pub use fault::SymbolFault;
pub use reader::{
    canonical_texts_read_back, each_text_has_a_word_or_a_fault, no_text_is_two_words, read,
};
pub use reference::{ReferenceFront, reference_at};
pub use writer::print;
