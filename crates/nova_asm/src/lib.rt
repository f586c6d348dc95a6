//! An assembler of labelled sources to loader tapes.
//!
//! A line ends at LF, and a CR before that goes. A `;` outside quotes begins a comment. In front of it a line may have
//! a label, a letter and up to 31 letters or digits in either case, with a `:` behind it, and then a statement; blanks
//! and tabs may stand round both. Numbers are octal.
//!
//! - `.LOC n`: no word; what follows stands from n on, up to 77777.
//! - `.WORD v`, `.WORD label`, `.WORD label+n`: the value, up to 177777, or the location of the label, with n added.
//! - `.TXT "text"`: the bytes of a quoted text and a byte of 0, and one more where these are odd in number, two to a
//!   word, the high byte first.
//! - `.END`, `.END n`, `.END label`: no word; the source ends here, with that start, or with none.
//! - The name of a memory reference, with `label` or `label+n` as its address, or with `@` in front of these: page zero
//!   where the value is at most 377, else relative to PC where it lies from 200 before the word to 177 behind it.
//! - Any other symbolic text: its word.
#![tactic(auto)]

pub mod comments;
pub mod faults;
pub mod first;
pub mod labels;
pub mod laws;
pub mod line;
pub mod parts;
pub mod second;
pub mod statements;
pub mod writer;
pub mod writing;

pub use faults::AsmFault;
pub use laws::{loaded_tapes_hold_the_source, tapes_say_the_source};
pub use writer::Assembled;
pub use writing::assemble;
