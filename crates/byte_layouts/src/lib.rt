//! Layouts of bytes as data, and readers of a text by them, whole or in pieces, field by field from the left.
#![tactic(auto)]

pub mod both;
pub mod cursor;
pub mod fault;
pub mod format;
pub mod known;
pub mod laws;
pub mod list;
pub mod measured;
pub mod numbers;
pub mod one;
pub mod part;
pub mod pending;
pub mod reading;
pub mod stage;
pub mod telling;
pub mod three;
pub mod trying;

pub use both::Both;
pub use cursor::Cursor;
pub use fault::FieldFault;
pub use format::{Format, Plain, Writes};
pub use known::Known;
pub use laws::texts_are_read;
pub use list::{Elements, ListFormat, write_elements, write_list, write_plain};
pub use measured::{Measure, Measured};
pub use numbers::{put_u8, put_u16, put_u32, put_u64};
pub use one::One;
pub use part::Part;
pub use pending::Pending;
pub use reading::{Fed, Reading, read_whole};
pub use telling::{ListOf, Telling, Tells};
pub use three::Three;
