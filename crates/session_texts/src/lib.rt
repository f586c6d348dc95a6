//! The texts that are still to come in a session: the lines of its input, which are read byte by byte, the scripts that
//! are open, and the actions that wait.
#![tactic(auto)]

pub mod line_reader;
pub mod open_script;
pub mod script_stack;
pub mod texts;

pub use line_reader::{LineReader, Reading};
pub use open_script::OpenScript;
pub use script_stack::ScriptStack;
pub use texts::Texts;
