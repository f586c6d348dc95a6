//! The words of the command line: their grammar, what they choose, and which units the standard ones are.
#![tactic(auto)]

mod counts;
pub mod options;
pub mod standard;
pub mod words;

pub use options::Options;
pub use standard::is_standard;
pub use words::options_of;
