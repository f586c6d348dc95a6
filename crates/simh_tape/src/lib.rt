//! Tape images as SIMH keeps them: items of an image are read in both directions, passed over, written and erased. No
//! call takes memory.
#![tactic(auto)]

pub mod items;
pub mod laws;
pub mod reading;
pub mod spacing;
mod words;
pub mod writing;

pub use items::{Item, TapeFault};
pub use laws::{blocks_are_read_back, items_read_the_same, marks_lead_back, spacing_leads_back};
pub use reading::{read_next, read_previous};
pub use spacing::{Spaced, space};
pub use writing::{PutFault, erase_rest, write_block, write_mark};
