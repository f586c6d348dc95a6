//! The forms of the words that stand as operands in command lines: numbers, items of lists, conditions, and the names
//! of registers, devices and units.
#![tactic(auto)]

pub mod condition;
pub mod item;
pub mod listing;
pub mod number;
pub mod registers;
pub mod units;

pub use condition::{comparison_of, condition_of, rel_place};
pub use item::{item_of, items_of, split};
pub use listing::{Condition, Item, Items, Listing, MOST_ITEMS, Name, Rel, Test};
pub use number::{decimal, octal};
pub use registers::{register_name, register_named};
pub use units::{device_of, unit_of};
