//! A saved session as plain data, and its watch tables as they are saved and as they are built again.
#![tactic(auto)]

pub mod fields;
pub mod kinds;
pub mod putting_watch;
pub mod saved;
pub mod taking_watch;

pub use fields::{MachineFields, WatchFields, joined};
pub use kinds::{holds_value, kind_at, longest_file_of, only_writes, register_count};
pub use putting_watch::watch_from;
pub use saved::{
    Saved, SavedBreak, SavedCpu, SavedEvent, SavedExpect, SavedFile, SavedPorts, SavedSend,
    SavedUnit,
};
pub use taking_watch::taken_watch;
