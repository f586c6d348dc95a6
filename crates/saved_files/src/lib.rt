//! The files that a saved session names: digested where it is saved, attached and compared where it is put back.
#![tactic(auto)]

pub mod file_faults;
pub mod putting;
pub mod taking;
pub mod unit_digest;

pub use file_faults::{RestoreFault, SaveFault};
pub use putting::{attach_all, give_back_all};
pub use taking::digest_all;
