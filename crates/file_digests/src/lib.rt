//! How long an open file is, and the SHA-256 of its bytes.
#![tactic(auto)]

pub mod digest;

pub use digest::{FileDigest, digest_of};
