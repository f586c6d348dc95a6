/// A table has no room for what was to be added, and stays as it was.
#[derive(Clone, Copy, Debug, PartialEq, Eq)]
pub struct Full;

/// Why nothing was added to a table that takes memory for what it holds. The table stays as it was.
#[derive(Clone, Copy, Debug, PartialEq, Eq)]
pub enum AddFault {
    /// The table has no room.
    Full,
    OutOfMemory,
}
