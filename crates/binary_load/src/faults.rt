use nova_word::Addr;
use thiserror::Error;

/// Where a tape says that its program starts.
#[derive(Clone, Copy, Debug, PartialEq, Eq)]
pub struct Start {
    /// The address of the start block. There is none where that block has bit 0 of its origin set, and where the bytes
    /// end without such a block.
    pub at: Option<Addr>,
}

/// The first fault of a tape. Of those of one block the first in this order is meant.
#[derive(Clone, Copy, Debug, PartialEq, Eq, Error)]
pub enum LoadFault {
    /// The bytes end within a block. The place is their end.
    #[error("the tape ends within a block, at {0}")]
    Truncated(usize),
    /// The words of a block do not add up to 0. The place is that of its first byte.
    #[error("the words of the block at {0} do not add up to 0")]
    BadSum(usize),
    /// A block has an address at which there is no memory. The number is its origin.
    #[error("the block for address {0:o} goes past the end of memory")]
    PastMemory(u16),
}
