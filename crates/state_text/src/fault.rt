ghost use Rattle.std.specs.Prelude.{◌≡◌};
ghost use Rattle.state_text.specs.declared.fault.StateFault.TheVariants as faults;
ghost use Rattle.state_text.specs.Faults.{state_fault};

use byte_layouts::FieldFault;
use std::alloc::{AllocError, AllocFailed};
use thiserror::Error;

/// Why bytes are not read as a saved session: the first fault of them from the left, or no memory for what they say.
#[derive(Clone, Copy, Debug, PartialEq, Error)]
pub enum StateFault {
    /// They do not begin as a state file does.
    #[error("not a state file")]
    NotState,
    /// They are of another version of the format.
    #[error("state version {0} not supported")]
    Version(u16),
    /// The digest at their end is not that of the bytes before it.
    #[error("state digest mismatch")]
    BadDigest { kept: [u8; 32], found: [u8; 32] },
    /// A field has a value that it cannot have, or a byte stands behind the end. The place is the field's first byte.
    #[error("state field invalid at {0}")]
    BadField(usize),
    /// They end before a field does.
    #[error("state file truncated")]
    Truncated,
    /// Memory ran out.
    #[error("out of memory")]
    OutOfMemory,
}

impl From<AllocError> for StateFault {
    ghost from_gives = { λ _ e. e ≡ faults.OutOfMemory };

    fn from(_e: AllocError) -> StateFault {
        StateFault::OutOfMemory
    }
}

impl<T: Drop> From<AllocFailed<T>> for StateFault {
    ghost from_gives = { λ _ e. e ≡ faults.OutOfMemory };

    fn from(_e: AllocFailed<T>) -> StateFault {
        StateFault::OutOfMemory
    }
}

impl From<FieldFault> for StateFault {
    ghost from_gives = { λ f e. e ≡ state_fault f };

    fn from(fault: FieldFault) -> StateFault {
        match fault {
            FieldFault::NotHead => StateFault::NotState,
            FieldFault::Version(n) => StateFault::Version(n),
            FieldFault::BadField(place) => StateFault::BadField(place),
            FieldFault::Truncated => StateFault::Truncated,
            FieldFault::OutOfMemory => StateFault::OutOfMemory,
        }
    }
}
