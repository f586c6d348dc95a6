ghost use Rattle.std.specs.Prelude.{◌≡◌};
ghost use Rattle.byte_layouts.specs.declared.fault.FieldFault.TheVariants as faults;

use std::alloc::{AllocError, AllocFailed};

/// Why bytes are not read as a layout has them: the first fault of them from the left, or no memory for what they say.
#[derive(Clone, Copy, Debug, PartialEq)]
pub enum FieldFault {
    /// They do not begin as each such text does.
    NotHead,
    /// They are of another version of the format.
    Version(u16),
    /// A field has a value that it cannot have, or a byte stands behind the end. The place is the field's first byte.
    BadField(usize),
    /// The bytes end before a field does.
    Truncated,
    /// Memory ran out.
    OutOfMemory,
}

impl From<AllocError> for FieldFault {
    ghost from_gives = { λ _ e. e ≡ faults.OutOfMemory };

    fn from(_e: AllocError) -> FieldFault {
        FieldFault::OutOfMemory
    }
}

impl<T: Drop> From<AllocFailed<T>> for FieldFault {
    ghost from_gives = { λ _ e. e ≡ faults.OutOfMemory };

    fn from(_e: AllocFailed<T>) -> FieldFault {
        FieldFault::OutOfMemory
    }
}
