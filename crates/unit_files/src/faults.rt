use file_traits::{FileCall, FileId};
use unit_trait::UnitName;

/// A call on the file of a unit that failed: none of its file where it was to be opened, and how many bytes a write had
/// written. The count of faults of that file has risen, or that of openings.
#[derive(Clone, Copy, Debug, PartialEq, Eq)]
pub struct UnitFault {
    pub unit: UnitName,
    pub file: Option<FileId>,
    pub call: FileCall,
    pub done: u64,
}

/// Why a file was not attached. The unit is as it was, and the file is closed again. It may have been made or emptied.
#[derive(Clone, Copy, Debug, PartialEq, Eq)]
pub enum AttachFault {
    /// The unit has a file.
    AlreadyAttached,
    /// The unit only writes.
    ReadOnly,
    /// The file is not there.
    NoFile,
    /// The file is longer than the unit takes.
    TooLong,
    Failed(UnitFault),
    OutOfMemory,
}

/// Why a unit was not detached, or its file not written back, or not digested. The unit keeps what it has.
#[derive(Clone, Copy, Debug, PartialEq, Eq)]
pub enum DetachFault {
    /// The unit has no file. No call was made.
    NotAttached,
    /// A write of what it holds of its file failed: the pages in front are written, and of that page as much as the
    /// fault says, which counts from the front of the file; all of them are still to be written back. Or, in a digest,
    /// the length or a read failed, once all was written back.
    Failed(UnitFault),
}

/// What came of a sector of the disk.
#[derive(Clone, Copy, Debug, PartialEq, Eq)]
pub enum SectorAnswer {
    Done,
    /// The disk has no file.
    NoFile,
    /// Its file is only read.
    ReadOnly,
}

/// What came of a byte of a unit's file.
#[derive(Clone, Copy, Debug, PartialEq, Eq)]
pub enum ByteAnswer {
    Byte(u8),
    Written,
    /// The place is at the end of the file, or past the bytes that the unit sees.
    End,
    /// The unit has no file.
    NoFile,
    Failed(UnitFault),
}
