use unit_files::UnitFault;
use unit_trait::UnitName;

/// Why a saved session was not put back. The units have the files that they had, which are none.
#[derive(Clone, Copy, Debug, PartialEq)]
pub enum RestoreFault {
    /// The session has a unit that the machine lacks. Nothing was asked of any file.
    MissingUnit,
    /// The file of a unit is not there.
    NoFile(UnitName),
    /// The file of a unit is longer than the unit takes.
    TooLong(UnitName),
    /// The file of a unit is not as it was: it has another length, or its bytes have another digest.
    Changed(UnitName),
    /// A call on the file of a unit failed.
    Failed(UnitFault),
    /// A port of the session's lines is not to be had.
    Port,
    OutOfMemory,
}

/// Why a session was not saved.
#[derive(Clone, Copy, Debug, PartialEq)]
pub enum SaveFault {
    /// A call on the file of a unit failed.
    Failed(UnitFault),
    OutOfMemory,
}
