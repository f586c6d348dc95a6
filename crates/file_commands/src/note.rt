use file_traits::{FileCall, FileId};
use unit_trait::UnitName;

/// For whom a file is read or written.
#[derive(Clone, Copy, Debug, PartialEq, Eq)]
pub enum Subject {
    /// A unit, whose file it is.
    Unit(UnitName),
    /// The script of the command line, or one that DO reads.
    Script,
    /// The keys file.
    Keys,
    /// A state file, which SAVE writes and RESTORE reads.
    State,
    /// A tape that LOAD reads.
    Load,
    /// A tape that DUMP writes.
    Dump,
}

/// A call on a file that failed.
#[derive(Clone, Copy, Debug, PartialEq, Eq)]
pub struct FaultNote {
    /// How many units of the budget were spent, those of the command included; 0 before the first.
    pub command: u64,
    /// The machine's time, in instructions; 0 before there is a machine.
    pub time: u64,
    pub subject: Subject,
    /// The open file; none where it was to be opened.
    pub file: Option<FileId>,
    pub call: FileCall,
    /// How many bytes a write had written.
    pub done: u64,
}
