ghost use Rattle.std.specs.Prelude.{◌≡◌};
ghost use Rattle.file_commands.specs.Kept.{fault_note};

use crate::{FaultNote, Subject};
use unit_files::UnitFault;

/// What stands on each note of a command.
#[derive(Clone, Copy, Debug, PartialEq, Eq)]
pub struct Stamp {
    /// How many units of the budget were spent, those of the command included.
    pub command: u64,
    /// The machine's time, in instructions.
    pub time: u64,
}

/// The note of a failed call on the file of a unit.
pub fn note_of(fault: UnitFault, stamp: Stamp) -> FaultNote
    ensures { result ≡ fault_note stamp fault }
{
    FaultNote {
        command: stamp.command,
        time: stamp.time,
        subject: Subject::Unit(fault.unit),
        file: fault.file,
        call: fault.call,
        done: fault.done,
    }
}
