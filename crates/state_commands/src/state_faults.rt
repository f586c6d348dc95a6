ghost use Rattle.std.specs.Prelude.{◌≡◌};
ghost use Rattle.state_commands.specs.StateFaults.{state_fault, save_fault, restore_fault};

use command_session::CommandFault;
use file_commands::Subject;
use saved_files::{RestoreFault, SaveFault};
use state_text::StateFault;

/// The fault of a state file.
pub fn fault_of_state(fault: StateFault) -> CommandFault
    ensures { result ≡ state_fault fault }
{
    match fault {
        StateFault::NotState => CommandFault::NotState,
        StateFault::Version(version) => CommandFault::Version(version),
        StateFault::BadDigest { kept, found } => CommandFault::BadDigest { kept, found },
        StateFault::BadField(place) => CommandFault::BadField(place),
        StateFault::Truncated => CommandFault::Truncated,
        StateFault::OutOfMemory => CommandFault::OutOfMemory,
    }
}

/// The fault of a session that was not saved.
pub fn fault_of_save(fault: SaveFault) -> CommandFault
    ensures { result ≡ save_fault fault }
{
    match fault {
        SaveFault::Failed(fault) => CommandFault::FileFailed(Subject::Unit(fault.unit)),
        SaveFault::OutOfMemory => CommandFault::OutOfMemory,
    }
}

/// The fault of a session that was not put back.
pub fn fault_of_restore(fault: RestoreFault) -> CommandFault
    ensures { result ≡ restore_fault fault }
{
    match fault {
        RestoreFault::MissingUnit => CommandFault::MissingUnit,
        RestoreFault::NoFile(_) => CommandFault::NoFile,
        RestoreFault::TooLong(_) => CommandFault::FileTooLong,
        RestoreFault::Changed(unit) => CommandFault::Changed(unit),
        RestoreFault::Failed(fault) => CommandFault::FileFailed(Subject::Unit(fault.unit)),
        RestoreFault::Port => CommandFault::PortFailed,
        RestoreFault::OutOfMemory => CommandFault::OutOfMemory,
    }
}
