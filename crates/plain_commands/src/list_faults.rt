ghost use Rattle.std.specs.Prelude.{◌≡◌};
ghost use Rattle.plain_commands.specs.ListFaults.{list_fault};

use command_session::CommandFault;
use scp_examine::ExamineFault;

/// The fault of a list.
pub fn fault_of_list(fault: ExamineFault) -> CommandFault
    ensures { result ≡ list_fault fault }
{
    match fault {
        ExamineFault::NoSuchName => CommandFault::NoSuchName,
        ExamineFault::OutOfRange => CommandFault::OutOfRange,
        ExamineFault::ReadOnlyName => CommandFault::ReadOnlyName,
        ExamineFault::Console => CommandFault::Console,
    }
}
