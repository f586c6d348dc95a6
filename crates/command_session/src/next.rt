ghost use Rattle.std.specs.Prelude.{◌≡◌};
ghost use Rattle.command_session.specs.Doing.{told_or_console};

use crate::do_file::DoFile;
use crate::fault::CommandFault;
use file_traits::Failed;
use nova_machine::Stop;

/// What comes behind a command that was done.
#[derive(Drop)]
pub enum Next {
    /// The next line.
    Go,
    /// The next line, behind a run that ended so. It is never `ConsoleFault`: that is the answer `Console`.
    Ran(Stop),
    /// The lines of a script, which was read whole.
    Do(DoFile),
    /// The line of a label: who asked for the command finds it.
    Goto,
    /// The end of the session, with that status, from 0 to 99.
    Exit(u8),
}

/// What a command answers that prints a text and then has that to say.
pub fn told_or_console(printed: Result<(), Failed>, next: Next) -> Result<Next, CommandFault>
    ensures { result ≡ told_or_console printed next }
{
    match printed {
        Ok(()) => Ok(next),
        Err(Failed) => Err(CommandFault::Console),
    }
}
