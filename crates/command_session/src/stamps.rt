ghost use Rattle.std.specs.Prelude.{◌≡◌, ◌<◌};

use crate::session::Session;
use file_commands::Stamp;
use unit_trait::Unit;

/// What stands on the notes of the command that is done.
pub fn stamp_of<U: Unit>(session: &Session<U>) -> Stamp
    ensures { result ≡ record { command = session.now.command; time = session.now.machine.time } }
{
    Stamp {
        command: session.command,
        time: session.machine.time(),
    }
}
