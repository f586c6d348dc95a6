ghost use Rattle.std.specs.Prelude.{map};
ghost use Rattle.command_words.specs.Standard.{IsStandard};

use crate::checked::check;
use crate::rows::all;
use crate::sessions::Watched::Nothing;
use crate::sessions::{opened, play_bare};
use crate::units::standard_units;
use host_files::MemFiles;
use std::alloc::{AllocError, Global};
use std::process::Abort;
use std::test::Fail;
use unit_trait::Unit;

/// The rows have lines of their own each; the second teletype's line keeps its port from one to the next.
const PORTS: &str = "SHOW TTI1|100 Go|TTI1, not attached$
DETACH TTI1|0 NotAttached|
SET TTI1 DISCONNECT|0 NotAttached|
ATTACH TTI1 0|0 OutOfRange|
ATTACH TTI1 65536|0 OutOfRange|
ATTACH TTI1 1|0 PortFailed|
SHOW TTI1|100 Go|TTI1, not attached$
ATTACH TTI1 1|0 Go|
SHOW TTI1|100 Go|TTI1, listening on port 1$
ATTACH TTI1 65535|0 AlreadyAttached|
ATTACH TTI1 0|0 AlreadyAttached|
SET TTI1 DISCONNECT|0 Go|
SHOW TTI1|25 Console|TTI1, listening on port 1
DETACH TTI1|0 Go|
ATTACH TTI1 65535|0 Go|
SHOW TTI1|100 Go|TTI1, listening on port 65535$
DETACH ALL|0 Go|
SHOW TTI1|100 Go|TTI1, not attached$
ATTACH TTI1 4000|0 Go|
EXIT 100|0 OutOfRange|
SHOW TTI1|100 Go|TTI1, listening on port 4000$
EXIT 3|0 Exit 3|
SHOW TTI1|100 Go|TTI1, not attached$";

#[test]
fn a_port_is_given_and_taken_away(rt: HostRuntime) -> Result<(), Fail> {
    play_bare(&rt, rt.alloc(), Nothing, PORTS)?;
    Ok(())
}

/// The console line has a port: no command of the second teletype speaks of it or gives it up, and nothing is restored.
const BESIDE: &str = "SHOW TTI1|100 Go|TTI1, not attached$
DETACH TTI1|0 NotAttached|
SET TTI1 DISCONNECT|0 NotAttached|
DETACH ALL|0 Go|
RESTORE s|0 AlreadyAttached|
EXIT 3|0 Exit 3|";

fn plays_beside<U: Unit>(rt: &impl Abort, alloc: Global, units: Vec<U>) -> Result<(), AllocError>
    requires { IsStandard (map U.unit_state units.items) }
{
    let mut files = MemFiles::with_room(alloc, 0)?;
    let mut session = opened(alloc, units)?;
    session.machine.console().set_port(Some(4000));
    all(rt, alloc, &mut session, &mut files, BESIDE)?;
    let port = session.machine.console_at().port();
    check(rt, port == Some(4000), "the port of the console line");
    Ok(())
}

#[test]
fn the_console_line_keeps_its_port(rt: HostRuntime) -> Result<(), Fail> {
    let units = standard_units(rt.alloc())?;
    plays_beside(&rt, rt.alloc(), units)?;
    Ok(())
}
