// Sessions that are put back from state files which they have not saved.
ghost use Rattle.std.specs.Prelude.{map};
ghost use Rattle.command_words.specs.Standard.{IsStandard};

use crate::checked::check;
use crate::rows::all;
use crate::sessions::opened;
use crate::states::attaching::add_bytes;
use crate::states::texts::{
    FIRST, FIRST_DIGEST, FIRST1, FIRST1_DIGEST, FULL, FULL_DIGEST, both_of, bytes_of,
};
use crate::units::standard_units;
use host_files::MemFiles;
use std::alloc::{AllocError, Global};
use std::process::Abort;
use std::test::Fail;
use unit_trait::Unit;

fn plays<U: Unit>(
    rt: &impl Abort,
    alloc: Global,
    units: Vec<U>,
    files: &mut MemFiles,
    table: &str,
) -> Result<(), AllocError>
    requires { IsStandard (map U.unit_state units.items) }
{
    let mut session = opened(alloc, units)?;
    all(rt, alloc, &mut session, files, table)?;
    Ok(())
}

/// Plays a table in a new session over the file `s`, which has these bytes, and compares what it has saved as `s2`, if
/// it has.
fn plays_over(
    rt: &impl Abort,
    alloc: Global,
    state: &[u8],
    table: &str,
    again: Option<&[u8]>,
) -> Result<(), AllocError> {
    let mut files = MemFiles::with_room(alloc, 70000)?;
    check(rt, files.add_file("s", state).is_ok(), "the state file");
    let units = standard_units(alloc)?;
    plays(rt, alloc, units, &mut files, table)?;
    check(rt, files.file_bytes("s2") == again, "what is saved again");
    Ok(())
}

/// A session that was saved in the first version has the rule that this had, and is saved in the second.
const FROM_THE_FIRST: &str = "RESTORE s|0 Go|
SHOW CPU|100 Go|CPU, 32K$
SAVE s2|0 Go|";

#[test]
fn a_state_of_the_first_version_is_put_back(rt: HostRuntime) -> Result<(), Fail> {
    let state = both_of(rt.alloc(), FIRST1, FIRST1_DIGEST)?;
    let again = both_of(rt.alloc(), FIRST, FIRST_DIGEST)?;
    plays_over(
        &rt,
        rt.alloc(),
        &state,
        FROM_THE_FIRST,
        Some(again.as_slice()),
    )?;
    Ok(())
}

/// What the first state has behind its events, and that where the console line has the port 4000.
const NO_PORT: &str = "00 0000 0000 0000 0000 00 00 0000";

const CONSOLE_PORT: &str = "00 0000 0000 0FA0 0000 00 00 0000";

/// The digest of the first state with that port, from another program.
const PORT_DIGEST: &str = "FA7B08788C41688FC414F172534449DBD6BFAB5CD70586AE51FD09B2121C3713";

/// The first state with a port for the console line.
fn ported(alloc: Global) -> Result<Vec<u8>, AllocError> {
    let front = FIRST.strip_suffix(NO_PORT).unwrap_or("");
    let mut text = bytes_of(alloc, front)?;
    add_bytes(alloc, &mut text, CONSOLE_PORT)?;
    add_bytes(alloc, &mut text, PORT_DIGEST)?;
    Ok(text)
}

/// The console line gets its port by RESTORE. No other line can have it then, DETACH ALL leaves it, nothing is restored
/// beside it, and SAVE keeps it.
const WITH_A_PORT: &str = "RESTORE s|0 Go|
SHOW TTI1|100 Go|TTI1, not attached$
ATTACH TTI1 0|0 OutOfRange|
ATTACH TTI1 4000|0 PortTaken|
ATTACH TTI1 4001|0 Go|
ATTACH TTI1 4000|0 AlreadyAttached|
DETACH ALL|0 Go|
SHOW TTI1|100 Go|TTI1, not attached$
RESTORE s|0 AlreadyAttached|
RESTORE -F none|0 AlreadyAttached|
ATTACH TTI1 4000|0 PortTaken|
SAVE s2|0 Go|";

#[test]
fn the_console_line_gets_its_port_by_a_restore(rt: HostRuntime) -> Result<(), Fail> {
    let state = ported(rt.alloc())?;
    plays_over(&rt, rt.alloc(), &state, WITH_A_PORT, Some(state.as_slice()))?;
    Ok(())
}

/// The machine has no multiplexer: nothing is put back, and no file is looked for.
const WITH_A_UNIT_MORE: &str = "RESTORE s|0 MissingUnit|
RESTORE -F s|0 MissingUnit|
E 0|100 Go|00000:\t000000$
SHOW CPU|100 Go|CPU, 32K$
SHOW DSK|100 Go|DSK, not attached$
SHOW TTI1|100 Go|TTI1, not attached$
SHOW BREAK|0 Go|";

#[test]
fn a_state_of_a_machine_with_a_unit_more_is_refused(rt: HostRuntime) -> Result<(), Fail> {
    let state = both_of(rt.alloc(), FULL, FULL_DIGEST)?;
    plays_over(&rt, rt.alloc(), &state, WITH_A_UNIT_MORE, None)?;
    Ok(())
}
