// Sessions that are put back into a new machine of the standard units, and taken again.
ghost use Rattle.std.specs.Prelude.{◌≡◌, map};
ghost use Rattle.unit_files.specs.Buffer.{nothing_attached};
ghost use Rattle.unit_files.specs.Open.{AllOpen};
ghost use Rattle.nova_machine.specs.Machine.{attached_files};
ghost use Rattle.command_words.specs.Standard.{IsStandard};
ghost use Rattle.saved_session.specs.Parts.{state_in};
ghost use Rattle.state_transfer.specs.SavedValid.{AreStandard};
ghost use Rattle.saved_session.specs.Valid.{Valid};

use crate::checked::check;
use crate::states::attaching::{
    FILES, Row, add_bytes, answer_of, files_of, row_of, stand, state_text,
};
use crate::states::same::same;
use crate::states::texts::{BUSY, bytes_of, equal};
use crate::units::standard_units;
use expect_actions::Watch;
use host_files::Files;
use host_lines::{Lines, MemLines};
use nova_machine::Machine;
use state_file::{Saved, read_state, set_state, take_state};
use std::alloc::{AllocError, Global};
use std::process::Abort;
use std::test::Fail;
use unit_trait::Unit;

// What is tried, the files that are there, the calls that fail, counted from 0, and F where it is forced; the answer.
const SETS: &str = "all as they were | disk=sector reel= in=hello |  | ok
one byte of the reader's file | disk=sector reel= in=hellO |  | Changed=PTR
the same, forced | disk=sector reel= in=hellO | F | ok
the opening of the drive's file | disk=sector reel= in=hello | 5 | Failed=MTA7:Opening:";

/// Plays a row on a new machine with new units.
fn plays(rt: &impl Abort, alloc: Global, saved: &Saved, row: Row<'_>) -> Result<(), AllocError>
    requires { Valid (state_in saved.now) }
{
    let units = standard_units(alloc)?;
    plays_on(rt, alloc, units, saved, row)
}

fn plays_on<U: Unit>(
    rt: &impl Abort,
    alloc: Global,
    units: Vec<U>,
    saved: &Saved,
    row: Row<'_>,
) -> Result<(), AllocError>
    requires units { IsStandard (map U.unit_state units.items) }
    requires valid { Valid (state_in saved.now) }
{
    let mut machine = Machine::new(alloc, units)?;
    with_machine(rt, alloc, &mut machine, saved, row)
}

fn with_machine<U: Unit>(
    rt: &impl Abort,
    alloc: Global,
    machine: &mut Machine<U>,
    saved: &Saved,
    row: Row<'_>,
) -> Result<(), AllocError>
    requires valid { Valid (state_in saved.now) }
    requires standard { AreStandard machine.old.units }
    requires nothing { attached_files machine.old ≡ nothing_attached }
{
    let mut lines = MemLines::with_room(alloc, 0)?;
    match files_of(alloc, row.names, row.fails) {
        Some(mut files) => with_files(rt, alloc, machine, &mut files, &mut lines, saved, row),
        None => Err(AllocError),
    }
}

fn with_files<U: Unit, F: Files, L: Lines>(
    rt: &impl Abort,
    alloc: Global,
    machine: &mut Machine<U>,
    files: &mut F,
    lines: &mut L,
    saved: &Saved,
    row: Row<'_>,
) -> Result<(), AllocError>
    requires valid { Valid (state_in saved.now) }
    requires standard { AreStandard machine.old.units }
    requires nothing { attached_files machine.old ≡ nothing_attached }
{
    let mut watch = Watch::new(alloc)?;
    with_watch(rt, alloc, machine, &mut watch, files, lines, saved, row);
    Ok(())
}

/// The answer is that of the row; and what is taken behind that is what was put back.
fn with_watch<U: Unit, F: Files, L: Lines>(
    rt: &impl Abort,
    alloc: Global,
    machine: &mut Machine<U>,
    watch: &mut Watch,
    files: &mut F,
    lines: &mut L,
    saved: &Saved,
    row: Row<'_>,
)
    requires valid { Valid (state_in saved.now) }
    requires standard { AreStandard machine.old.units }
    requires nothing { attached_files machine.old ≡ nothing_attached }
{
    let answer = set_state(alloc, saved, row.force, machine, watch, files, lines);
    equal(rt, &answer, &answer_of(row.answer), row.line);
    stand(rt, machine.attached_mut(), answer.is_ok(), row.line);
    if answer.is_ok() && !row.force {
        is_taken_again(rt, alloc, machine, watch, files, saved, row.line);
    }
}

fn is_taken_again<U: Unit, F: Files>(
    rt: &impl Abort,
    alloc: Global,
    machine: &mut Machine<U>,
    watch: &Watch,
    files: &mut F,
    saved: &Saved,
    line: &str,
)
    requires standard { AreStandard machine.old.units }
    requires open { AllOpen machine.old.slots (F.state files.old).opened }
{
    match take_state(alloc, machine, watch, files) {
        Ok(found) => check(rt, same(&found, saved), line),
        Err(_) => check(rt, false, line),
    }
}

fn plays_all(rt: &impl Abort, alloc: Global, text: &[u8]) -> Result<(), AllocError> {
    match read_state(alloc, text) {
        Ok(saved) => {
            for line in SETS.split('\n') {
                plays(rt, alloc, &saved, row_of(line))?;
            }
        }
        Err(_) => check(rt, false, "the state is read"),
    }
    Ok(())
}

/// How the files of the busy state begin, and its port, which stands behind them.
const BUSY_FILES: &str = " 05 00 00 01 0008 6469736B2E696D67";

const BUSY_PORT: &str = " 0913 ";

/// The digest of the busy state with the three files, from another program.
const BUSY_DIGEST: &str = "9F1B1A42197B38F2FEEC21605F5B6D404EB848AAA1EDBBC857141CF97C8A8DC2";

/// The busy state with the three files in place of its own.
fn busy_text(alloc: Global) -> Result<Vec<u8>, AllocError> {
    let (front, behind) = BUSY.split_once(BUSY_FILES).unwrap_or((BUSY, ""));
    let (_, behind) = behind.split_once(BUSY_PORT).unwrap_or((behind, ""));
    let mut text = bytes_of(alloc, front)?;
    add_bytes(alloc, &mut text, FILES)?;
    add_bytes(alloc, &mut text, BUSY_PORT)?;
    add_bytes(alloc, &mut text, behind)?;
    add_bytes(alloc, &mut text, BUSY_DIGEST)?;
    Ok(text)
}

#[test]
fn what_is_put_back_is_taken_again(rt: HostRuntime) -> Result<(), Fail> {
    let text = state_text(rt.alloc())?;
    plays_all(&rt, rt.alloc(), &text)?;
    let text = busy_text(rt.alloc())?;
    plays_all(&rt, rt.alloc(), &text)?;
    Ok(())
}
