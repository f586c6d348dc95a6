// A session of a machine with the standard units, whose second teletype has a terminal line.
ghost use Rattle.std.specs.Prelude.{List, IfOk, map};
ghost use Rattle.file_traits.specs.State.{Opened};
ghost use Rattle.unit_files.specs.Open.{AllOpen};
ghost use Rattle.command_words.specs.Standard.{IsStandard};
ghost use Rattle.state_transfer.specs.SavedValid.{AreStandard};

use crate::checked::check;
use crate::rows::all;
use crate::units::standard_units;
use expect_actions::{Breaks, Expects, Keys, Sends, Watch};
use file_commands::FaultNote;
use host_files::{FileCall, Files, MemFiles};
use nova_word::{Addr, Word};
use scp_commands::Session;
use std::alloc::{AllocError, Global};
use std::process::Abort;
use unit_trait::Unit;

/// A note: its time, its call, and how many bytes were written.
pub type Note = (u64, FileCall, u64);

/// What is watched before the first line.
#[derive(Clone, Copy)]
pub enum Watched {
    Nothing,
    /// Breaks from 0 up, as many as there can be; texts that are waited for, as many as there can be; and bytes for the
    /// keyboard, one fewer than can wait.
    All,
}

/// Plays a table in a new session over no files, which keeps no notes.
pub fn play_bare(
    rt: &impl Abort,
    alloc: Global,
    watched: Watched,
    table: &str,
) -> Result<(), AllocError> {
    let mut files = MemFiles::with_room(alloc, 0)?;
    play(rt, alloc, watched, &mut files, table, &[])
}

/// Plays a table in a new session, and compares the notes that it keeps.
pub fn play<F: Files>(
    rt: &impl Abort,
    alloc: Global,
    watched: Watched,
    files: &mut F,
    table: &str,
    notes: &[Note],
) -> Result<(), AllocError> {
    let units = standard_units(alloc)?;
    play_with(rt, alloc, units, watched, files, table, notes)
}

fn play_with<U: Unit, F: Files>(
    rt: &impl Abort,
    alloc: Global,
    units: Vec<U>,
    watched: Watched,
    files: &mut F,
    table: &str,
    notes: &[Note],
) -> Result<(), AllocError>
    requires { IsStandard (map U.unit_state units.items) }
{
    let mut session = opened(alloc, units)?;
    plays(rt, alloc, &mut session, watched, files, table, notes)
}

/// A session of a machine with these units.
pub fn opened<U: Unit>(alloc: Global, units: Vec<U>) -> Result<Session<U>, AllocError>
    requires { IsStandard (map U.unit_state units.items) }
    ensures open { IfOk result (λ s. (opened : List Opened) → AllOpen s.machine.slots opened) }
    ensures standard { IfOk result (λ s. AreStandard s.machine.units) }
{
    Session::new(alloc, units, Keys::none(alloc), 1 << 48)
}

fn plays<U: Unit, F: Files>(
    rt: &impl Abort,
    alloc: Global,
    session: &mut Session<U>,
    watched: Watched,
    files: &mut F,
    table: &str,
    notes: &[Note],
) -> Result<(), AllocError>
    requires open { AllOpen session.old.machine.slots (F.state files.old).opened }
    requires standard { AreStandard session.old.machine.units }
{
    session.command = 7;
    fill(&mut session.watch, watched);
    all(rt, alloc, session, files, table)?;
    noted(rt, session.notes.as_slice(), notes);
    Ok(())
}

fn fill(watch: &mut Watch, watched: Watched) {
    match watched {
        Watched::Nothing => (),
        Watched::All => {
            fill_breaks(&mut watch.breaks);
            fill_expects(&mut watch.expects);
            fill_sends(&mut watch.sends);
        }
    }
}

fn fill_breaks(breaks: &mut Breaks) {
    for k in 0..256u16 {
        let _ = breaks.add(Addr::of_word(Word(k)), 1, b"");
    }
}

fn fill_expects(expects: &mut Expects) {
    for _ in 0..64 {
        let _ = expects.add(1, b"x", b"");
    }
}

fn fill_sends(sends: &mut Sends) {
    const BYTES: &[u8] = b"kkkkkkkkkkkkkkkkkkkkkkkkkkkkkkkkkkkkkkkkkkkkkkkkkkkkkkkkkkkkkkkkk";
    for _ in 0..63 {
        let _ = sends.add(0, 0, 0, BYTES);
    }
}

fn noted(rt: &impl Abort, kept: &[FaultNote], notes: &[Note]) {
    check(rt, kept.len() == notes.len(), "the number of notes");
    for (kept, note) in kept.iter().zip(notes.iter()) {
        check(rt, is_note(kept, note), "a note");
    }
}

/// Whether that note was kept, for the command with the number 7.
fn is_note(kept: &FaultNote, note: &Note) -> bool {
    kept.time == note.0 && kept.call == note.1 && kept.done == note.2 && kept.command == 7
}
