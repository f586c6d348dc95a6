// DUMP.
ghost use Rattle.std.specs.Prelude.{length, ◌≡◌, ◌≢◌, ◌≤◌, ◌<◌, ◌^◌, ℕ, Bool, true, List, false, None, IsTrue, Err};
ghost use Rattle.file_traits.specs.State.{Opened};
ghost use Rattle.unit_list.specs.Bus.{kinds_of};
ghost use Rattle.unit_files.specs.Open.{AllOpen, Around};
ghost use Rattle.file_commands.specs.declared.note.Subject.TheVariants.{Dump as of_dump};
ghost use Rattle.file_commands.specs.OwnFiles.{AreOwn};
ghost use Rattle.file_commands.specs.Notes.{notes_said};
ghost use Rattle.whole_files.specs.Writing.{write_act};
ghost use Rattle.host_lines.specs.Traffic.{Answer as LineAnswer};
ghost use Rattle.host_lines.specs.State.{LineState};
ghost use Rattle.nova_machine.specs.Comes.{Output};
ghost use Rattle.command_session.specs.declared.fault.CommandFault.TheVariants.{OutOfMemory};
ghost use Rattle.command_session.specs.Live.{live_in, beyond};
ghost use Rattle.command_session.specs.WholeCalls.{write_calls};
ghost use Rattle.command_session.specs.TapeEffects.{can_dump, dump_after, dump_reply};
ghost use Rattle.scp_parser.specs.Command.{Dump};
ghost use Rattle.command_session.specs.Refusals.{IsUnrefused};
ghost use Rattle.command_session.specs.Answers.{IsByTables, OfDump, out_of_range};
ghost use Rattle.command_session.specs.Doing.{Did, KeepsOwn, IsUndone, IsOwn, IsExitAnswer, IsRefused};

use binary_load::dump;
use command_session::{CommandFault, Next, Session, note_writing, stamp_of, written_answer};
use file_commands::Subject;
use file_traits::Files;
use nova_machine::Machine;
use nova_word::{Addr, Word};
use std::alloc::Global;
use unit_trait::Unit;
use whole_files::write_file;

/// DUMP makes the file of a name, or empties it, writes the words from one address up to another as a loader tape that
/// starts at PC, and closes it again. It prints nothing.
///
/// `OutOfRange` comes where the second address is below the first one, or the memory does not have it; `OutOfMemory`
/// where there is no memory for the tape or the opening; `NoFile` where the file can't be made. No file has changed
/// then. `FileFailed` comes where the opening or the write failed: behind a write the file has its first bytes and no
/// others. Each call that failed is noted, the closing too.
#[tactic(auto, unfolding(command_session::specs::TapeEffects::dump_reply))]
pub fn dump_file<U: Unit, F: Files>(
    alloc: Global,
    session: &mut Session<U>,
    from: u64,
    to: u64,
    name: &str,
    files: &mut F,
) -> Result<Next, CommandFault>
    requires room { 16 ≤ session.old.spare }
    requires open { AllOpen session.old.machine.slots (F.state files.old).opened }
    ensures refused { IsRefused result
        → (session.new.machine ≡ session.old.machine) × (session.new.watch ≡ session.old.watch) }
    ensures told { (lines : LineState) (whole : List LineAnswer) (tells : Bool) (text : Output) → IsTrue F.tells
        → Did (λ notes. dump_reply notes (live_in session.old (beyond (F.state files.old).files lines whole))
        from to name.now) session.old.command result
        (live_in session.new (beyond (F.state files.new).files lines whole)) tells text text
        (notes_said session.old.notes) (notes_said session.new.notes) }
    ensures undone { (text : List ℕ) → result ≡ Err OutOfMemory
        → IsUndone false None true session.old session.new text text (F.state files.old) (F.state files.new) }
    ensures unrefused { result ≡ Err OutOfMemory
        → IsUnrefused (Dump from to name.now) session.old.machine session.old.watch }
    ensures keeps { KeepsOwn session.old.command session.new.machine.time F.tells result session.old.notes
        session.new.notes (F.state files.old) (F.state files.new) }
    ensures whose { AreOwn session.old.machine.slots session.new.machine.slots session.old.notes session.new.notes
        (F.state files.old) (F.state files.new) }
    ensures tables { result ≢ Err OutOfMemory → IsByTables (out_of_range (can_dump session.old.machine from to)) result }
    ensures answers { OfDump result }
    ensures machine { session.new.machine ≡ session.old.machine }
    ensures own { IsOwn result }
    ensures exit { IsExitAnswer result }
    ensures watch { session.new.watch ≡ session.old.watch }
    ensures terminals { session.new.machine.lines ≡ session.old.machine.lines }
    ensures keys { session.new.keys ≡ session.old.keys }
    ensures limit { session.new.limit ≡ session.old.limit }
    ensures command { session.new.command ≡ session.old.command }
    ensures kinds { kinds_of session.new.machine.units ≡ kinds_of session.old.machine.units }
    ensures open { AllOpen session.new.machine.slots (F.state files.new).opened }
    ensures around { (base : List Opened) → Around session.old.machine.slots base (F.state files.old).opened
        → Around session.new.machine.slots base (F.state files.new).opened }
{
    if !can_dump(&session.machine, from, to) {
        return Err(CommandFault::OutOfRange);
    }
    let first = address(from);
    let last = address(to);
    let start = session.machine.pc();
    match dump(alloc, session.machine.memory(), first, last, start) {
        Ok(tape) => write_tape(alloc, session, name, tape.as_slice(), files),
        Err(_) => Err(CommandFault::OutOfMemory),
    }
}

// Whether the memory has the words from one address up to another.
fn can_dump<U: Unit>(machine: &Machine<U>, from: u64, to: u64) -> bool
    ensures test { result ≡ can_dump machine.now from to }
    ensures ordered { IsTrue result → from ≤ to }
    ensures within { IsTrue result → to < machine.now.processor.memory.size }
    ensures addresses { IsTrue result → to < 2 ^ 15 }
{
    from <= to && to < u64::from(machine.memory().size())
}

// The address of a number that is one.
fn address(number: u64) -> Addr
    requires { number < 2 ^ 15 }
    ensures { result ≡ number }
{
    Addr::of_word(Word(number as u16))
}

// Writes a tape as the file of a name.
fn write_tape<U: Unit, F: Files>(
    alloc: Global,
    session: &mut Session<U>,
    name: &str,
    tape: &[u8],
    files: &mut F,
) -> Result<Next, CommandFault>
    requires room { 16 ≤ session.old.spare }
    requires size { length tape.now ≤ 77830 }
    requires open { AllOpen session.old.machine.slots (F.state files.old).opened }
    ensures refused { IsRefused result
        → (session.new.machine ≡ session.old.machine) × (session.new.watch ≡ session.old.watch) }
    ensures told { (lines : LineState) (whole : List LineAnswer) (tells : Bool) (text : Output) → IsTrue F.tells
        → Did (λ notes. dump_after (write_act (write_calls of_dump session.old.machine.time notes) name.now tape.now
        (F.state files.old).files) (live_in session.old (beyond (F.state files.old).files lines whole)))
        session.old.command result (live_in session.new (beyond (F.state files.new).files lines whole)) tells text text
        (notes_said session.old.notes) (notes_said session.new.notes) }
    ensures undone { (text : List ℕ) → result ≡ Err OutOfMemory
        → IsUndone false None true session.old session.new text text (F.state files.old) (F.state files.new) }
    ensures keeps { KeepsOwn session.old.command session.new.machine.time F.tells result session.old.notes
        session.new.notes (F.state files.old) (F.state files.new) }
    ensures whose { AreOwn session.old.machine.slots session.new.machine.slots session.old.notes session.new.notes
        (F.state files.old) (F.state files.new) }
    ensures tables { IsByTables None result }
    ensures answers { OfDump result }
    ensures machine { session.new.machine ≡ session.old.machine }
    ensures own { IsOwn result }
    ensures exit { IsExitAnswer result }
    ensures watch { session.new.watch ≡ session.old.watch }
    ensures terminals { session.new.machine.lines ≡ session.old.machine.lines }
    ensures keys { session.new.keys ≡ session.old.keys }
    ensures limit { session.new.limit ≡ session.old.limit }
    ensures command { session.new.command ≡ session.old.command }
    ensures kinds { kinds_of session.new.machine.units ≡ kinds_of session.old.machine.units }
    ensures open { AllOpen session.new.machine.slots (F.state files.new).opened }
    ensures around { (base : List Opened) → Around session.old.machine.slots base (F.state files.old).opened
        → Around session.new.machine.slots base (F.state files.new).opened }
{
    let stamp = stamp_of(session);
    let written = write_file(alloc, name, tape, files);
    note_writing(&mut session.notes, Subject::Dump, written, stamp);
    written_answer(Subject::Dump, written.answer)
}
