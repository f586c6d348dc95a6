// LOAD.
ghost use Rattle.std.specs.Prelude.{◌≡◌, ◌≤◌, ℕ, Bool, List, false, Some, IsTrue, Err};
ghost use Rattle.file_traits.specs.State.{Opened};
ghost use Rattle.unit_list.specs.Bus.{kinds_of};
ghost use Rattle.unit_files.specs.Open.{AllOpen, Around};
ghost use Rattle.file_commands.specs.declared.note.Subject.TheVariants.{Load as of_load};
ghost use Rattle.file_commands.specs.OwnFiles.{AreOwn};
ghost use Rattle.file_commands.specs.Notes.{notes_said};
ghost use Rattle.host_lines.specs.Traffic.{Answer as LineAnswer};
ghost use Rattle.host_lines.specs.State.{LineState};
ghost use Rattle.nova_machine.specs.Machine.{attached_files};
ghost use Rattle.nova_machine.specs.Comes.{Output};
ghost use Rattle.command_session.specs.declared.fault.CommandFault.TheVariants.{OutOfMemory};
ghost use Rattle.command_session.specs.Live.{live_in, beyond};
ghost use Rattle.command_session.specs.RunEffects.{starting_at};
ghost use Rattle.command_session.specs.WholeCalls.{whole_answer};
ghost use Rattle.command_session.specs.Refusals.{UnreadCause};
ghost use Rattle.command_session.specs.TapeEffects.{tape_in, tape_answer, tape_machine, read_machine, load_reply};
ghost use Rattle.command_session.specs.Answers.{OfLoad};
ghost use Rattle.command_session.specs.FileWorks.{LoadWorks};
ghost use Rattle.command_session.specs.Doing.{Did, KeepsOwn, IsUndone, IsOwn, IsExitAnswer, IsRefused};

use binary_load::load;
use command_session::{CommandFault, Next, Session, note_reading, stamp_of};
use file_commands::Subject;
use file_traits::Files;
use nova_machine::{CpuReg, Machine};
use nova_word::Addr;
use std::alloc::Global;
use unit_trait::Unit;
use whole_files::{WholeFault, read_file};

/// LOAD reads the loader tape of a name whole, closes it again, and stores its words. PC becomes its start, where it
/// has one. It prints nothing, and no file changes.
///
/// `NoFile` comes where there is no such file, `FileTooLong` where it is longer than 1048576 bytes, `FileFailed` where
/// its opening, its length or a read failed, `OutOfMemory` where there is no memory for it, and `LoadTruncated`,
/// `LoadSum` and `PastMemory` where the tape has a fault; the machine has not changed then. Each call that failed is
/// noted, the closing too.
pub fn load_file<U: Unit, F: Files>(
    alloc: Global,
    session: &mut Session<U>,
    name: &str,
    files: &mut F,
) -> Result<Next, CommandFault>
    requires room { 16 ≤ session.old.spare }
    requires open { AllOpen session.old.machine.slots (F.state files.old).opened }
    ensures refused { IsRefused result
        → (session.new.machine ≡ session.old.machine) × (session.new.watch ≡ session.old.watch) }
    ensures told { (lines : LineState) (whole : List LineAnswer) (tells : Bool) (text : Output) → IsTrue F.tells
        → Did (λ notes. load_reply notes (live_in session.old (beyond (F.state files.old).files lines whole)) name.now)
        session.old.command result (live_in session.new (beyond (F.state files.new).files lines whole)) tells text text
        (notes_said session.old.notes) (notes_said session.new.notes) }
    ensures undone { (text : List ℕ) → result ≡ Err OutOfMemory
        → IsUndone false (Some of_load) F.tells session.old session.new text text (F.state files.old)
        (F.state files.new) }
    ensures keeps { KeepsOwn session.old.command session.new.machine.time F.tells result session.old.notes
        session.new.notes (F.state files.old) (F.state files.new) }
    ensures whose { AreOwn session.old.machine.slots session.new.machine.slots session.old.notes session.new.notes
        (F.state files.old) (F.state files.new) }
    ensures whole { UnreadCause F.tells name.now result (F.state files.old) (F.state files.new) }
    ensures answers { OfLoad result }
    ensures works { LoadWorks result session.old.machine session.new.machine (F.state files.old) (F.state files.new) }
    ensures attached { attached_files session.new.machine ≡ attached_files session.old.machine }
    ensures own { IsOwn result }
    ensures exit { IsExitAnswer result }
    ensures watch { session.new.watch ≡ session.old.watch }
    ensures terminals { session.new.machine.lines ≡ session.old.machine.lines }
    ensures keys { session.new.keys ≡ session.old.keys }
    ensures limit { session.new.limit ≡ session.old.limit }
    ensures command { session.new.command ≡ session.old.command }
    ensures kinds { kinds_of session.new.machine.units ≡ kinds_of session.old.machine.units }
    ensures open { AllOpen session.new.machine.slots (F.state files.new).opened }
    ensures around { (base : List Opened) → Around session.old.machine.slots base (F.state files.old).opened
        → Around session.new.machine.slots base (F.state files.new).opened }
{
    let stamp = stamp_of(session);
    let whole = read_file(alloc, name, files);
    note_reading(&mut session.notes, Subject::Load, &whole, stamp);
    load_bytes(&mut session.machine, whole.bytes)
}

// Loads a tape that was read, or answers why it was not.
fn load_bytes<U: Unit>(
    machine: &mut Machine<U>,
    bytes: Result<Vec<u8>, WholeFault>,
) -> Result<Next, CommandFault>
    ensures answer { result ≡ whole_answer of_load (λ read. tape_answer (tape_in machine.old read)) bytes }
    ensures machine { machine.new ≡ read_machine bytes machine.old }
{
    match bytes {
        Ok(bytes) => load_tape(machine, bytes.as_slice()),
        Err(fault) => Err(CommandFault::of_whole(Subject::Load, fault)),
    }
}

// Loads a tape.
fn load_tape<U: Unit>(machine: &mut Machine<U>, bytes: &[u8]) -> Result<Next, CommandFault>
    ensures answer { result ≡ tape_answer (tape_in machine.old bytes.now) }
    ensures machine { machine.new ≡ tape_machine (tape_in machine.old bytes.now) machine.old }
{
    match load(bytes, machine.memory_mut()) {
        Ok(start) => {
            set_start(machine, start.at);
            Ok(Next::Go)
        }
        Err(fault) => Err(CommandFault::of_tape(fault)),
    }
}

// Sets PC to a start, where there is one.
fn set_start<U: Unit>(machine: &mut Machine<U>, start: Option<Addr>)
    ensures { machine.new ≡ starting_at start machine.old }
{
    match start {
        None => (),
        Some(at) => {
            let _fits = machine.set_cpu_reg(CpuReg::Pc, u32::from(at.number()));
        }
    }
}
