ghost use Rattle.std.specs.Prelude.{◌≡◌, ◌≢◌, ◌≤◌, List, Ok, Err};
ghost use Rattle.file_traits.specs.State.{Opened};
ghost use Rattle.unit_list.specs.Bus.{kinds_of};
ghost use Rattle.unit_files.specs.InStep.{InStep};
ghost use Rattle.unit_files.specs.Open.{AllOpen, Around};
ghost use Rattle.file_commands.specs.OwnFiles.{AreOwn};
ghost use Rattle.file_commands.specs.Notes.{notes_said};
ghost use Rattle.nova_machine.specs.declared.machine.Stop.TheVariants.{ConsoleFault};
ghost use Rattle.host_lines.specs.Traffic.{Answer as LineAnswer};
ghost use Rattle.host_lines.specs.Told.{IsFirst, record_in};
ghost use Rattle.nova_machine.specs.Machine.{attached_files};
ghost use Rattle.nova_machine.specs.Comes.{output};
ghost use Rattle.state_transfer.specs.SavedValid.{AreStandard};
ghost use Rattle.command_session.specs.declared.next.Next.TheVariants.{Ran};
ghost use Rattle.command_session.specs.declared.fault.CommandFault.TheVariants.{OutOfMemory};
ghost use Rattle.command_session.specs.Live.{live_in, beyond};
ghost use Rattle.scp_commands.specs.Effect.{effect, IsStateless};
ghost use Rattle.command_session.specs.Nature.{nature, IsUntold};
ghost use Rattle.command_session.specs.DiskFile.{StaysWhereAlone};
ghost use Rattle.command_session.specs.LinesLeft.{LinesLeft, IsUnlistened, ListenCause};
ghost use Rattle.scp_commands.specs.LineAnswers.{LinesAnswer};
ghost use Rattle.state_commands.specs.StateAnswers.{PutsSessionBack};
ghost use Rattle.command_session.specs.Remains.{AreLeft};
ghost use Rattle.command_session.specs.Refusals.{IsUnrefused, IsMeasured};
ghost use Rattle.command_session.specs.Answers.{AnswersByTables, CanAnswer};
ghost use Rattle.scp_commands.specs.Works.{Works};
ghost use Rattle.command_session.specs.RunStops.{RunStops, run_count, is_step};
ghost use Rattle.command_session.specs.Doing.{Did, Grows, IsTold, IsRefused, ConsoleCounts, MayWant, IsUndone, says_files, IsExitAnswer, RunCause, AttachNote, KeepsAs, KeepsBy, is_restore, opens_of};

use crate::family::{Family, family_of};
use command_session::{CommandFault, Next, Session};
use file_traits::{Files, Sink};
use host_commands::obey_host;
use host_lines::Lines;
use plain_commands::obey_untold;
use run_control::obey_run;
use scp_parser::{Command, Verb};
use state_commands::{restore, save};
use std::alloc::Global;
use unit_trait::Unit;

/// Does a command, and prints what it has to say.
///
/// A command that is refused has printed nothing and changed nothing, but that ATTACH, DUMP and SAVE may have made or
/// emptied their file, DUMP and SAVE may have written a first part of it, and what the disk holds may be written back
/// by SAVE; who called prints the text of its fault. `Console` means
/// that the console refused a byte, also within a run: what comes before it was printed, and the session stands as it
/// did when that byte was to be printed. `OutOfMemory` means that nothing was done, but that SAVE may have written the
/// disk's copy back: it comes where the room for 16 notes can't be taken, and from BREAK, EXPECT, ATTACH, DO, LOAD,
/// DUMP, SAVE and RESTORE. A closing that fails then in DO, LOAD or RESTORE is noted.
///
/// The machine has the units of a standard one, with the multiplexer or without, and keeps them.
///
/// `lines` are the ports and connections of the host. Runs poll them for the machine's terminal lines; ATTACH of the
/// second teletype listens on a port, and RESTORE on those of its session, which may fail and is counted then. DETACH,
/// DETACH ALL and EXIT give up the port of the second teletype, and no other.
pub fn execute<U: Unit, F: Files, L: Lines, S: Sink>(
    alloc: Global,
    session: &mut Session<U>,
    command: &Command,
    files: &mut F,
    lines: &mut L,
    out: &mut S,
) -> Result<Next, CommandFault>
    requires standard { AreStandard session.old.machine.units }
    requires open { AllOpen session.old.machine.slots (F.state files.old).opened }
    ensures refused { IsRefused result
        → AreLeft (nature command.now).flushes session.old session.new }
    ensures told { IsTold F.tells session.old.machine.slots L.tells (L.state lines.old) session.old.machine.lines
        command.now → InStep (attached_files session.old.machine) (F.state files.old).files
        → (whole : List LineAnswer) → IsFirst (record_in (L.state lines.new).told) whole
        → Did (λ notes. effect session.old.limit notes
        (live_in session.old (beyond (F.state files.old).files (L.state lines.old) whole)) command.now)
        session.old.command result (live_in session.new (beyond (F.state files.new).files (L.state lines.new) whole))
        S.tells (output (S.written out.old) (L.state lines.old).sent) (output (S.written out.new) (L.state lines.new).sent)
        (notes_said session.old.notes) (notes_said session.new.notes) }
    ensures untold { IsUntold command.now → (whole : List LineAnswer)
        → Did (λ notes. effect session.old.limit notes
        (live_in session.old (beyond (F.state files.old).files (L.state lines.old) whole)) command.now)
        session.old.command result (live_in session.new (beyond (F.state files.new).files (L.state lines.new) whole))
        S.tells (output (S.written out.old) (L.state lines.old).sent) (output (S.written out.new) (L.state lines.new).sent)
        (notes_said session.old.notes) (notes_said session.new.notes) }
    ensures step { IsTold F.tells session.old.machine.slots L.tells (L.state lines.old) session.old.machine.lines
        command.now → StaysWhereAlone session.old session.new (F.state files.old).files (F.state files.new).files }
    ensures grows { Grows S.tells (S.written out.old) (S.written out.new) }
    ensures lines { LinesLeft L.tells (L.state lines.old) session.old.machine.lines (L.state lines.new)
        session.new.machine.lines }
    ensures unasked { IsRefused result → (IsUnlistened command.now result → ⊥) → lines.new ≡ lines.old }
    ensures listening { ListenCause L.tells command.now result (L.state lines.old) (L.state lines.new) }
    ensures line { result ≢ Err OutOfMemory → LinesAnswer L.tells command.now result (L.state lines.old)
        session.old.machine.lines (L.state lines.new) session.new.machine.lines }
    ensures back { PutsSessionBack F.tells (F.state files.old).files command.now result session.old session.new }
    ensures undone { result ≡ Err OutOfMemory → IsUndone (nature command.now).flushes (nature command.now).reads_whole
        (says_files F.tells command.now) session.old session.new (S.written out.old) (S.written out.new)
        (F.state files.old) (F.state files.new) }
    ensures want { result ≡ Err OutOfMemory → MayWant session.old.spare command.now }
    ensures unrefused { result ≡ Err OutOfMemory → 16 ≤ session.old.spare
        → IsUnrefused command.now session.old.machine session.old.watch }
    ensures measured { IsMeasured F.tells command.now result (F.state files.old) (F.state files.new) }
    ensures answers { result ≢ Err OutOfMemory
        → AnswersByTables session.old.machine command.now result × CanAnswer command.now result }
    ensures works { Works command.now result session.old session.new (F.state files.old) (F.state files.new) }
    ensures keeps { KeepsBy (is_restore command.now) (opens_of command.now) session.old.command
        session.old.machine.time session.new.machine.time F.tells result session.old.notes session.new.notes
        (F.state files.old) (F.state files.new) }
    ensures whose { AreOwn session.old.machine.slots session.new.machine.slots session.old.notes session.new.notes
        (F.state files.old) (F.state files.new) }
    ensures keys { session.new.keys ≡ session.old.keys }
    ensures limit { session.new.limit ≡ session.old.limit }
    ensures command { session.new.command ≡ session.old.command }
    ensures standard { AreStandard session.new.machine.units }
    ensures kinds { kinds_of session.new.machine.units ≡ kinds_of session.old.machine.units }
    ensures counts { ConsoleCounts result (S.fault_count out.old) (S.fault_count out.new) }
    ensures ran { RunCause result session.old.machine.slots (F.state files.old) (F.state files.new) }
    ensures stopped { RunStops (is_step command.now session.old.limit) (run_count command.now session.old.limit) result
        session.old session.new S.tells (S.written out.old) (S.written out.new) }
    ensures attach_note { AttachNote command.now result
        (record { command = session.old.command; time = session.old.machine.time }) session.old.notes session.new.notes
        (F.state files.old) (F.state files.new) }
    ensures stop { result ≢ Ok (Ran ConsoleFault) }
    ensures exit { IsExitAnswer result }
    ensures open { AllOpen session.new.machine.slots (F.state files.new).opened }
    ensures around { (base : List Opened) → Around session.old.machine.slots base (F.state files.old).opened
        → Around session.new.machine.slots base (F.state files.new).opened }
{
    match session.take_room() {
        Ok(()) => obey(alloc, session, command, files, lines, out),
        Err(_) => Err(CommandFault::OutOfMemory),
    }
}

// The same, where there is room for the notes.
#[tactic(auto, using(command_session::proofs::RemainLemmas::leaves, file_commands::proofs::OwnFiles::unused), unfolding(crate::specs::Effect::effect))]
fn obey<U: Unit, F: Files, L: Lines, S: Sink>(
    alloc: Global,
    session: &mut Session<U>,
    command: &Command,
    files: &mut F,
    lines: &mut L,
    out: &mut S,
) -> Result<Next, CommandFault>
    requires room { 16 ≤ session.old.spare }
    requires standard { AreStandard session.old.machine.units }
    requires open { AllOpen session.old.machine.slots (F.state files.old).opened }
    ensures refused { IsRefused result
        → AreLeft (nature command.now).flushes session.old session.new }
    ensures told { IsTold F.tells session.old.machine.slots L.tells (L.state lines.old) session.old.machine.lines
        command.now → InStep (attached_files session.old.machine) (F.state files.old).files
        → (whole : List LineAnswer) → IsFirst (record_in (L.state lines.new).told) whole
        → Did (λ notes. effect session.old.limit notes
        (live_in session.old (beyond (F.state files.old).files (L.state lines.old) whole)) command.now)
        session.old.command result (live_in session.new (beyond (F.state files.new).files (L.state lines.new) whole))
        S.tells (output (S.written out.old) (L.state lines.old).sent) (output (S.written out.new) (L.state lines.new).sent)
        (notes_said session.old.notes) (notes_said session.new.notes) }
    ensures untold { IsUntold command.now → (whole : List LineAnswer)
        → Did (λ notes. effect session.old.limit notes
        (live_in session.old (beyond (F.state files.old).files (L.state lines.old) whole)) command.now)
        session.old.command result (live_in session.new (beyond (F.state files.new).files (L.state lines.new) whole))
        S.tells (output (S.written out.old) (L.state lines.old).sent) (output (S.written out.new) (L.state lines.new).sent)
        (notes_said session.old.notes) (notes_said session.new.notes) }
    ensures step { IsTold F.tells session.old.machine.slots L.tells (L.state lines.old) session.old.machine.lines
        command.now → StaysWhereAlone session.old session.new (F.state files.old).files (F.state files.new).files }
    ensures grows { Grows S.tells (S.written out.old) (S.written out.new) }
    ensures lines { LinesLeft L.tells (L.state lines.old) session.old.machine.lines (L.state lines.new)
        session.new.machine.lines }
    ensures unasked { IsRefused result → (IsUnlistened command.now result → ⊥) → lines.new ≡ lines.old }
    ensures listening { ListenCause L.tells command.now result (L.state lines.old) (L.state lines.new) }
    ensures line { result ≢ Err OutOfMemory → LinesAnswer L.tells command.now result (L.state lines.old)
        session.old.machine.lines (L.state lines.new) session.new.machine.lines }
    ensures back { PutsSessionBack F.tells (F.state files.old).files command.now result session.old session.new }
    ensures undone { result ≡ Err OutOfMemory → IsUndone (nature command.now).flushes (nature command.now).reads_whole
        (says_files F.tells command.now) session.old session.new (S.written out.old) (S.written out.new)
        (F.state files.old) (F.state files.new) }
    ensures want { result ≡ Err OutOfMemory → MayWant 16 command.now }
    ensures unrefused { result ≡ Err OutOfMemory
        → IsUnrefused command.now session.old.machine session.old.watch }
    ensures measured { IsMeasured F.tells command.now result (F.state files.old) (F.state files.new) }
    ensures tables { result ≢ Err OutOfMemory → AnswersByTables session.old.machine command.now result }
    ensures answers { CanAnswer command.now result }
    ensures works { Works command.now result session.old session.new (F.state files.old) (F.state files.new) }
    ensures keeps { KeepsBy (is_restore command.now) (opens_of command.now) session.old.command
        session.old.machine.time session.new.machine.time F.tells result session.old.notes session.new.notes
        (F.state files.old) (F.state files.new) }
    ensures whose { AreOwn session.old.machine.slots session.new.machine.slots session.old.notes session.new.notes
        (F.state files.old) (F.state files.new) }
    ensures keys { session.new.keys ≡ session.old.keys }
    ensures limit { session.new.limit ≡ session.old.limit }
    ensures command { session.new.command ≡ session.old.command }
    ensures kinds { kinds_of session.new.machine.units ≡ kinds_of session.old.machine.units }
    ensures counts { ConsoleCounts result (S.fault_count out.old) (S.fault_count out.new) }
    ensures ran { RunCause result session.old.machine.slots (F.state files.old) (F.state files.new) }
    ensures stopped { RunStops (is_step command.now session.old.limit) (run_count command.now session.old.limit) result
        session.old session.new S.tells (S.written out.old) (S.written out.new) }
    ensures attach_note { AttachNote command.now result
        (record { command = session.old.command; time = session.old.machine.time }) session.old.notes session.new.notes
        (F.state files.old) (F.state files.new) }
    ensures stop { result ≢ Ok (Ran ConsoleFault) }
    ensures exit { IsExitAnswer result }
    ensures open { AllOpen session.new.machine.slots (F.state files.new).opened }
    ensures around { (base : List Opened) → Around session.old.machine.slots base (F.state files.old).opened
        → Around session.new.machine.slots base (F.state files.new).opened }
{
    match &command.verb {
        Verb::Save(_) => save(alloc, session, command.file_name(), files),
        Verb::Restore { force, .. } => {
            restore(alloc, session, *force, command.file_name(), files, lines)
        }
        _ => obey_stateless(alloc, session, command, files, lines, out),
    }
}

// The same of all commands but SAVE and RESTORE.
#[tactic(auto, using(command_session::proofs::RemainLemmas::leaves, file_commands::proofs::OwnFiles::unused), unfolding(crate::specs::Effect::effect))]
fn obey_stateless<U: Unit, F: Files, L: Lines, S: Sink>(
    alloc: Global,
    session: &mut Session<U>,
    command: &Command,
    files: &mut F,
    lines: &mut L,
    out: &mut S,
) -> Result<Next, CommandFault>
    requires room { 16 ≤ session.old.spare }
    requires part { IsStateless command.now }
    requires open { AllOpen session.old.machine.slots (F.state files.old).opened }
    ensures refused { IsRefused result
        → AreLeft (nature command.now).flushes session.old session.new }
    ensures told { IsTold F.tells session.old.machine.slots L.tells (L.state lines.old) session.old.machine.lines
        command.now → InStep (attached_files session.old.machine) (F.state files.old).files
        → (whole : List LineAnswer) → IsFirst (record_in (L.state lines.new).told) whole
        → Did (λ notes. effect session.old.limit notes
        (live_in session.old (beyond (F.state files.old).files (L.state lines.old) whole)) command.now)
        session.old.command result (live_in session.new (beyond (F.state files.new).files (L.state lines.new) whole))
        S.tells (output (S.written out.old) (L.state lines.old).sent) (output (S.written out.new) (L.state lines.new).sent)
        (notes_said session.old.notes) (notes_said session.new.notes) }
    ensures untold { IsUntold command.now → (whole : List LineAnswer)
        → Did (λ notes. effect session.old.limit notes
        (live_in session.old (beyond (F.state files.old).files (L.state lines.old) whole)) command.now)
        session.old.command result (live_in session.new (beyond (F.state files.new).files (L.state lines.new) whole))
        S.tells (output (S.written out.old) (L.state lines.old).sent) (output (S.written out.new) (L.state lines.new).sent)
        (notes_said session.old.notes) (notes_said session.new.notes) }
    ensures step { IsTold F.tells session.old.machine.slots L.tells (L.state lines.old) session.old.machine.lines
        command.now → StaysWhereAlone session.old session.new (F.state files.old).files (F.state files.new).files }
    ensures grows { Grows S.tells (S.written out.old) (S.written out.new) }
    ensures lines { LinesLeft L.tells (L.state lines.old) session.old.machine.lines (L.state lines.new)
        session.new.machine.lines }
    ensures unasked { IsRefused result → (IsUnlistened command.now result → ⊥) → lines.new ≡ lines.old }
    ensures listening { ListenCause L.tells command.now result (L.state lines.old) (L.state lines.new) }
    ensures line { result ≢ Err OutOfMemory → LinesAnswer L.tells command.now result (L.state lines.old)
        session.old.machine.lines (L.state lines.new) session.new.machine.lines }
    ensures undone { result ≡ Err OutOfMemory → IsUndone (nature command.now).flushes (nature command.now).reads_whole
        (says_files F.tells command.now) session.old session.new (S.written out.old) (S.written out.new)
        (F.state files.old) (F.state files.new) }
    ensures want { result ≡ Err OutOfMemory → MayWant 16 command.now }
    ensures unrefused { result ≡ Err OutOfMemory
        → IsUnrefused command.now session.old.machine session.old.watch }
    ensures measured { IsMeasured F.tells command.now result (F.state files.old) (F.state files.new) }
    ensures tables { result ≢ Err OutOfMemory → AnswersByTables session.old.machine command.now result }
    ensures answers { CanAnswer command.now result }
    ensures works { Works command.now result session.old session.new (F.state files.old) (F.state files.new) }
    ensures keeps { KeepsAs (opens_of command.now) session.old.command session.new.machine.time F.tells result
        session.old.notes session.new.notes (F.state files.old) (F.state files.new) }
    ensures whose { AreOwn session.old.machine.slots session.new.machine.slots session.old.notes session.new.notes
        (F.state files.old) (F.state files.new) }
    ensures keys { session.new.keys ≡ session.old.keys }
    ensures limit { session.new.limit ≡ session.old.limit }
    ensures command { session.new.command ≡ session.old.command }
    ensures kinds { kinds_of session.new.machine.units ≡ kinds_of session.old.machine.units }
    ensures counts { ConsoleCounts result (S.fault_count out.old) (S.fault_count out.new) }
    ensures ran { RunCause result session.old.machine.slots (F.state files.old) (F.state files.new) }
    ensures stopped { RunStops (is_step command.now session.old.limit) (run_count command.now session.old.limit) result
        session.old session.new S.tells (S.written out.old) (S.written out.new) }
    ensures attach_note { AttachNote command.now result
        (record { command = session.old.command; time = session.old.machine.time }) session.old.notes session.new.notes
        (F.state files.old) (F.state files.new) }
    ensures stop { result ≢ Ok (Ran ConsoleFault) }
    ensures exit { IsExitAnswer result }
    ensures open { AllOpen session.new.machine.slots (F.state files.new).opened }
    ensures around { (base : List Opened) → Around session.old.machine.slots base (F.state files.old).opened
        → Around session.new.machine.slots base (F.state files.new).opened }
{
    match family_of(command) {
        Family::Run => obey_run(session, command, files, lines, out),
        Family::Host => obey_host(alloc, session, command, files, lines),
        Family::Untold => obey_untold(session, command, out),
    }
}
