ghost use Rattle.std.specs.Prelude.{◌≡◌, ◌≢◌, ◌⊎◌, ◌≤◌, ◌^◌, List, [], map, Option, None, true, false, IsTrue, IsSome, is_some, option_map, is_none};
ghost use Rattle.std.specs.List.{AllByRecursion};
ghost use Rattle.fault_counts.specs.Faults.{Rose};
ghost use Rattle.observations.specs.Status.{number_of};
ghost use Rattle.file_traits.specs.State.{Opened};
ghost use Rattle.unit_files.specs.Attachments.{Held, no_files};
ghost use Rattle.unit_files.specs.Open.{AllOpen, Around};
ghost use Rattle.file_commands.specs.Notes.{notes_said};
ghost use Rattle.file_commands.specs.Counts.{AreCounted, AreExact};
ghost use Rattle.file_commands.specs.OwnFiles.{IsOwnNote, AreOwn};
ghost use Rattle.host_lines.specs.Traffic.{Answer as LineAnswer};
ghost use Rattle.host_lines.specs.Told.{IsFirst, record_in};
ghost use Rattle.nova_machine.specs.Machine.{lines_for};
ghost use Rattle.nova_machine.specs.Seen.{seen, beside};
ghost use Rattle.nova_machine.specs.Comes.{output as heard_output};
ghost use Rattle.state_transfer.specs.SavedValid.{AreStandard};
ghost use Rattle.command_session.specs.Live.{beyond};
ghost use Rattle.scp_script.specs.Loop.{FinishCause, AreKeptFor};
ghost use Rattle.scp_script.specs.Perform.{beginning, Performed, SaysNoMore as SessionSaysNoMore};
ghost use Rattle.scp_script.specs.Used.{CourseTold};
ghost use Rattle.command_words.specs.Standard.{IsStandard};
ghost use Rattle.command_words.specs.Words.{texts_of};
ghost use Rattle.program_start.specs.Start.{usage_text};
ghost use Rattle.nova_top.specs.Ends.{IsOutcome, IsCutShort, StatusCause, MachineThere, IsComplete, FilesAtEnd, KeptUnwritten, OpeningsAtEnd, LinesAtEnd, NoneFailed, HasWorkload, InputTells};
ghost use Rattle.program_start.specs.Unread.{IsUnopened, AreMeasured, HasNoKeys};
ghost use Rattle.program_start.specs.WordFiles.{IsRefused, RefusedCause, RefusalCause, denial_of, IsDenied, DeniedCause};
ghost use Rattle.nova_top.specs.Program.{SessionEnds, as_file};
ghost use Rattle.program_start.specs.Workload.{with_workload};
ghost use Rattle.nova_top.specs.Resumption.{ResumesSaved, SaysNoMore};
ghost use Rattle.nova_top.specs.Used.{ProgramTold};

use command_session::{DoFile, ScriptText};
use command_words::{Options, options_of};
use expect_actions::Keys;
use file_traits::{Files, Sink, Source};
use host_lines::Lines;
use nova_machine::Machine;
use observations::ExitStatus;
use program_start::{Beginning, Refusal, begin, print_refusal, print_usage, set_up};
use scp_commands::{FaultNote, Session};
use scp_script::{Opening, perform};
use std::alloc::Global;
use unit_trait::Unit;

/// How the program ended.
#[derive(Drop)]
pub struct Ending<U: Unit> {
    /// The exit status of the process, from 0 to 107.
    pub status: u8,
    /// The machine as it was left, where there was one. Files that are still attached to it are still open.
    pub machine: Option<Machine<U>>,
    /// The calls on files that failed, in order, but for the closings of files that a refused ATTACH or RESTORE has
    /// opened itself, and for the openings of files that are missing.
    pub faults: Vec<FaultNote>,
}

/// The whole program, over the words, the units, the input, the console, the files and the terminal lines that are
/// handed in. The units are the standard ones (`is_standard`); the program is the same over whichever types they have,
/// so they may be boxes.
///
/// The keys file of `-k` and then the script are read before the session begins. With `-g` the workload of its number
/// is run in place of that, and the input is left unread. Files that are attached at the end of the input, or at EXIT,
/// are closed, behind writing back what the disk holds; at any other end they stay open, and where that can't be
/// written back, which is status 107 at the end of the input.
///
/// The machine has its console line and the line of its second teletype, both without a port. ATTACH gives the second
/// one a port of `lines`, and RESTORE gives both the ports that were saved. At EXIT and at the end of the input, where
/// no file had to be kept, that of the second teletype is given up with its connection; at any other end, and behind
/// the workload of `-g`, it stays. That of the console line stays at every end.
pub fn simulate<U: Unit, C: Source, S: Sink, F: Files, L: Lines>(
    alloc: Global,
    words: &[String],
    units: Vec<U>,
    input: &mut C,
    output: &mut S,
    files: &mut F,
    lines: &mut L,
) -> Ending<U>
    requires { IsStandard (map U.unit_state units.items) }
    ensures outcome { InputTells (texts_of words.now) C.tells → ProgramTold F.tells L.tells (map U.unit_state units.items) (texts_of words.now)
        (C.left input.old) (F.state files.old).files (L.state lines.old) → IsTrue S.tells
        → result.status ≢ 103
        → (whole : List LineAnswer) → IsFirst (record_in (L.state lines.new).told) whole
        → SaysNoMore L.tells (map U.unit_state units.items) (texts_of words.now) (C.left input.old) (C.left input.new) (S.written output.old)
        (S.written output.new) (beyond (F.state files.old).files (L.state lines.old) whole)
        (beyond (F.state files.new).files (L.state lines.new) whole) (notes_said result.faults.items)
        ⊎ IsOutcome (map U.unit_state units.items) (texts_of words.now) (C.left input.old) (C.left input.new) (S.written output.old)
        (S.written output.new) (beyond (F.state files.old).files (L.state lines.old) whole)
        (beyond (F.state files.new).files (L.state lines.new) whole) result.status result.machine
        (notes_said result.faults.items) }
    ensures memory { InputTells (texts_of words.now) C.tells → ProgramTold F.tells L.tells (map U.unit_state units.items) (texts_of words.now)
        (C.left input.old) (F.state files.old).files (L.state lines.old) → IsTrue S.tells
        → result.status ≡ 103
        → (whole : List LineAnswer) → IsFirst (record_in (L.state lines.new).told) whole
        → SaysNoMore L.tells (map U.unit_state units.items) (texts_of words.now) (C.left input.old) (C.left input.new) (S.written output.old)
        (S.written output.new) (beyond (F.state files.old).files (L.state lines.old) whole)
        (beyond (F.state files.new).files (L.state lines.new) whole) (notes_said result.faults.items)
        ⊎ IsCutShort (map U.unit_state units.items) (texts_of words.now) (C.left input.old) (C.left input.new) (S.written output.old)
        (S.written output.new) (beyond (F.state files.old).files (L.state lines.old) whole)
        (beyond (F.state files.new).files (L.state lines.new) whole) result.machine
        (notes_said result.faults.items) }
    ensures complete { InputTells (texts_of words.now) C.tells → ProgramTold F.tells L.tells (map U.unit_state units.items) (texts_of words.now)
        (C.left input.old) (F.state files.old).files (L.state lines.old) → IsTrue S.tells
        → result.status ≢ 103 → (Rose (S.fault_count output.old) (S.fault_count output.new) → ⊥)
        → (Rose (C.fault_count input.old) (C.fault_count input.new) → ⊥)
        → NoneFailed (F.state files.old) (F.state files.new)
        → (whole : List LineAnswer) → IsFirst (record_in (L.state lines.new).told) whole
        → SaysNoMore L.tells (map U.unit_state units.items) (texts_of words.now) (C.left input.old) (C.left input.new) (S.written output.old)
        (S.written output.new) (beyond (F.state files.old).files (L.state lines.old) whole)
        (beyond (F.state files.new).files (L.state lines.new) whole) []
        ⊎ IsComplete (map U.unit_state units.items) (texts_of words.now) (C.left input.old) (C.left input.new) (S.written output.old)
        (S.written output.new) (beyond (F.state files.old).files (L.state lines.old) whole)
        (beyond (F.state files.new).files (L.state lines.new) whole) result.status result.machine }
    ensures resumed { InputTells (texts_of words.now) C.tells → ProgramTold F.tells L.tells (map U.unit_state units.items) (texts_of words.now)
        (C.left input.old) (F.state files.old).files (L.state lines.old) → IsTrue S.tells
        → result.status ≢ 102 → result.status ≢ 103 → result.status ≢ 106
        → (whole : List LineAnswer) → IsFirst (record_in (L.state lines.new).told) whole
        → SaysNoMore L.tells (map U.unit_state units.items) (texts_of words.now) (C.left input.old) (C.left input.new) (S.written output.old)
        (S.written output.new) (beyond (F.state files.old).files (L.state lines.old) whole)
        (beyond (F.state files.new).files (L.state lines.new) whole) (notes_said result.faults.items)
        ⊎ ResumesSaved (map U.unit_state units.items) (texts_of words.now) (C.left input.old) (C.left input.new) (S.written output.old)
        (S.written output.new) (beyond (F.state files.old).files (L.state lines.old) whole)
        (beyond (F.state files.new).files (L.state lines.new) whole) result.status result.machine
        (notes_said result.faults.items) }
    ensures ports { LinesAtEnd (map U.unit_state units.items) result.machine (L.state lines.old) (L.state lines.new) }
    ensures cause { StatusCause (texts_of words.now) result.status (S.fault_count output.old) (S.fault_count output.new)
        (C.fault_count input.old) (C.fault_count input.new) }
    ensures unopened { result.status ≡ 101 → IsUnopened F.tells (texts_of words.now) result.faults.items
        (F.state files.old) (F.state files.new) }
    ensures no_keys { result.status ≡ 105 → HasNoKeys (F.state files.old) (F.state files.new) }
    ensures measured { result.status ≡ 103 → AreMeasured F.tells (texts_of words.now) result.machine
        (F.state files.old) (F.state files.new) }
    ensures notes { AreCounted result.faults.items (F.state files.old) (F.state files.new) }
    ensures exact { AreExact (is_some result.machine) result.faults.items (F.state files.old) (F.state files.new) }
    ensures openings { OpeningsAtEnd F.tells (texts_of words.now) result.status result.machine result.faults.items
        (F.state files.old) (F.state files.new) }
    ensures whose { AllByRecursion (IsOwnNote no_files (F.state files.old) (F.state files.new)) result.faults.items }
    ensures unwritten { result.status ≡ 107
        → KeptUnwritten result.machine result.faults.items (F.state files.old) (F.state files.new) }
    ensures machine { MachineThere (texts_of words.now) result.status result.machine }
    ensures files { FilesAtEnd result.machine (F.state files.old).opened (F.state files.new).opened }
    ensures unread { result.machine ≡ None → input.new ≡ input.old }
    ensures workload { HasWorkload (texts_of words.now) → input.new ≡ input.old }
{
    let Some(options) = options_of(words) else {
        return usage(alloc, output);
    };
    let Ok(mut session) = Session::new(alloc, units, Keys::none(alloc), options.limit) else {
        return Ending {
            status: ExitStatus::OutOfMemory.number(),
            machine: None,
            faults: Vec::new(alloc),
        };
    };
    match begin(alloc, words, options, files, &mut session.notes) {
        Ok(
            Beginning {
                keys,
                script,
                arguments,
            },
        ) => {
            let opening = open_with(options, script, arguments);
            run_session(
                alloc,
                ready(session, keys, options.workload),
                &opening,
                input,
                output,
                files,
                lines,
            )
        }
        Err(refusal) => refuse_files(words, refusal, notes_of(session), output),
    }
}

/// A session with those keys, and with the workload of that number in its memory, if there is one.
fn ready<U: Unit>(session: Session<U>, keys: Keys, workload: Option<u16>) -> Session<U>
    ensures { result ≡ record session { keys = keys; machine = with_workload workload session.machine } }
{
    let mut session = session;
    session.keys = keys;
    set_up(&mut session.machine, workload);
    session
}

/// How a session is opened with a script of that text, and these words for its name and its arguments.
fn open_with(options: Options, script: Option<ScriptText>, arguments: Vec<String>) -> Opening
    ensures script { result.script ≡ option_map as_file script }
    ensures arguments { result.arguments ≡ arguments }
    ensures reads { result.reads ≡ is_none options.workload }
    ensures prompt { result.prompt ≡ options.prompt }
    ensures budget { result.budget ≡ options.budget }
{
    let script = match script {
        Some(text) => Some(DoFile {
            text,
            echo: false,
            strict: false,
        }),
        None => None,
    };
    Opening {
        script,
        arguments,
        reads: options.workload.is_none(),
        prompt: options.prompt,
        budget: options.budget,
    }
}

/// The notes of a session that is let go.
fn notes_of<U: Unit>(session: Session<U>) -> Vec<FaultNote>
    ensures { result.items ≡ session.notes }
{
    let Session { notes, .. } = session;
    notes
}

/// Answers words outside their grammar.
fn usage<U: Unit, S: Sink>(alloc: Global, output: &mut S) -> Ending<U>
    ensures told { IsTrue S.tells
        → IsRefused 100 usage_text result.status (S.written output.old) (S.written output.new) }
    ensures cause { RefusedCause 100 result.status (S.fault_count output.old) (S.fault_count output.new) }
    ensures machine { result.machine ≡ None }
    ensures notes { result.faults.items ≡ [] }
{
    unbegun(print_usage(output), Vec::new(alloc))
}

/// Answers a keys file or a script that was refused.
fn refuse_files<U: Unit, S: Sink>(
    words: &[String],
    refusal: Refusal,
    notes: Vec<FaultNote>,
    output: &mut S,
) -> Ending<U>
    requires { (options : Options) × RefusalCause (texts_of words.now) options refusal }
    ensures told { IsTrue S.tells → IsDenied (denial_of (texts_of words.now) refusal) result.status
        (S.written output.old) (S.written output.new) }
    ensures cause { DeniedCause (denial_of (texts_of words.now) refusal) result.status (S.fault_count output.old)
        (S.fault_count output.new) }
    ensures machine { result.machine ≡ None }
    ensures notes { result.faults.items ≡ notes.items }
{
    unbegun(print_refusal(words, refusal, output), notes)
}

/// The end of a program that has no session, with that status.
fn unbegun<U: Unit>(status: ExitStatus, notes: Vec<FaultNote>) -> Ending<U>
    ensures status { result.status ≡ number_of status }
    ensures machine { result.machine ≡ None }
    ensures notes { result.faults.items ≡ notes.items }
{
    Ending {
        status: status.number(),
        machine: None,
        faults: notes,
    }
}

/// Does all lines of a session on a machine with the standard units and their lines, none of which has a port.
fn run_session<U: Unit, C: Source, S: Sink, F: Files, L: Lines>(
    alloc: Global,
    session: Session<U>,
    opening: &Opening,
    input: &mut C,
    output: &mut S,
    files: &mut F,
    lines: &mut L,
) -> Ending<U>
    requires command { session.command ≡ 0 }
    requires budget { opening.now.budget ≤ 2 ^ 32 }
    requires standard { AreStandard session.machine.units }
    requires open { AllOpen session.machine.slots (F.state files.old).opened }
    requires bare { session.machine.slots ≡ no_files }
    requires lines { session.machine.lines ≡ lines_for session.machine.units }
    ensures ended { SessionEnds result.status result.machine
        (λ finish watch now. (opening.now.reads ≡ true → IsTrue C.tells)
        → CourseTold F.tells L.tells (λ whole notes. beginning session
        (beyond (F.state files.old).files (L.state lines.old) whole) opening.now (C.left input.old) notes)
        → IsTrue S.tells → (whole : List LineAnswer) → IsFirst (record_in (L.state lines.new).told) whole
        → SessionSaysNoMore
        (λ recorded notes. beginning session (beyond (F.state files.old).files (L.state lines.old) recorded)
        opening.now (C.left input.old) notes) L.tells whole (C.left input.new)
        (heard_output (S.written output.old) (L.state lines.old).sent)
        (heard_output (S.written output.new) (L.state lines.new).sent)
        (notes_said session.notes) (notes_said result.faults.items)
        ⊎ Performed
        (λ notes. beginning session (beyond (F.state files.old).files (L.state lines.old) whole) opening.now
        (C.left input.old) notes) finish
        (seen (beside watch session.keys (F.state files.new).files (L.state lines.new)) whole now) (C.left input.new)
        (heard_output (S.written output.old) (L.state lines.old).sent)
        (heard_output (S.written output.new) (L.state lines.new).sent)
        (notes_said session.notes) (notes_said result.faults.items))
        (λ finish. FinishCause finish (S.fault_count output.old) (S.fault_count output.new) (C.fault_count input.old)
        (C.fault_count input.new)) }
    ensures ports { LinesAtEnd session.machine.units result.machine (L.state lines.old) (L.state lines.new) }
    ensures keeps { AreKeptFor F.tells opening.now.budget session.notes result.faults.items (F.state files.old)
        (F.state files.new) }
    ensures whose { (slots : List (Option Held))
        × AreOwn session.machine.slots slots session.notes result.faults.items (F.state files.old) (F.state files.new) }
    ensures unwritten { result.status ≡ 107
        → KeptUnwritten result.machine result.faults.items (F.state files.old) (F.state files.new) }
    ensures files { (base : List Opened) → Around session.machine.slots base (F.state files.old).opened
        → FilesAtEnd result.machine base (F.state files.new).opened }
    ensures there { IsSome result.machine }
    ensures unread { opening.now.reads ≡ false → input.new ≡ input.old }
{
    let mut session = session;
    let finish = perform(alloc, &mut session, opening, input, files, lines, output);
    let Session { machine, notes, .. } = session;
    Ending {
        status: finish.status(),
        machine: Some(machine),
        faults: notes,
    }
}
