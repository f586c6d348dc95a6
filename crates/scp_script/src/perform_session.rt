ghost use Rattle.std.specs.Prelude.{◌≡◌, ◌⊎◌, [], true, false, List, map, take, string_bytes, IsTrue, IfOk};
ghost use Rattle.file_traits.specs.State.{Opened};
ghost use Rattle.unit_files.specs.Open.{AllOpen, Around};
ghost use Rattle.expect_actions.specs.Watch.{forgotten};
ghost use Rattle.file_commands.specs.OwnFiles.{AreOwn};
ghost use Rattle.file_commands.specs.Notes.{notes_said};
ghost use Rattle.host_lines.specs.Traffic.{Answer as LineAnswer};
ghost use Rattle.host_lines.specs.Told.{IsFirst, record_in};
ghost use Rattle.telnet_lines.specs.Many.{AreApart};
ghost use Rattle.nova_machine.specs.Comes.{output};
ghost use Rattle.state_transfer.specs.SavedValid.{AreStandard};
ghost use Rattle.command_session.specs.Live.{live_in, beyond};
ghost use Rattle.command_session.specs.LinesLeft.{LinesLeft};
ghost use Rattle.scp_script.specs.Loop.{NumbersSuffice, FinishCause, SessionKept, KeptCause};
ghost use Rattle.session_texts.specs.Scripts.{first_script, AreFiles};
ghost use Rattle.nova_machine.specs.Machine.{attached_files};
ghost use Rattle.unit_files.specs.InStep.{InStep};
ghost use Rattle.unit_list.specs.Bus.{kinds_of};
ghost use Rattle.scp_script.specs.Perform.{beginning, Performed, SaysNoMore};
ghost use Rattle.scp_script.specs.Spending.{Spends};
ghost use Rattle.scp_script.specs.Used.{CourseTold};

use crate::command_loop::next_line;
use crate::progress::{CommandLoop, Finish, Progress};
use file_traits::{Files, Sink, Source};
use host_lines::Lines;
use scp_commands::{DoFile, ScriptText, Session};
use script_text::Arguments;
use session_texts::{LineReader, OpenScript, Texts};
use std::alloc::{AllocError, Global};
use unit_trait::Unit;

/// How a session begins.
#[derive(Drop)]
pub struct Opening {
    /// The script whose lines come before those of the input.
    pub script: Option<DoFile>,
    /// The script's name, and then its arguments. The first ten of these words count.
    pub arguments: Vec<String>,
    /// Whether the input is read behind the script. Else the session is over there, as by EXIT with status 0, but no
    /// unit loses its file.
    pub reads: bool,
    /// Whether the prompt is printed before each line of the input.
    pub prompt: bool,
    /// The units to pay for lines and actions: each costs one, and a line one more for each whole 512 bytes past its
    /// first 512.
    pub budget: u64,
}

/// Does all lines of the script and of the input, until the session is over, and behind each the actions of the stop to
/// which it came. Where the input ends, all units lose their files, or all keep them where what the disk holds can't be
/// written back.
///
/// The notes that it keeps are those of the calls on files that failed in it, one for each, but for the closings of
/// files that a refused ATTACH or RESTORE has opened itself, and for the openings of files that are missing, of which
/// there are two at most for each unit that it spends, and none where files tell. Memory is taken for those of a
/// command before its line is read.
///
/// The machine has the units of a standard one, with the multiplexer or without, and keeps them.
///
/// `lines` are the ports and connections of the host: a run polls them for the machine's terminal lines, ATTACH of the
/// second teletype listens on a port, and RESTORE on those of its session. At EXIT and at the end of the input, where
/// no file had to be kept, the port of the second teletype is given up with its connection; at any other end it stays,
/// and each other port at every end.
pub fn perform<U: Unit, C: Source, F: Files, L: Lines, S: Sink>(
    alloc: Global,
    session: &mut Session<U>,
    opening: &Opening,
    input: &mut C,
    files: &mut F,
    lines: &mut L,
    out: &mut S,
) -> Finish
    requires standard { AreStandard session.old.machine.units }
    requires open { AllOpen session.old.machine.slots (F.state files.old).opened }
    ensures told { NumbersSuffice session.old.command opening.now.budget → (opening.now.reads ≡ true → IsTrue C.tells)
        → CourseTold F.tells L.tells (λ whole notes. beginning session.old
        (beyond (F.state files.old).files (L.state lines.old) whole) opening.now (C.left input.old) notes)
        → (IsTrue L.tells → AreApart (L.state lines.old) session.old.machine.lines) → IsTrue S.tells
        → InStep (attached_files session.old.machine) (F.state files.old).files
        → (whole : List LineAnswer) → IsFirst (record_in (L.state lines.new).told) whole
        → SaysNoMore (λ recorded notes. beginning session.old
        (beyond (F.state files.old).files (L.state lines.old) recorded) opening.now (C.left input.old) notes) L.tells
        whole (C.left input.new)
        (output (S.written out.old) (L.state lines.old).sent) (output (S.written out.new) (L.state lines.new).sent)
        (notes_said session.old.notes) (notes_said session.new.notes)
        ⊎ Performed (λ notes. beginning session.old (beyond (F.state files.old).files (L.state lines.old) whole)
        opening.now (C.left input.old) notes) result
        (live_in session.new (beyond (F.state files.new).files (L.state lines.new) whole)) (C.left input.new)
        (output (S.written out.old) (L.state lines.old).sent) (output (S.written out.new) (L.state lines.new).sent)
        (notes_said session.old.notes) (notes_said session.new.notes) }
    ensures lines { LinesLeft L.tells (L.state lines.old) session.old.machine.lines (L.state lines.new)
        session.new.machine.lines }
    ensures command { Spends opening.now.reads (first_script opening.now.script opening.now.arguments.items) result
        opening.now.budget session.old.command session.new.command }
    ensures cause { FinishCause result (S.fault_count out.old) (S.fault_count out.new) (C.fault_count input.old)
        (C.fault_count input.new) }
    ensures keeps { SessionKept F.tells opening.now.budget session.old.command session.new.command session.old.notes
        session.new.notes (F.state files.old) (F.state files.new) }
    ensures whose { AreOwn session.old.machine.slots session.new.machine.slots session.old.notes session.new.notes
        (F.state files.old) (F.state files.new) }
    ensures kept { KeptCause result session.new.machine.slots session.new.notes (F.state files.old)
        (F.state files.new) }
    ensures unread { opening.now.reads ≡ false → input.new ≡ input.old }
    ensures keys { session.new.keys ≡ session.old.keys }
    ensures limit { session.new.limit ≡ session.old.limit }
    ensures standard { AreStandard session.new.machine.units }
    ensures kinds { kinds_of session.new.machine.units ≡ kinds_of session.old.machine.units }
    ensures open { AllOpen session.new.machine.slots (F.state files.new).opened }
    ensures around { (base : List Opened) → Around session.old.machine.slots base (F.state files.old).opened
        → Around session.new.machine.slots base (F.state files.new).opened }
{
    let Ok(mut texts) = begin(alloc, opening) else {
        return Finish::OutOfMemory;
    };
    'lines: loop {
        match next_line(alloc, session, &mut texts, input, files, lines, out) {
            // The actions of a stop wait now, or were refused.
            Progress::GoesOn => rest(session),
            Progress::IsOver(finish) => return finish,
        }
    }
}

/// Lets go of the actions of the stop that came last.
fn rest<U: Unit>(session: &mut Session<U>)
    ensures { session.new ≡ record session.old { watch = forgotten session.old.watch } }
{
    session.watch.forget();
}

/// The texts of a session before the first one. Memory is taken for the script and its arguments, and the room for
/// others.
fn begin(alloc: Global, opening: &Opening) -> Result<CommandLoop, AllocError>
    ensures first { IfOk result (λ lines. lines ≡ record {
      texts = record { actions = []; scripts = first_script opening.now.script opening.now.arguments.items };
      reads = opening.now.reads;
      reader = record { line = []; open_ = true };
      budget = opening.now.budget;
      prompt = opening.now.prompt;
    }) }
    ensures files { IfOk result (λ lines. AreFiles lines.texts.scripts) }
{
    let mut texts = Texts::new(alloc)?;
    match &opening.script {
        None => (),
        Some(file) => {
            let arguments = arguments_of(alloc, &opening.arguments)?;
            let copy = copy_of(alloc, file)?;
            texts.scripts.push(OpenScript::begin(copy, arguments));
        }
    }
    Ok(CommandLoop {
        texts,
        reads: opening.reads,
        reader: LineReader::new(),
        budget: opening.budget,
        prompt: opening.prompt,
    })
}

/// A copy of a script.
fn copy_of(alloc: Global, file: &DoFile) -> Result<DoFile, AllocError>
    ensures { IfOk result (λ copy. copy ≡ file.now) }
{
    Ok(DoFile {
        text: ScriptText::new(Vec::from_slice(alloc, file.text.as_slice())?),
        echo: file.echo,
        strict: file.strict,
    })
}

/// The first ten words, as the name of a script and its arguments.
fn arguments_of(alloc: Global, words: &[String]) -> Result<Arguments, AllocError>
    ensures { IfOk result (λ arguments. arguments ≡ take 10 (map (λ word. string_bytes word) words.now)) }
{
    let mut arguments = Arguments::new(alloc);
    for word in words {
        if !arguments.is_full() {
            arguments.push(word.as_bytes())?;
        }
    }
    Ok(arguments)
}
