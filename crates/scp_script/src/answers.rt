ghost use Rattle.std.specs.Prelude.{◌≡◌, ◌≢◌, ◌≤◌, ◌++◌, List, length, IsTrue, true, false, Ok, Err, IfOk};
ghost use Rattle.file_traits.specs.State.{Opened};
ghost use Rattle.unit_files.specs.Open.{AllOpen, Around};
ghost use Rattle.file_commands.specs.OwnFiles.{AreOwn};
ghost use Rattle.file_commands.specs.Notes.{CommandNote, Note, notes_said};
ghost use Rattle.host_lines.specs.Traffic.{Answer as LineAnswer};
ghost use Rattle.host_lines.specs.Told.{Heard, IsFirst, record_in};
ghost use Rattle.telnet_lines.specs.Many.{AreApart};
ghost use Rattle.nova_machine.specs.Comes.{output};
ghost use Rattle.state_transfer.specs.SavedValid.{AreStandard};
ghost use Rattle.command_session.specs.Live.{live_in, standing, Beyond, beyond};
ghost use Rattle.command_session.specs.LinesLeft.{LinesLeft};
ghost use Rattle.command_session.specs.Asked.{Asked, asked};
ghost use Rattle.nova_machine.specs.Machine.{attached_files};
ghost use Rattle.unit_files.specs.InStep.{InStep};
ghost use Rattle.unit_list.specs.Bus.{kinds_of};
ghost use Rattle.command_session.specs.DiskFile.{StaysWhereAlone};
ghost use Rattle.command_session.specs.Doing.{Grows, IsExitAnswer};
ghost use Rattle.command_session.specs.FaultText.{fault_text};
ghost use Rattle.command_session.specs.declared.fault.CommandFault.TheVariants.{TooDeep};
ghost use Rattle.scp_script.specs.declared.progress.Progress.TheVariants.{IsOver};
ghost use Rattle.scp_script.specs.declared.progress.Finish.TheVariants.{OutOfMemory};
ghost use Rattle.session_texts.specs.Scripts.{checked, arguments_of, label_of, behind_failure, is_assertion};
ghost use Rattle.session_texts.specs.Actions.{texts_of, coming, texts_behind, behind_refusal};
ghost use Rattle.session_texts.specs.Actions.{text_of_stop, put_first, overflow_text};
ghost use Rattle.scp_script.specs.Session.{text_reply};
ghost use Rattle.scp_script.specs.Loop.{IsAnswer, Answers, AnswerCounts, HasExitStatus, AreKeptBy, AsksPorts, IsShort};
ghost use Rattle.scp_script.specs.Loop.{Complains, Denies, Follows, FitsIn};
ghost use Rattle.scp_script.specs.Used.{TextTold};
ghost use Rattle.scp_script.specs.Spending.{EndOf, IsNoExit, NextOf, OpensOne};

use crate::progress::{Finish, Progress};
use expect_actions::{Full, Watch};
use file_traits::{Failed, Files, Sink};
use host_lines::Lines;
use nova_machine::Stop;
use scp_commands::{CommandFault, Next, Session, execute};
use scp_parser::{Command, Verb, read_command};
use script_text::Arguments;
use session_texts::{OpenScript, ScriptStack, Texts};
use std::alloc::{AllocError, Global};
use unit_trait::Unit;

/// Does the command of a text, or answers its fault, and says whether the session goes on.
pub fn answer<U: Unit, F: Files, L: Lines, S: Sink>(
    alloc: Global,
    session: &mut Session<U>,
    line: &[u8],
    texts: &mut Texts,
    files: &mut F,
    lines: &mut L,
    out: &mut S,
) -> Progress
    requires standard { AreStandard session.old.machine.units }
    requires open { AllOpen session.old.machine.slots (F.state files.old).opened }
    ensures told { TextTold F.tells L.tells session.old.machine texts.old.scripts (asked line.now)
        → (IsTrue L.tells → AreApart (L.state lines.old) session.old.machine.lines)
        → InStep (attached_files session.old.machine) (F.state files.old).files
        → (whole : List LineAnswer) → IsFirst (record_in (L.state lines.new).told) whole
        → Answers session.old.limit (live_in session.old (beyond (F.state files.old).files (L.state lines.old) whole))
        (coming texts.old) (asked line.now) session.old.command result
        (live_in session.new (beyond (F.state files.new).files (L.state lines.new) whole)) (coming texts.new) S.tells
        (output (S.written out.old) (L.state lines.old).sent) (output (S.written out.new) (L.state lines.new).sent)
        (notes_said session.old.notes) (notes_said session.new.notes) }
    ensures still { TextTold F.tells L.tells session.old.machine texts.old.scripts (asked line.now)
        → (IsTrue L.tells → ⊥) → L.state lines.new ≡ L.state lines.old }
    ensures step { TextTold F.tells L.tells session.old.machine texts.old.scripts (asked line.now)
        → (IsTrue L.tells → AreApart (L.state lines.old) session.old.machine.lines)
        → StaysWhereAlone session.old session.new (F.state files.old).files (F.state files.new).files }
    ensures grows { Grows S.tells (S.written out.old) (S.written out.new) }
    ensures short { TextTold F.tells L.tells session.old.machine texts.old.scripts (asked line.now)
        → InStep (attached_files session.old.machine) (F.state files.old).files → (whole : List LineAnswer)
        → (AsksPorts (asked line.now) → IsFirst (record_in (L.state lines.new).told) whole) → (own : List Note)
        → notes_said session.new.notes ≡ notes_said session.old.notes ++ own
        → IsShort (asked line.now) session.old.command result
        (live_in session.old (beyond (F.state files.old).files (L.state lines.old) whole))
        (live_in session.new (beyond (F.state files.new).files (L.state lines.new) whole)) own
        (output (S.written out.old) (L.state lines.old).sent) (output (S.written out.new) (L.state lines.new).sent) }
    ensures lines { LinesLeft L.tells (L.state lines.old) session.old.machine.lines (L.state lines.new)
        session.new.machine.lines }
    ensures counts { AnswerCounts result (S.fault_count out.old) (S.fault_count out.new) }
    ensures exit { HasExitStatus result }
    ensures asked { EndOf (asked line.now) result }
    ensures scripts { OpensOne texts.old.scripts result texts.new.scripts }
    ensures command { session.new.command ≡ session.old.command }
    ensures keeps { AreKeptBy F.tells (asked line.now) session.old.notes session.new.notes (F.state files.old)
        (F.state files.new) }
    ensures whose { AreOwn session.old.machine.slots session.new.machine.slots session.old.notes session.new.notes
        (F.state files.old) (F.state files.new) }
    ensures keys { session.new.keys ≡ session.old.keys }
    ensures limit { session.new.limit ≡ session.old.limit }
    ensures standard { AreStandard session.new.machine.units }
    ensures kinds { kinds_of session.new.machine.units ≡ kinds_of session.old.machine.units }
    ensures open { AllOpen session.new.machine.slots (F.state files.new).opened }
    ensures around { (base : List Opened) → Around session.old.machine.slots base (F.state files.old).opened
        → Around session.new.machine.slots base (F.state files.new).opened }
{
    let mut command = Command::new();
    match read_command(line, &mut command) {
        Ok(()) => obey(alloc, session, &command, texts, files, lines, out),
        Err(fault) => deny_line(session, CommandFault::of_line(fault), texts, out),
    }
}

/// Does a command, and prints the text of its fault where it is refused. A DO is refused where no more scripts can be
/// open; the memory for its arguments is taken before its file is read.
fn obey<U: Unit, F: Files, L: Lines, S: Sink>(
    alloc: Global,
    session: &mut Session<U>,
    command: &Command,
    texts: &mut Texts,
    files: &mut F,
    lines: &mut L,
    out: &mut S,
) -> Progress
    requires standard { AreStandard session.old.machine.units }
    requires open { AllOpen session.old.machine.slots (F.state files.old).opened }
    ensures told { TextTold F.tells L.tells session.old.machine texts.old.scripts (Ok command.now)
        → (IsTrue L.tells → AreApart (L.state lines.old) session.old.machine.lines)
        → InStep (attached_files session.old.machine) (F.state files.old).files
        → (whole : List LineAnswer) → IsFirst (record_in (L.state lines.new).told) whole
        → Answers session.old.limit (live_in session.old (beyond (F.state files.old).files (L.state lines.old) whole))
        (coming texts.old) (Ok command.now) session.old.command result
        (live_in session.new (beyond (F.state files.new).files (L.state lines.new) whole)) (coming texts.new) S.tells
        (output (S.written out.old) (L.state lines.old).sent) (output (S.written out.new) (L.state lines.new).sent)
        (notes_said session.old.notes) (notes_said session.new.notes) }
    ensures still { TextTold F.tells L.tells session.old.machine texts.old.scripts (Ok command.now)
        → (IsTrue L.tells → ⊥) → L.state lines.new ≡ L.state lines.old }
    ensures step { TextTold F.tells L.tells session.old.machine texts.old.scripts (Ok command.now)
        → (IsTrue L.tells → AreApart (L.state lines.old) session.old.machine.lines)
        → StaysWhereAlone session.old session.new (F.state files.old).files (F.state files.new).files }
    ensures grows { Grows S.tells (S.written out.old) (S.written out.new) }
    ensures short { TextTold F.tells L.tells session.old.machine texts.old.scripts (Ok command.now)
        → InStep (attached_files session.old.machine) (F.state files.old).files → (whole : List LineAnswer)
        → (AsksPorts (Ok command.now) → IsFirst (record_in (L.state lines.new).told) whole) → (own : List Note)
        → notes_said session.new.notes ≡ notes_said session.old.notes ++ own
        → IsShort (Ok command.now) session.old.command result
        (live_in session.old (beyond (F.state files.old).files (L.state lines.old) whole))
        (live_in session.new (beyond (F.state files.new).files (L.state lines.new) whole)) own
        (output (S.written out.old) (L.state lines.old).sent) (output (S.written out.new) (L.state lines.new).sent) }
    ensures lines { LinesLeft L.tells (L.state lines.old) session.old.machine.lines (L.state lines.new)
        session.new.machine.lines }
    ensures counts { AnswerCounts result (S.fault_count out.old) (S.fault_count out.new) }
    ensures exit { HasExitStatus result }
    ensures asked { EndOf (Ok command.now) result }
    ensures scripts { OpensOne texts.old.scripts result texts.new.scripts }
    ensures command { session.new.command ≡ session.old.command }
    ensures keeps { AreKeptBy F.tells (Ok command.now) session.old.notes session.new.notes (F.state files.old)
        (F.state files.new) }
    ensures whose { AreOwn session.old.machine.slots session.new.machine.slots session.old.notes session.new.notes
        (F.state files.old) (F.state files.new) }
    ensures keys { session.new.keys ≡ session.old.keys }
    ensures limit { session.new.limit ≡ session.old.limit }
    ensures standard { AreStandard session.new.machine.units }
    ensures kinds { kinds_of session.new.machine.units ≡ kinds_of session.old.machine.units }
    ensures open { AllOpen session.new.machine.slots (F.state files.new).opened }
    ensures around { (base : List Opened) → Around session.old.machine.slots base (F.state files.old).opened
        → Around session.new.machine.slots base (F.state files.new).opened }
{
    if is_too_deep(command, &texts.scripts) {
        return deny_line(session, CommandFault::TooDeep, texts, out);
    }
    let Ok(arguments) = script_arguments(alloc, command) else {
        return Progress::IsOver(Finish::OutOfMemory);
    };
    let next = match execute(alloc, session, command, files, lines, out) {
        Ok(next) => next,
        Err(fault) => return refuse(fault, texts, out),
    };
    follow(next, command, arguments, &session.watch, texts, out)
}

/// Whether a command is a DO where no more scripts can be open.
fn is_too_deep(command: &Command, scripts: &ScriptStack) -> bool
    ensures deep { result ≡ true → checked scripts.now (Ok command.now) ≡ Err TooDeep }
    ensures fits { result ≡ false → checked scripts.now (Ok command.now) ≡ Ok command.now }
    ensures room { result ≡ false → FitsIn scripts.now command.now }
{
    match &command.verb {
        Verb::Do { .. } => scripts.is_full(),
        _ => false,
    }
}

/// The name of the script that a DO begins, and its arguments; nothing of any other command.
fn script_arguments(alloc: Global, command: &Command) -> Result<Arguments, AllocError>
    ensures { IfOk result (λ arguments. arguments ≡ arguments_of (Ok command.now)) }
{
    match &command.verb {
        Verb::Do { .. } => {
            Arguments::from_text(alloc, command.file_name().as_bytes(), command.text())
        }
        _ => Ok(Arguments::new(alloc)),
    }
}

/// The label that a GOTO looks for; nothing of any other command.
fn label_of(command: &Command) -> &[u8]
    ensures { result.now ≡ label_of (Ok command.now) }
{
    match &command.verb {
        Verb::Goto(_) => command.text(),
        _ => b"",
    }
}

/// Goes on behind a command that was done: with the actions of its stop, in its script, at its label, or not at all.
fn follow<S: Sink>(
    next: Next,
    command: &Command,
    arguments: Arguments,
    watch: &Watch,
    texts: &mut Texts,
    out: &mut S,
) -> Progress
    requires arguments { arguments ≡ arguments_of (Ok command.now) }
    requires exit { IsExitAnswer (Ok next) }
    requires asked { NextOf (Ok command.now) next }
    ensures told { (heard : Heard)
        → Follows watch.now next command.now result (coming texts.old) (coming texts.new) S.tells
        (output (S.written out.old) heard) (output (S.written out.new) heard) }
    ensures grows { Grows S.tells (S.written out.old) (S.written out.new) }
    ensures counts { AnswerCounts result (S.fault_count out.old) (S.fault_count out.new) }
    ensures exit { HasExitStatus result }
    ensures asked { EndOf (Ok command.now) result }
    ensures scripts { OpensOne texts.old.scripts result texts.new.scripts }
    ensures memory { result ≢ IsOver OutOfMemory }
{
    match next {
        Next::Go => Progress::GoesOn,
        Next::Ran(stop) => act_on(stop, watch, texts, out),
        Next::Do(file) => {
            if !texts.scripts.is_full() {
                texts.scripts.push(OpenScript::begin(file, arguments));
            }
            Progress::GoesOn
        }
        Next::Goto => match texts.scripts.go_to(label_of(command)) {
            Ok(()) => Progress::GoesOn,
            Err(fault) => refuse(fault, texts, out),
        },
        Next::Exit(status) => Progress::IsOver(Finish::Exit(status)),
    }
}

/// Puts the actions of a stop in front of those that wait. Where they do not fit, that is printed, and none of them is
/// taken; no command has failed then.
fn act_on<S: Sink>(stop: Stop, watch: &Watch, texts: &mut Texts, out: &mut S) -> Progress
    ensures told { Complains S.tells (S.written out.old)
        (overflow_text (text_of_stop stop watch.now) texts.old.actions) result (S.written out.new) }
    ensures texts { coming texts.new
        ≡ texts_of (put_first (text_of_stop stop watch.now) texts.old.actions) texts.old.scripts }
    ensures counts { AnswerCounts result (S.fault_count out.old) (S.fault_count out.new) }
    ensures exit { HasExitStatus result }
    ensures stays { IsNoExit result }
    ensures memory { result ≢ IsOver OutOfMemory }
{
    match texts.actions.put_first(actions_of(stop, watch)) {
        Ok(()) => Progress::GoesOn,
        Err(Full) => complain(CommandFault::Full, out),
    }
}

/// The text of the actions of a stop: of the break or of the text that was waited for at which it came, and else none.
fn actions_of(stop: Stop, watch: &Watch) -> &[u8]
    ensures text { result.now ≡ text_of_stop stop watch.now }
    ensures short { length result.now ≤ 512 }
{
    match stop {
        Stop::Break(_) => watch.breaks.actions_of(),
        Stop::Expect(_) => watch.expects.actions_of(),
        _ => b"",
    }
}

/// Answers the fault of a command, and ends the scripts that it ends.
fn refuse<S: Sink>(fault: CommandFault, texts: &mut Texts, out: &mut S) -> Progress
    ensures told { Denies fault S.tells result (S.written out.old) (S.written out.new) (S.fault_count out.old)
        (S.fault_count out.new) }
    ensures texts { coming texts.new ≡ texts_of
        (behind_refusal texts.old.scripts (behind_failure (is_assertion fault) texts.old.scripts) texts.old.actions)
        (behind_failure (is_assertion fault) texts.old.scripts) }
    ensures stays { IsNoExit result }
{
    let progress = deny(fault, out);
    texts.fail(is_assertion(fault));
    progress
}

/// Whether a fault is that of an ASSERT.
fn is_assertion(fault: CommandFault) -> bool
    ensures { result ≡ is_assertion fault }
{
    match fault {
        CommandFault::AssertFailed => true,
        _ => false,
    }
}

/// Answers a fault: by its text, or by the end of the session where the console refused a byte or memory ran out.
fn deny<S: Sink>(fault: CommandFault, out: &mut S) -> Progress
    ensures told { Denies fault S.tells result (S.written out.old) (S.written out.new) (S.fault_count out.old)
        (S.fault_count out.new) }
    ensures stays { IsNoExit result }
{
    match fault {
        CommandFault::Console => Progress::IsOver(Finish::Console),
        CommandFault::OutOfMemory => Progress::IsOver(Finish::OutOfMemory),
        _ => complain(fault, out),
    }
}

/// Answers the fault of a text that is refused before any command.
pub fn deny_line<U: Unit, S: Sink>(
    session: &Session<U>,
    fault: CommandFault,
    texts: &mut Texts,
    out: &mut S,
) -> Progress
    ensures told { (around : Beyond) (heard : Heard) (notes : List CommandNote) (what : Asked)
        → checked texts.old.scripts what ≡ Err fault
        → IsAnswer (text_reply session.now.limit (coming texts.old) notes (live_in session.now around) what)
        (texts_behind (coming texts.old) what) result (coming texts.new) (standing 0 (live_in session.now around))
        S.tells (output (S.written out.old) heard) (output (S.written out.new) heard) }
    ensures grows { Grows S.tells (S.written out.old) (S.written out.new) }
    ensures memory { result ≢ IsOver OutOfMemory }
    ensures counts { AnswerCounts result (S.fault_count out.old) (S.fault_count out.new) }
    ensures exit { HasExitStatus result }
    ensures stays { IsNoExit result }
    ensures scripts { texts.new.scripts ≡ behind_failure (is_assertion fault) texts.old.scripts }
{
    let progress = complain(fault, out);
    texts.fail(is_assertion(fault));
    progress
}

/// Prints the text of a fault.
fn complain<S: Sink>(fault: CommandFault, out: &mut S) -> Progress
    ensures told { Complains S.tells (S.written out.old) (fault_text fault) result (S.written out.new) }
    ensures exit { HasExitStatus result }
    ensures stays { IsNoExit result }
    ensures counts { AnswerCounts result (S.fault_count out.old) (S.fault_count out.new) }
    ensures memory { result ≢ IsOver OutOfMemory }
{
    match fault.put_text(out) {
        Ok(()) => Progress::GoesOn,
        Err(Failed) => Progress::IsOver(Finish::Console),
    }
}
