ghost use Rattle.std.specs.Prelude.{◌≡◌, ◌≢◌, ◌≤◌, ◌<◌, ◌-◌, ◌∷◌, [], ℕ, List, IsTrue, true, false, length};
ghost use Rattle.fault_counts.specs.Faults.{CountsFault, raised};
ghost use Rattle.file_traits.specs.State.{Opened};
ghost use Rattle.file_traits.specs.Streams.{Puts};
ghost use Rattle.unit_files.specs.Open.{AllOpen, Around};
ghost use Rattle.file_commands.specs.OwnFiles.{AreOwn};
ghost use Rattle.file_commands.specs.Notes.{notes_said};
ghost use Rattle.host_lines.specs.Traffic.{Answer as LineAnswer};
ghost use Rattle.host_lines.specs.Told.{IsFirst, record_in};
ghost use Rattle.telnet_lines.specs.Many.{AreApart};
ghost use Rattle.nova_machine.specs.Comes.{output};
ghost use Rattle.state_transfer.specs.SavedValid.{AreStandard};
ghost use Rattle.nova_machine.specs.Machine.{attached_files};
ghost use Rattle.unit_files.specs.InStep.{InStep};
ghost use Rattle.unit_list.specs.Bus.{kinds_of};
ghost use Rattle.command_session.specs.Live.{beyond};
ghost use Rattle.command_session.specs.DiskFile.{StaysWhereAlone};
ghost use Rattle.command_session.specs.Doing.{Grows};
ghost use Rattle.command_session.specs.LinesLeft.{LinesLeft};
ghost use Rattle.session_texts.specs.Reading.{IsReading, Pays};
ghost use Rattle.session_texts.specs.Scripts.{cost_of_line, still_open};
ghost use Rattle.scp_script.specs.Session.{prompt_text, spent_more};
ghost use Rattle.scp_script.specs.Loop.{session_of, NumbersSuffice, Stepped, ProgressCause, PaysFor};
ghost use Rattle.scp_script.specs.Loop.{AreKeptFor, KeptInLine, TakesFirst};
ghost use Rattle.scp_script.specs.Used.{NextTold};
ghost use Rattle.scp_script.specs.Spending.{OpensOne, TextCause};

use crate::answers::{answer, deny_line};
use crate::progress::{CommandLoop, Finish, Progress};
use file_traits::{Failed, Files, Sink, Source, put_all};
use host_lines::Lines;
use scp_commands::{CommandFault, Session};
use scp_parser::ParseFault;
use session_texts::{OpenScript, Reading};
use std::alloc::Global;
use unit_trait::Unit;

/// A text of more than 512 bytes.
const TOO_LONG: CommandFault = CommandFault::Parse(ParseFault::TooLong);

/// Does the next text of a session: the action that waits first, or else the next line of the innermost script that has
/// one, or else one of the input, where that is read. First it takes memory for the notes of a command.
pub fn next_line<U: Unit, C: Source, F: Files, L: Lines, S: Sink>(
    alloc: Global,
    session: &mut Session<U>,
    lines: &mut CommandLoop,
    input: &mut C,
    files: &mut F,
    ports: &mut L,
    out: &mut S,
) -> Progress
    requires standard { AreStandard session.old.machine.units }
    requires open { AllOpen session.old.machine.slots (F.state files.old).opened }
    ensures told { NumbersSuffice session.old.command lines.old.budget → (lines.old.reads ≡ true → IsTrue C.tells)
        → (IsTrue L.tells → AreApart (L.state ports.old) session.old.machine.lines) → IsTrue S.tells
        → InStep (attached_files session.old.machine) (F.state files.old).files
        → (whole : List LineAnswer) → IsFirst (record_in (L.state ports.new).told) whole
        → NextTold F.tells L.tells (session_of session.old
        (beyond (F.state files.old).files (L.state ports.old) whole) lines.old (C.left input.old) []) → Stepped
        (session_of session.old (beyond (F.state files.old).files (L.state ports.old) whole) lines.old
        (C.left input.old)) result
        (session_of session.new (beyond (F.state files.new).files (L.state ports.new) whole) lines.new
        (C.left input.new)) (output (S.written out.old) (L.state ports.old).sent)
        (output (S.written out.new) (L.state ports.new).sent) (notes_said session.old.notes)
        (notes_said session.new.notes) }
    ensures still { (lines.old.reads ≡ true → IsTrue C.tells) → (IsTrue L.tells → ⊥) → (whole : List LineAnswer)
        → NextTold F.tells L.tells (session_of session.old
        (beyond (F.state files.old).files (L.state ports.old) whole) lines.old (C.left input.old) [])
        → L.state ports.new ≡ L.state ports.old }
    ensures step { (lines.old.reads ≡ true → IsTrue C.tells)
        → (IsTrue L.tells → AreApart (L.state ports.old) session.old.machine.lines)
        → (whole : List LineAnswer) → NextTold F.tells L.tells (session_of session.old
        (beyond (F.state files.old).files (L.state ports.old) whole) lines.old (C.left input.old) [])
        → StaysWhereAlone session.old session.new (F.state files.old).files (F.state files.new).files }
    ensures grows { Grows S.tells (S.written out.old) (S.written out.new) }
    ensures ports { LinesLeft L.tells (L.state ports.old) session.old.machine.lines (L.state ports.new)
        session.new.machine.lines }
    ensures cause { ProgressCause result (S.fault_count out.old) (S.fault_count out.new) (C.fault_count input.old)
        (C.fault_count input.new) }
    ensures pays { PaysFor lines.old.budget result lines.new.budget }
    ensures ends { TextCause lines.old.reads lines.old.texts.actions (still_open lines.old.texts.scripts) lines.old.budget result
        lines.new.budget }
    ensures scripts { OpensOne lines.old.texts.scripts result lines.new.texts.scripts }
    ensures command { session.new.command
        ≡ spent_more session.old.command (lines.old.budget - lines.new.budget) }
    ensures keeps { AreKeptFor F.tells (lines.old.budget - lines.new.budget) session.old.notes session.new.notes
        (F.state files.old) (F.state files.new) }
    ensures whose { AreOwn session.old.machine.slots session.new.machine.slots session.old.notes session.new.notes
        (F.state files.old) (F.state files.new) }
    ensures kept { KeptInLine result session.new.machine.slots session.new.notes (F.state files.old)
        (F.state files.new) }
    ensures drops { (lines.old.reads ≡ true → IsTrue C.tells) → TakesFirst (C.left input.old) (C.left input.new) }
    ensures unread { lines.old.reads ≡ false → input.new ≡ input.old }
    ensures reads { lines.new.reads ≡ lines.old.reads }
    ensures keys { session.new.keys ≡ session.old.keys }
    ensures limit { session.new.limit ≡ session.old.limit }
    ensures standard { AreStandard session.new.machine.units }
    ensures kinds { kinds_of session.new.machine.units ≡ kinds_of session.old.machine.units }
    ensures open { AllOpen session.new.machine.slots (F.state files.new).opened }
    ensures around { (base : List Opened) → Around session.old.machine.slots base (F.state files.old).opened
        → Around session.new.machine.slots base (F.state files.new).opened }
{
    if session.take_room().is_err() {
        return Progress::IsOver(Finish::OutOfMemory);
    }
    if !lines.texts.actions.is_empty() {
        return action(alloc, session, lines, files, ports, out);
    }
    match lines.texts.scripts.pop_open() {
        Some(script) => script_line(alloc, session, lines, script, files, ports, out),
        None if lines.reads => input_line(alloc, session, lines, input, files, ports, out),
        None => Progress::IsOver(Finish::Exit(0)),
    }
}

/// Does the action that waits first: it costs a unit, and nothing is printed before it.
fn action<U: Unit, F: Files, L: Lines, S: Sink>(
    alloc: Global,
    session: &mut Session<U>,
    lines: &mut CommandLoop,
    files: &mut F,
    ports: &mut L,
    out: &mut S,
) -> Progress
    requires some { lines.old.texts.actions ≢ [] }
    requires standard { AreStandard session.old.machine.units }
    requires open { AllOpen session.old.machine.slots (F.state files.old).opened }
    ensures told { NumbersSuffice session.old.command lines.old.budget
        → (IsTrue L.tells → AreApart (L.state ports.old) session.old.machine.lines) → IsTrue S.tells
        → InStep (attached_files session.old.machine) (F.state files.old).files
        → (whole : List LineAnswer) → IsFirst (record_in (L.state ports.new).told) whole → (input : List ℕ)
        → NextTold F.tells L.tells (session_of session.old
        (beyond (F.state files.old).files (L.state ports.old) whole) lines.old input []) → Stepped
        (session_of session.old (beyond (F.state files.old).files (L.state ports.old) whole) lines.old input) result
        (session_of session.new (beyond (F.state files.new).files (L.state ports.new) whole) lines.new input)
        (output (S.written out.old) (L.state ports.old).sent) (output (S.written out.new) (L.state ports.new).sent)
        (notes_said session.old.notes) (notes_said session.new.notes) }
    ensures still { (IsTrue L.tells → ⊥) → (whole : List LineAnswer) (input : List ℕ)
        → NextTold F.tells L.tells (session_of session.old
        (beyond (F.state files.old).files (L.state ports.old) whole) lines.old input [])
        → L.state ports.new ≡ L.state ports.old }
    ensures step { (IsTrue L.tells → AreApart (L.state ports.old) session.old.machine.lines)
        → (whole : List LineAnswer) (input : List ℕ) → NextTold F.tells L.tells (session_of session.old
        (beyond (F.state files.old).files (L.state ports.old) whole) lines.old input [])
        → StaysWhereAlone session.old session.new (F.state files.old).files (F.state files.new).files }
    ensures grows { Grows S.tells (S.written out.old) (S.written out.new) }
    ensures ports { LinesLeft L.tells (L.state ports.old) session.old.machine.lines (L.state ports.new)
        session.new.machine.lines }
    ensures cause { (source : ℕ) → ProgressCause result (S.fault_count out.old) (S.fault_count out.new) source source }
    ensures pays { PaysFor lines.old.budget result lines.new.budget }
    ensures ends { TextCause lines.old.reads lines.old.texts.actions (still_open lines.old.texts.scripts) lines.old.budget result
        lines.new.budget }
    ensures scripts { OpensOne lines.old.texts.scripts result lines.new.texts.scripts }
    ensures command { session.new.command
        ≡ spent_more session.old.command (lines.old.budget - lines.new.budget) }
    ensures keeps { AreKeptFor F.tells (lines.old.budget - lines.new.budget) session.old.notes session.new.notes
        (F.state files.old) (F.state files.new) }
    ensures whose { AreOwn session.old.machine.slots session.new.machine.slots session.old.notes session.new.notes
        (F.state files.old) (F.state files.new) }
    ensures kept { KeptInLine result session.new.machine.slots session.new.notes (F.state files.old)
        (F.state files.new) }
    ensures reads { lines.new.reads ≡ lines.old.reads }
    ensures keys { session.new.keys ≡ session.old.keys }
    ensures limit { session.new.limit ≡ session.old.limit }
    ensures standard { AreStandard session.new.machine.units }
    ensures kinds { kinds_of session.new.machine.units ≡ kinds_of session.old.machine.units }
    ensures open { AllOpen session.new.machine.slots (F.state files.new).opened }
    ensures around { (base : List Opened) → Around session.old.machine.slots base (F.state files.old).opened
        → Around session.new.machine.slots base (F.state files.new).opened }
{
    if !pay(session, lines, 1) {
        return Progress::IsOver(Finish::Commands);
    }
    let mut text = [0u8; 512];
    match lines.texts.actions.take(&mut text) {
        Some(length) => answer(
            alloc,
            session,
            &text[..length],
            &mut lines.texts,
            files,
            ports,
            out,
        ),
        None => Progress::GoesOn,
    }
}

/// Does the next line of the input, where no script is open and there is room for notes: the prompt comes first where
/// it is on, then the reading, and the command. Where the input has ended, all files are closed, and the port of the
/// second teletype is given up.
fn input_line<U: Unit, C: Source, F: Files, L: Lines, S: Sink>(
    alloc: Global,
    session: &mut Session<U>,
    lines: &mut CommandLoop,
    input: &mut C,
    files: &mut F,
    ports: &mut L,
    out: &mut S,
) -> Progress
    requires actions { lines.old.texts.actions ≡ [] }
    requires scripts { lines.old.texts.scripts ≡ [] }
    requires reads { lines.old.reads ≡ true }
    requires room { 16 ≤ session.old.spare }
    requires standard { AreStandard session.old.machine.units }
    requires open { AllOpen session.old.machine.slots (F.state files.old).opened }
    ensures told { NumbersSuffice session.old.command lines.old.budget → IsTrue C.tells
        → (IsTrue L.tells → AreApart (L.state ports.old) session.old.machine.lines) → IsTrue S.tells
        → InStep (attached_files session.old.machine) (F.state files.old).files
        → (whole : List LineAnswer) → IsFirst (record_in (L.state ports.new).told) whole
        → NextTold F.tells L.tells (session_of session.old
        (beyond (F.state files.old).files (L.state ports.old) whole) lines.old (C.left input.old) []) → Stepped
        (session_of session.old (beyond (F.state files.old).files (L.state ports.old) whole) lines.old
        (C.left input.old)) result
        (session_of session.new (beyond (F.state files.new).files (L.state ports.new) whole) lines.new
        (C.left input.new)) (output (S.written out.old) (L.state ports.old).sent)
        (output (S.written out.new) (L.state ports.new).sent) (notes_said session.old.notes)
        (notes_said session.new.notes) }
    ensures still { IsTrue C.tells → (IsTrue L.tells → ⊥) → (whole : List LineAnswer)
        → NextTold F.tells L.tells (session_of session.old
        (beyond (F.state files.old).files (L.state ports.old) whole) lines.old (C.left input.old) [])
        → L.state ports.new ≡ L.state ports.old }
    ensures step { IsTrue C.tells
        → (IsTrue L.tells → AreApart (L.state ports.old) session.old.machine.lines)
        → (whole : List LineAnswer) → NextTold F.tells L.tells (session_of session.old
        (beyond (F.state files.old).files (L.state ports.old) whole) lines.old (C.left input.old) [])
        → StaysWhereAlone session.old session.new (F.state files.old).files (F.state files.new).files }
    ensures grows { Grows S.tells (S.written out.old) (S.written out.new) }
    ensures ports { LinesLeft L.tells (L.state ports.old) session.old.machine.lines (L.state ports.new)
        session.new.machine.lines }
    ensures cause { ProgressCause result (S.fault_count out.old) (S.fault_count out.new) (C.fault_count input.old)
        (C.fault_count input.new) }
    ensures pays { PaysFor lines.old.budget result lines.new.budget }
    ensures ends { TextCause lines.old.reads [] [] lines.old.budget result
        lines.new.budget }
    ensures scripts { OpensOne lines.old.texts.scripts result lines.new.texts.scripts }
    ensures command { session.new.command
        ≡ spent_more session.old.command (lines.old.budget - lines.new.budget) }
    ensures keeps { AreKeptFor F.tells (lines.old.budget - lines.new.budget) session.old.notes session.new.notes
        (F.state files.old) (F.state files.new) }
    ensures whose { AreOwn session.old.machine.slots session.new.machine.slots session.old.notes session.new.notes
        (F.state files.old) (F.state files.new) }
    ensures kept { KeptInLine result session.new.machine.slots session.new.notes (F.state files.old)
        (F.state files.new) }
    ensures drops { IsTrue C.tells → TakesFirst (C.left input.old) (C.left input.new) }
    ensures reads { lines.new.reads ≡ lines.old.reads }
    ensures keys { session.new.keys ≡ session.old.keys }
    ensures limit { session.new.limit ≡ session.old.limit }
    ensures standard { AreStandard session.new.machine.units }
    ensures kinds { kinds_of session.new.machine.units ≡ kinds_of session.old.machine.units }
    ensures open { AllOpen session.new.machine.slots (F.state files.new).opened }
    ensures around { (base : List Opened) → Around session.old.machine.slots base (F.state files.old).opened
        → Around session.new.machine.slots base (F.state files.new).opened }
{
    match ask(lines.prompt, out) {
        Ok(()) => (),
        Err(_) => return Progress::IsOver(Finish::Console),
    }
    match read_paid(session, lines, input) {
        Reading::Line => answer(
            alloc,
            session,
            lines.reader.line(),
            &mut lines.texts,
            files,
            ports,
            out,
        ),
        Reading::TooLong => deny_line(session, TOO_LONG, &mut lines.texts, out),
        Reading::End => {
            match session.detach_all(files, ports) {
                Ok(()) => Progress::IsOver(Finish::EndOfInput),
                Err(_fault) => Progress::IsOver(Finish::FlushFailed),
            }
        }
        Reading::Unpaid => Progress::IsOver(Finish::Commands),
        Reading::Failed => Progress::IsOver(Finish::Input),
    }
}

/// Does the next line of a script, within which none is open: it is paid for, and then printed where the script's lines
/// are printed.
fn script_line<U: Unit, F: Files, L: Lines, S: Sink>(
    alloc: Global,
    session: &mut Session<U>,
    lines: &mut CommandLoop,
    mut script: OpenScript,
    files: &mut F,
    ports: &mut L,
    out: &mut S,
) -> Progress
    requires line { script.place < length script.text }
    requires actions { lines.old.texts.actions ≡ [] }
    requires scripts { length lines.old.texts.scripts < 10 }
    requires standard { AreStandard session.old.machine.units }
    requires open { AllOpen session.old.machine.slots (F.state files.old).opened }
    ensures told { NumbersSuffice session.old.command lines.old.budget
        → (IsTrue L.tells → AreApart (L.state ports.old) session.old.machine.lines) → IsTrue S.tells
        → InStep (attached_files session.old.machine) (F.state files.old).files
        → (whole : List LineAnswer) → IsFirst (record_in (L.state ports.new).told) whole → (input : List ℕ)
        → NextTold F.tells L.tells (session_of session.old
        (beyond (F.state files.old).files (L.state ports.old) whole)
        (record lines.old { texts = record lines.old.texts { scripts = script ∷ lines.old.texts.scripts } }) input [])
        → Stepped
        (session_of session.old (beyond (F.state files.old).files (L.state ports.old) whole)
        (record lines.old { texts = record lines.old.texts { scripts = script ∷ lines.old.texts.scripts } }) input)
        result
        (session_of session.new (beyond (F.state files.new).files (L.state ports.new) whole) lines.new input)
        (output (S.written out.old) (L.state ports.old).sent) (output (S.written out.new) (L.state ports.new).sent)
        (notes_said session.old.notes) (notes_said session.new.notes) }
    ensures still { (IsTrue L.tells → ⊥) → (whole : List LineAnswer) (input : List ℕ)
        → NextTold F.tells L.tells (session_of session.old
        (beyond (F.state files.old).files (L.state ports.old) whole)
        (record lines.old { texts = record lines.old.texts { scripts = script ∷ lines.old.texts.scripts } }) input [])
        → L.state ports.new ≡ L.state ports.old }
    ensures step { (IsTrue L.tells → AreApart (L.state ports.old) session.old.machine.lines)
        → (whole : List LineAnswer) (input : List ℕ) → NextTold F.tells L.tells (session_of session.old
        (beyond (F.state files.old).files (L.state ports.old) whole)
        (record lines.old { texts = record lines.old.texts { scripts = script ∷ lines.old.texts.scripts } }) input [])
        → StaysWhereAlone session.old session.new (F.state files.old).files (F.state files.new).files }
    ensures grows { Grows S.tells (S.written out.old) (S.written out.new) }
    ensures ports { LinesLeft L.tells (L.state ports.old) session.old.machine.lines (L.state ports.new)
        session.new.machine.lines }
    ensures cause { (source : ℕ) → ProgressCause result (S.fault_count out.old) (S.fault_count out.new) source source }
    ensures pays { PaysFor lines.old.budget result lines.new.budget }
    ensures ends { TextCause lines.old.reads [] (script ∷ lines.old.texts.scripts) lines.old.budget result
        lines.new.budget }
    ensures scripts { OpensOne (script ∷ lines.old.texts.scripts) result lines.new.texts.scripts }
    ensures command { session.new.command
        ≡ spent_more session.old.command (lines.old.budget - lines.new.budget) }
    ensures keeps { AreKeptFor F.tells (lines.old.budget - lines.new.budget) session.old.notes session.new.notes
        (F.state files.old) (F.state files.new) }
    ensures whose { AreOwn session.old.machine.slots session.new.machine.slots session.old.notes session.new.notes
        (F.state files.old) (F.state files.new) }
    ensures kept { KeptInLine result session.new.machine.slots session.new.notes (F.state files.old)
        (F.state files.new) }
    ensures reads { lines.new.reads ≡ lines.old.reads }
    ensures keys { session.new.keys ≡ session.old.keys }
    ensures limit { session.new.limit ≡ session.old.limit }
    ensures standard { AreStandard session.new.machine.units }
    ensures kinds { kinds_of session.new.machine.units ≡ kinds_of session.old.machine.units }
    ensures open { AllOpen session.new.machine.slots (F.state files.new).opened }
    ensures around { (base : List Opened) → Around session.old.machine.slots base (F.state files.old).opened
        → Around session.new.machine.slots base (F.state files.new).opened }
{
    if !pay(session, lines, script.line_cost()) {
        return Progress::IsOver(Finish::Commands);
    }
    match script.put_echo(out) {
        Ok(()) => (),
        Err(_) => return Progress::IsOver(Finish::Console),
    }
    let text = script.take_line();
    lines.texts.scripts.push(script);
    match text {
        Some(text) => answer(
            alloc,
            session,
            text.as_slice(),
            &mut lines.texts,
            files,
            ports,
            out,
        ),
        None => deny_line(session, TOO_LONG, &mut lines.texts, out),
    }
}

/// Pays for an action or a line of a script, where enough units are left, and counts them as spent. Answers whether it
/// is paid.
fn pay<U: Unit>(session: &mut Session<U>, lines: &mut CommandLoop, cost: u64) -> bool
    ensures paid { result ≡ true → (cost ≤ lines.old.budget) × (lines.new.budget ≡ lines.old.budget - cost) }
    ensures unpaid { result ≡ false → (lines.old.budget < cost) × (lines.new.budget ≡ lines.old.budget) }
    ensures command { session.new.command
        ≡ spent_more session.old.command (lines.old.budget - lines.new.budget) }
    ensures rest { session.new ≡ record session.old { command = session.new.command } }
    ensures lines { lines.new ≡ record lines.old { budget = lines.new.budget } }
{
    if lines.budget < cost {
        return false;
    }
    lines.budget -= cost;
    session.command = session.command.saturating_add(cost);
    true
}

/// Reads the next line, and counts the units that it costs as spent.
fn read_paid<U: Unit, C: Source>(
    session: &mut Session<U>,
    lines: &mut CommandLoop,
    input: &mut C,
) -> Reading
    ensures reads { IsTrue C.tells
        → IsReading lines.old.budget lines.old.reader.open_ (C.left input.old) result lines.new.budget lines.new.reader
        (C.left input.new) }
    ensures pays { Pays lines.old.budget result lines.new.budget }
    ensures cause { result ≡ Reading.Failed → C.fault_count input.new ≡ raised (C.fault_count input.old) }
    ensures quiet { result ≢ Reading.Failed → C.fault_count input.new ≡ C.fault_count input.old }
    ensures prompt { lines.new.prompt ≡ lines.old.prompt }
    ensures reading { lines.new.reads ≡ lines.old.reads }
    ensures texts { lines.new.texts ≡ lines.old.texts }
    ensures command { session.new.command
        ≡ spent_more session.old.command (lines.old.budget - lines.new.budget) }
    ensures rest { session.new ≡ record session.old { command = session.new.command } }
{
    let before = lines.budget;
    let reading = lines.reader.read_line(input, &mut lines.budget);
    session.command = session.command.saturating_add(before - lines.budget);
    reading
}

/// Prints the prompt, where it is on.
fn ask<S: Sink>(prompt: bool, out: &mut S) -> Result<(), Failed>
    ensures told { IsTrue S.tells → Puts (S.written out.old) (prompt_text prompt) result (S.written out.new) }
    ensures counts { CountsFault (S.fault_count out.old) (S.fault_count out.new) result }
{
    if prompt {
        put_all(out, b"sim> ")
    } else {
        Ok(())
    }
}
