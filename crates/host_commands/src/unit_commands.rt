// ATTACH and DETACH.
ghost use Rattle.std.specs.Prelude.{◌≡◌, ◌≢◌, ◌≤◌, ◌<◌, ◌^◌, ℕ, Bool, true, List, false, None, IsTrue, IfSome, is_some, Err};
ghost use Rattle.file_traits.specs.State.{Opened};
ghost use Rattle.unit_trait.specs.Kinds.{units_of, code_of};
ghost use Rattle.unit_list.specs.Bus.{unit_at, kinds_of};
ghost use Rattle.unit_files.specs.Attachments.{IsFileName};
ghost use Rattle.unit_files.specs.InStep.{InStep};
ghost use Rattle.unit_files.specs.Open.{AllOpen, Around};
ghost use Rattle.file_commands.specs.OwnFiles.{AreOwn};
ghost use Rattle.file_commands.specs.Notes.{notes_said};
ghost use Rattle.host_lines.specs.Traffic.{Answer as LineAnswer};
ghost use Rattle.host_lines.specs.State.{LineState};
ghost use Rattle.nova_machine.specs.Machine.{attached_files};
ghost use Rattle.nova_machine.specs.Comes.{Output};
ghost use Rattle.nova_machine.specs.LineChanges.{AreLinesTold};
ghost use Rattle.command_session.specs.declared.fault.CommandFault.TheVariants.{OutOfMemory};
ghost use Rattle.command_session.specs.Live.{live_in, beyond};
ghost use Rattle.command_session.specs.LineEffects.{is_terminal};
ghost use Rattle.command_session.specs.FileEffects.{lacks_unit, mode_of, first_place, positioned};
ghost use Rattle.command_session.specs.FileEffects.{attach_reply, detach_reply, detach_all_reply, detach_one_or_all};
ghost use Rattle.scp_parser.specs.Command.{Attach, Detach};
ghost use Rattle.command_session.specs.Refusals.{IsUnrefused, WasOpened};
ghost use Rattle.command_session.specs.Answers.{IsByTables, AnswersByTables, OfAttach, OfDetach, OfUnit, OfDetachAll, attach_refusal, detach_refusal};
ghost use Rattle.command_session.specs.FileWorks.{AttachWorks};
ghost use Rattle.command_session.specs.DiskFile.{StaysInStep, StaysWhereAlone};
ghost use Rattle.command_session.specs.LinesLeft.{LinesLeft};
ghost use Rattle.command_session.specs.PortAnswers.{DetachesUnit, ClosesAll};
ghost use Rattle.host_commands.specs.HostEffect.{MissesUnit};
ghost use Rattle.command_session.specs.Doing.{Did, IsTold, OpensForUnit, Keeps, KeepsAs, IsUndone, IsOwn, IsPlain, IsExitAnswer, IsRefused, AttachNote};

use crate::line_commands::detach_port;
use command_session::{CommandFault, Next, Session, is_terminal, lacks_unit, stamp_of};
use file_commands::{attach_unit, detach_unit};
use file_traits::Files;
use host_lines::Lines;
use nova_machine::Machine;
use std::alloc::Global;
use unit_files::{AttachMode, DetachFault};
use unit_trait::{Kind, POS, POS0, Unit, UnitName};

/// ATTACH opens a file for a unit, and sets POS to the place where the unit goes on in it. It prints nothing.
#[tactic(auto, unfolding(command_session::specs::FileEffects::attach_reply))]
pub fn attach<U: Unit, F: Files>(
    alloc: Global,
    session: &mut Session<U>,
    option: u8,
    unit: UnitName,
    name: &str,
    files: &mut F,
) -> Result<Next, CommandFault>
    requires room { 16 ≤ session.old.spare }
    requires unit { unit.unit < units_of unit.kind }
    requires name { IsFileName name.now }
    requires open { AllOpen session.old.machine.slots (F.state files.old).opened }
    ensures refused { IsRefused result
        → (session.new.machine ≡ session.old.machine) × (session.new.watch ≡ session.old.watch) }
    ensures told { (lines : LineState) (whole : List LineAnswer) (tells : Bool) (text : Output) → IsTrue F.tells
        → Did (λ notes. attach_reply notes (live_in session.old (beyond (F.state files.old).files lines whole))
        option unit name.now) session.old.command result
        (live_in session.new (beyond (F.state files.new).files lines whole)) tells text text
        (notes_said session.old.notes) (notes_said session.new.notes) }
    ensures step { IsTrue F.tells
        → StaysWhereAlone session.old session.new (F.state files.old).files (F.state files.new).files }
    ensures undone { (text : List ℕ) → result ≡ Err OutOfMemory
        → IsUndone false None true session.old session.new text text (F.state files.old) (F.state files.new) }
    ensures unrefused { result ≡ Err OutOfMemory
        → IsUnrefused (Attach option unit name.now) session.old.machine session.old.watch }
    ensures keeps { KeepsAs (OpensForUnit (mode_of option)) session.old.command session.new.machine.time F.tells result
        session.old.notes session.new.notes (F.state files.old) (F.state files.new) }
    ensures whose { AreOwn session.old.machine.slots session.new.machine.slots session.old.notes session.new.notes
        (F.state files.old) (F.state files.new) }
    ensures note { AttachNote (Attach option unit name.now) result
        (record { command = session.old.command; time = session.old.machine.time }) session.old.notes session.new.notes
        (F.state files.old) (F.state files.new) }
    ensures tables { result ≢ Err OutOfMemory → IsByTables (attach_refusal session.old.machine option unit) result }
    ensures answers { OfAttach unit result }
    ensures works { AttachWorks option unit name.now result session.old.machine session.new.machine }
    ensures opened { WasOpened result (F.state files.old) (F.state files.new) }
    ensures own { IsOwn result }
    ensures exit { IsExitAnswer result }
    ensures watch { session.new.watch ≡ session.old.watch }
    ensures terminals { session.new.machine.lines ≡ session.old.machine.lines }
    ensures keys { session.new.keys ≡ session.old.keys }
    ensures limit { session.new.limit ≡ session.old.limit }
    ensures command { session.new.command ≡ session.old.command }
    ensures kinds { kinds_of session.new.machine.units ≡ kinds_of session.old.machine.units }
    ensures open { AllOpen session.new.machine.slots (F.state files.new).opened }
    ensures around { (base : List Opened) → Around session.old.machine.slots base (F.state files.old).opened
        → Around session.new.machine.slots base (F.state files.new).opened }
{
    if lacks_unit(&session.machine, unit) {
        return Err(CommandFault::NoSuchName);
    }
    let stamp = stamp_of(session);
    let mode = mode_of(option);
    match attach_unit(
        alloc,
        session.machine.attached_mut(),
        unit,
        name,
        mode,
        files,
        &mut session.notes,
        stamp,
    ) {
        Ok(count) => {
            set_position(&mut session.machine, unit, first_place(unit.kind, count));
            Ok(Next::Go)
        }
        Err(fault) => Err(CommandFault::of_attach(fault)),
    }
}

/// DETACH closes a unit's file, or gives up the ports of the second teletype or of the multiplexer; where none is
/// named, all units lose their files, then the teletype its port, and then the multiplexer its ports. It prints
/// nothing.
pub fn detach_one_or_every<U: Unit, F: Files, L: Lines>(
    session: &mut Session<U>,
    unit: Option<UnitName>,
    files: &mut F,
    lines: &mut L,
) -> Result<Next, CommandFault>
    requires room { 16 ≤ session.old.spare }
    requires unit { IfSome unit (λ u. u.unit < units_of u.kind) }
    requires open { AllOpen session.old.machine.slots (F.state files.old).opened }
    ensures refused { IsRefused result
        → (session.new.machine ≡ session.old.machine) × (session.new.watch ≡ session.old.watch) }
    ensures told { IsTold F.tells session.old.machine.slots L.tells (L.state lines.old) session.old.machine.lines
        (Detach unit) → InStep (attached_files session.old.machine) (F.state files.old).files
        → (whole : List LineAnswer) (tells : Bool) (text : Output)
        → Did (λ notes. detach_one_or_all notes
        (live_in session.old (beyond (F.state files.old).files (L.state lines.old) whole)) unit) session.old.command
        result (live_in session.new (beyond (F.state files.new).files (L.state lines.new) whole)) tells text text
        (notes_said session.old.notes) (notes_said session.new.notes) }
    ensures step { StaysInStep session.old session.new (F.state files.old).files (F.state files.new).files }
    ensures keeps { Keeps session.old.command session.new.machine.time F.tells result session.old.notes
        session.new.notes (F.state files.old) (F.state files.new) }
    ensures whose { AreOwn session.old.machine.slots session.new.machine.slots session.old.notes session.new.notes
        (F.state files.old) (F.state files.new) }
    ensures tables { AnswersByTables session.old.machine (Detach unit) result }
    ensures answers { OfDetach unit result }
    ensures own { IsPlain result }
    ensures exit { IsExitAnswer result }
    ensures watch { session.new.watch ≡ session.old.watch }
    ensures left { LinesLeft L.tells (L.state lines.old) session.old.machine.lines (L.state lines.new)
        session.new.machine.lines }
    ensures unasked { IsRefused result → lines.new ≡ lines.old }
    ensures line { DetachesUnit unit result (L.state lines.old) session.old.machine.lines (L.state lines.new)
        session.new.machine.lines }
    ensures missing { MissesUnit (Detach unit) result session.old.machine.units }
    ensures sent { (L.state lines.new).sent ≡ (L.state lines.old).sent }
    ensures keys { session.new.keys ≡ session.old.keys }
    ensures limit { session.new.limit ≡ session.old.limit }
    ensures command { session.new.command ≡ session.old.command }
    ensures kinds { kinds_of session.new.machine.units ≡ kinds_of session.old.machine.units }
    ensures open { AllOpen session.new.machine.slots (F.state files.new).opened }
    ensures around { (base : List Opened) → Around session.old.machine.slots base (F.state files.old).opened
        → Around session.new.machine.slots base (F.state files.new).opened }
{
    match unit {
        None => detach_every(session, files, lines),
        Some(unit) if is_terminal(unit) => detach_port(session, unit.kind, lines),
        Some(unit) => detach(session, unit, files),
    }
}

// DETACH of a unit closes its file.
#[tactic(auto, unfolding(command_session::specs::FileEffects::detach_reply))]
fn detach<U: Unit, F: Files>(
    session: &mut Session<U>,
    unit: UnitName,
    files: &mut F,
) -> Result<Next, CommandFault>
    requires room { 16 ≤ session.old.spare }
    requires unit { unit.unit < units_of unit.kind }
    requires open { AllOpen session.old.machine.slots (F.state files.old).opened }
    ensures refused { IsRefused result
        → (session.new.machine ≡ session.old.machine) × (session.new.watch ≡ session.old.watch) }
    ensures told { InStep (attached_files session.old.machine) (F.state files.old).files
        → (lines : LineState) (whole : List LineAnswer) (tells : Bool) (text : Output)
        → Did (λ notes. detach_reply notes (live_in session.old (beyond (F.state files.old).files lines whole)) unit)
        session.old.command result (live_in session.new (beyond (F.state files.new).files lines whole)) tells text text
        (notes_said session.old.notes) (notes_said session.new.notes) }
    ensures step { StaysInStep session.old session.new (F.state files.old).files (F.state files.new).files }
    ensures keeps { Keeps session.old.command session.new.machine.time F.tells result session.old.notes
        session.new.notes (F.state files.old) (F.state files.new) }
    ensures whose { AreOwn session.old.machine.slots session.new.machine.slots session.old.notes session.new.notes
        (F.state files.old) (F.state files.new) }
    ensures tables { IsByTables (detach_refusal session.old.machine unit) result }
    ensures answers { OfUnit unit result }
    ensures own { IsPlain result }
    ensures exit { IsExitAnswer result }
    ensures watch { session.new.watch ≡ session.old.watch }
    ensures terminals { session.new.machine.lines ≡ session.old.machine.lines }
    ensures keys { session.new.keys ≡ session.old.keys }
    ensures limit { session.new.limit ≡ session.old.limit }
    ensures command { session.new.command ≡ session.old.command }
    ensures kinds { kinds_of session.new.machine.units ≡ kinds_of session.old.machine.units }
    ensures open { AllOpen session.new.machine.slots (F.state files.new).opened }
    ensures around { (base : List Opened) → Around session.old.machine.slots base (F.state files.old).opened
        → Around session.new.machine.slots base (F.state files.new).opened }
{
    if lacks_unit(&session.machine, unit) {
        return Err(CommandFault::NoSuchName);
    }
    let stamp = stamp_of(session);
    match detach_unit(
        session.machine.attached_mut(),
        unit,
        files,
        &mut session.notes,
        stamp,
    ) {
        Ok(_) => Ok(Next::Go),
        Err(fault) => Err(CommandFault::of_detach(fault)),
    }
}

// DETACH ALL takes the files of all units away, then the port of the second teletype, and then those of the
// multiplexer.
#[tactic(auto, unfolding(command_session::specs::FileEffects::detach_all_reply))]
fn detach_every<U: Unit, F: Files, L: Lines>(
    session: &mut Session<U>,
    files: &mut F,
    lines: &mut L,
) -> Result<Next, CommandFault>
    requires room { 16 ≤ session.old.spare }
    requires open { AllOpen session.old.machine.slots (F.state files.old).opened }
    ensures refused { IsRefused result
        → (session.new.machine ≡ session.old.machine) × (session.new.watch ≡ session.old.watch) }
    ensures told { AreLinesTold L.tells (L.state lines.old) session.old.machine.lines
        → InStep (attached_files session.old.machine) (F.state files.old).files
        → (whole : List LineAnswer) (tells : Bool) (text : Output)
        → Did (λ notes. detach_all_reply notes
        (live_in session.old (beyond (F.state files.old).files (L.state lines.old) whole))) session.old.command result
        (live_in session.new (beyond (F.state files.new).files (L.state lines.new) whole)) tells text text
        (notes_said session.old.notes) (notes_said session.new.notes) }
    ensures step { StaysInStep session.old session.new (F.state files.old).files (F.state files.new).files }
    ensures keeps { Keeps session.old.command session.new.machine.time F.tells result session.old.notes
        session.new.notes (F.state files.old) (F.state files.new) }
    ensures whose { AreOwn session.old.machine.slots session.new.machine.slots session.old.notes session.new.notes
        (F.state files.old) (F.state files.new) }
    ensures tables { IsByTables None result }
    ensures answers { OfDetachAll result }
    ensures own { IsPlain result }
    ensures exit { IsExitAnswer result }
    ensures watch { session.new.watch ≡ session.old.watch }
    ensures left { LinesLeft L.tells (L.state lines.old) session.old.machine.lines (L.state lines.new)
        session.new.machine.lines }
    ensures unasked { IsRefused result → lines.new ≡ lines.old }
    ensures line { ClosesAll result (L.state lines.old) session.old.machine.lines (L.state lines.new)
        session.new.machine.lines }
    ensures sent { (L.state lines.new).sent ≡ (L.state lines.old).sent }
    ensures keys { session.new.keys ≡ session.old.keys }
    ensures limit { session.new.limit ≡ session.old.limit }
    ensures command { session.new.command ≡ session.old.command }
    ensures kinds { kinds_of session.new.machine.units ≡ kinds_of session.old.machine.units }
    ensures open { AllOpen session.new.machine.slots (F.state files.new).opened }
    ensures around { (base : List Opened) → Around session.old.machine.slots base (F.state files.old).opened
        → Around session.new.machine.slots base (F.state files.new).opened }
{
    match session.detach_all(files, lines) {
        Ok(()) => Ok(Next::Go),
        Err(fault) => Err(CommandFault::of_detach(DetachFault::Failed(fault))),
    }
}

// How a file is attached, by the letter of the option.
fn mode_of(option: u8) -> AttachMode
    ensures { result ≡ mode_of option }
{
    match option {
        b'E' => AttachMode::MustExist,
        b'N' => AttachMode::New,
        b'R' => AttachMode::ReadOnly,
        _ => AttachMode::Any,
    }
}

// Where a unit goes on in its file: one that only writes at its end, and one that reads at its beginning.
fn first_place(kind: Kind, count: u64) -> u64
    ensures place { result ≡ first_place kind count }
    ensures bound { result ≤ count }
{
    match kind {
        Kind::Lpt | Kind::Ptp => count,
        _ => 0,
    }
}

// Sets the register that says where a unit is in its file.
fn set_position<U: Unit>(machine: &mut Machine<U>, unit: UnitName, place: u64)
    requires there { IsTrue (is_some (unit_at (code_of unit.kind) machine.old.units)) }
    requires unit { unit.unit < units_of unit.kind }
    requires place { place ≤ 8 ^ 8 }
    ensures { machine.new ≡ record machine.old { units = positioned unit place machine.old.units } }
{
    match unit.kind {
        Kind::Mta => {
            let _fits = machine.set_unit_reg(Kind::Mta, POS0 + unit.unit, place as u32);
        }
        Kind::Lpt | Kind::Ptr | Kind::Ptp => {
            let _fits = machine.set_unit_reg(unit.kind, POS, place as u32);
        }
        _ => {}
    }
}
