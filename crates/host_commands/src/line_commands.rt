// ATTACH and DETACH of the units whose lines have ports in place of a file, and SET of the second teletype.
ghost use Rattle.std.specs.Prelude.{◌≡◌, ◌+◌, ◌≤◌, ◌^◌, Bool, false, List, IsTrue, IsSome, nat_le, IfSome, None, Err};
ghost use Rattle.file_traits.specs.Lists.{NamedBytes};
ghost use Rattle.host_lines.specs.Traffic.{Answer as LineAnswer};
ghost use Rattle.host_lines.specs.Told.{IsFirst, record_in};
ghost use Rattle.telnet_lines.specs.Joined.{KeepsParties};
ghost use Rattle.telnet_lines.specs.Many.{AreApart};
ghost use Rattle.terminal_ports.specs.Rows.{AreFree};
ghost use Rattle.scp_parser.specs.Command.{AttachPort};
ghost use Rattle.unit_list.specs.Bus.{kinds_of};
ghost use Rattle.nova_machine.specs.Machine.{attached_files, line_count};
ghost use Rattle.nova_machine.specs.Comes.{Output};
ghost use Rattle.nova_machine.specs.LineChanges.{AreLinesTold};
ghost use Rattle.command_session.specs.declared.fault.CommandFault.TheVariants.{OutOfMemory};
ghost use Rattle.command_session.specs.Live.{live_in, beyond, standing};
ghost use Rattle.command_session.specs.LineEffects.{first_place, has_row, are_ports, attach_fault, detach_fault, hung};
ghost use Rattle.command_session.specs.LineEffects.{attach_port_reply, detach_port_reply, disconnect_reply};
ghost use Rattle.command_session.specs.LinesLeft.{LinesLeft, GivesUp, Unlistened, AttachCause, needs_port};
ghost use Rattle.command_session.specs.PortAnswers.{AttachesPort, AttachesRow, Tried, DetachesPort, Disconnects};
ghost use Rattle.command_session.specs.Refusals.{IsUnrefused};
ghost use Rattle.command_session.specs.Answers.{OfLine, OfPort};
ghost use Rattle.command_session.specs.Doing.{Does, IsOfPort, IsPlain, IsExitAnswer, IsRefused};
ghost use Rattle.host_commands.specs.HostEffect.{missing_by};

use command_session::{
    CommandFault, LineRow, Next, Session, TERMINAL, close_row, hang_up, row_for,
};
use host_lines::{Lines, ListenFault};
use line_rows::{are_taken, first_port, has_row, put_row};
use nova_machine::Machine;
use std::alloc::Global;
use telnet_lines::Line;
use terminal_ports::listen_up;
use unit_trait::{Kind, Unit};

/// ATTACH listens on ports for the lines of a unit, where no line has one of them: on one for the second teletype, and
/// for the multiplexer on 64, from that one on. Ports are numbered from 1 to 65535. Where it is refused, the lines are
/// as they were, and the ports before one that is not to be had are given up again. It prints nothing.
pub fn attach_port<U: Unit, L: Lines>(
    alloc: Global,
    session: &mut Session<U>,
    kind: Kind,
    port: u64,
    lines: &mut L,
) -> Result<Next, CommandFault>
    ensures refused { IsRefused result
        → (session.new.machine ≡ session.old.machine) × (session.new.watch ≡ session.old.watch) }
    ensures told { IsTrue L.tells → AreApart (L.state lines.old) session.old.machine.lines
        → (whole : List LineAnswer) → IsFirst (record_in (L.state lines.new).told) whole
        → (files : List NamedBytes) (tells : Bool) (text : Output)
        → Does (attach_port_reply (live_in session.old (beyond files (L.state lines.old) whole)) kind port) result
        (standing 0 (live_in session.new (beyond files (L.state lines.new) whole))) tells text text }
    ensures left { LinesLeft L.tells (L.state lines.old) session.old.machine.lines (L.state lines.new)
        session.new.machine.lines }
    ensures sent { (L.state lines.new).sent ≡ (L.state lines.old).sent }
    ensures unasked { IsRefused result → (Unlistened result → ⊥) → lines.new ≡ lines.old }
    ensures cause { AttachCause L.tells kind port result (L.state lines.old) (L.state lines.new) }
    ensures line { AttachesPort L.tells kind port result (L.state lines.old) session.old.machine.lines
        (L.state lines.new) session.new.machine.lines }
    ensures missing { missing_by kind result session.old.machine.units }
    ensures unrefused { result ≡ Err OutOfMemory
        → IsUnrefused (AttachPort kind port) session.old.machine session.old.watch }
    ensures answers { OfPort result }
    ensures own { IsOfPort result }
    ensures exit { IsExitAnswer result }
    ensures rest { session.new ≡ record session.old { machine = session.new.machine } }
    ensures kinds { kinds_of session.new.machine.units ≡ kinds_of session.old.machine.units }
    ensures attached { attached_files session.new.machine ≡ attached_files session.old.machine }
    ensures slots { session.new.machine.slots ≡ session.old.machine.slots }
    ensures time { session.new.machine.time ≡ session.old.machine.time }
{
    attach_row(alloc, &mut session.machine, row_for(kind), port, lines)
}

/// DETACH drops the connections to the lines of a unit, where they stand, and gives up their ports: one of the second
/// teletype, and 64 of the multiplexer. It prints nothing.
pub fn detach_port<U: Unit, L: Lines>(
    session: &mut Session<U>,
    kind: Kind,
    lines: &mut L,
) -> Result<Next, CommandFault>
    ensures refused { IsRefused result
        → (session.new.machine ≡ session.old.machine) × (session.new.watch ≡ session.old.watch) }
    ensures told { AreLinesTold L.tells (L.state lines.old) session.old.machine.lines
        → (whole : List LineAnswer) (files : List NamedBytes) (tells : Bool) (text : Output)
        → Does (detach_port_reply (live_in session.old (beyond files (L.state lines.old) whole)) kind) result
        (standing 0 (live_in session.new (beyond files (L.state lines.new) whole))) tells text text }
    ensures left { LinesLeft L.tells (L.state lines.old) session.old.machine.lines (L.state lines.new)
        session.new.machine.lines }
    ensures sent { (L.state lines.new).sent ≡ (L.state lines.old).sent }
    ensures unasked { IsRefused result → lines.new ≡ lines.old }
    ensures line { DetachesPort kind result (L.state lines.old) session.old.machine.lines (L.state lines.new)
        session.new.machine.lines }
    ensures missing { missing_by kind result session.old.machine.units }
    ensures answers { OfLine result }
    ensures own { IsPlain result }
    ensures port { IsOfPort result }
    ensures exit { IsExitAnswer result }
    ensures rest { session.new ≡ record session.old { machine = session.new.machine } }
    ensures kinds { kinds_of session.new.machine.units ≡ kinds_of session.old.machine.units }
    ensures attached { attached_files session.new.machine ≡ attached_files session.old.machine }
    ensures slots { session.new.machine.slots ≡ session.old.machine.slots }
    ensures time { session.new.machine.time ≡ session.old.machine.time }
{
    let row = row_for(kind);
    match detach_refusal(&session.machine, row) {
        Some(fault) => Err(fault),
        None => {
            close_row(&mut session.machine, row, lines);
            Ok(Next::Go)
        }
    }
}

/// SET DISCONNECT drops the connection to the second teletype, where one stands. Its port goes on to be listened on. It
/// prints nothing.
pub fn disconnect<U: Unit, L: Lines>(
    session: &mut Session<U>,
    lines: &mut L,
) -> Result<Next, CommandFault>
    ensures refused { IsRefused result
        → (session.new.machine ≡ session.old.machine) × (session.new.watch ≡ session.old.watch) }
    ensures told { AreLinesTold L.tells (L.state lines.old) session.old.machine.lines
        → (whole : List LineAnswer) (files : List NamedBytes) (tells : Bool) (text : Output)
        → Does (disconnect_reply (live_in session.old (beyond files (L.state lines.old) whole))) result
        (standing 0 (live_in session.new (beyond files (L.state lines.new) whole))) tells text text }
    ensures left { LinesLeft L.tells (L.state lines.old) session.old.machine.lines (L.state lines.new)
        session.new.machine.lines }
    ensures sent { (L.state lines.new).sent ≡ (L.state lines.old).sent }
    ensures unasked { IsRefused result → lines.new ≡ lines.old }
    ensures line { Disconnects result (L.state lines.old) session.old.machine.lines (L.state lines.new)
        session.new.machine.lines }
    ensures answers { OfLine result }
    ensures own { IsPlain result }
    ensures port { IsOfPort result }
    ensures exit { IsExitAnswer result }
    ensures rest { session.new ≡ record session.old { machine = session.new.machine } }
    ensures kinds { kinds_of session.new.machine.units ≡ kinds_of session.old.machine.units }
    ensures attached { attached_files session.new.machine ≡ attached_files session.old.machine }
    ensures slots { session.new.machine.slots ≡ session.old.machine.slots }
    ensures time { session.new.machine.time ≡ session.old.machine.time }
{
    let Some(line) = session.machine.line(TERMINAL) else {
        return Err(CommandFault::NoSuchName);
    };
    disconnect_line(line, lines)
}

// ATTACH of ports to the lines of a row.
fn attach_row<U: Unit, L: Lines>(
    alloc: Global,
    machine: &mut Machine<U>,
    row: LineRow,
    port: u64,
    lines: &mut L,
) -> Result<Next, CommandFault>
    requires some { 1 ≤ row.count }
    requires last { row.number + row.count ≤ 65 }
    ensures told { AttachesRow L.tells row port result (L.state lines.old) machine.old.lines (L.state lines.new)
        machine.new.lines }
    ensures left { LinesLeft L.tells (L.state lines.old) machine.old.lines (L.state lines.new) machine.new.lines }
    ensures there { has_row row machine.old.lines ≡ nat_le (row.number + row.count) (line_count machine.old.units) }
    ensures unasked { IsRefused result → (Unlistened result → ⊥) → lines.new ≡ lines.old }
    ensures machine { machine.new ≡ record machine.old { lines = machine.new.lines } }
    ensures answers { OfPort result }
    ensures own { IsOfPort result }
    ensures exit { IsExitAnswer result }
{
    match attach_refusal(machine, row, port) {
        Some(fault) => Err(fault),
        None => listen_row(alloc, machine, row, port as u32, lines),
    }
}

// Why a row of lines is given no such ports, before any is listened on.
fn attach_refusal<U: Unit>(machine: &Machine<U>, row: LineRow, port: u64) -> Option<CommandFault>
    requires some { 1 ≤ row.count }
    requires last { row.number + row.count ≤ 65 }
    ensures fault { result ≡ attach_fault row port machine.now.lines }
    ensures range { result ≡ None → port + row.count ≤ 2 ^ 16 }
    ensures free { result ≡ None → AreFree row.count (first_place row) machine.now.lines }
    ensures there { has_row row machine.now.lines ≡ nat_le (row.number + row.count) (line_count machine.now.units) }
    ensures answers { IfSome result (λ f. OfPort (Err f)) }
    ensures own { IfSome result (λ f. IsPlain (Err f)) }
    ensures port { IfSome result (λ f. IsOfPort (Err f)) }
    ensures unlistened { IfSome result (λ f. Unlistened (Err f) → ⊥) }
{
    if !has_row(machine, row.number, row.count) {
        return Some(CommandFault::NoSuchName);
    }
    if first_port(machine, row.number, row.count).is_some() {
        return Some(CommandFault::AlreadyAttached);
    }
    if !are_ports(port, row.count) {
        return Some(CommandFault::OutOfRange);
    }
    if are_taken(machine, port as u32, row.count) {
        return Some(CommandFault::PortTaken);
    }
    None
}

// Whether so many ports, from that one on, are numbered from 1 to 65535.
fn are_ports(port: u64, count: u8) -> bool
    ensures ports { result ≡ are_ports port count }
    ensures range { IsTrue result → port + count ≤ 2 ^ 16 }
{
    1 <= port && port <= 65536 - u64::from(count)
}

// Listens on ports for the lines of a row, which get them where all are to be had.
fn listen_row<U: Unit, L: Lines>(
    alloc: Global,
    machine: &mut Machine<U>,
    row: LineRow,
    port: u32,
    lines: &mut L,
) -> Result<Next, CommandFault>
    requires last { row.number + row.count ≤ 65 }
    requires range { port + row.count ≤ 2 ^ 16 }
    ensures tried { Tried L.tells row port result (L.state lines.old) machine.old.lines (L.state lines.new)
        machine.new.lines }
    ensures machine { machine.new ≡ record machine.old { lines = machine.new.lines } }
    ensures unlistened { IsRefused result → Unlistened result }
    ensures answers { OfPort result }
    ensures own { IsOfPort result }
    ensures exit { IsExitAnswer result }
{
    match listen_up(alloc, port, row.count, lines) {
        Ok(()) => {
            put_row(machine, row.number, port, row.count);
            Ok(Next::Go)
        }
        Err(ListenFault::Failed) => Err(CommandFault::PortFailed),
        Err(ListenFault::OutOfMemory) => Err(CommandFault::OutOfMemory),
    }
}

// What a row of lines lacks, so that its ports can't be given up.
fn detach_refusal<U: Unit>(machine: &Machine<U>, row: LineRow) -> Option<CommandFault>
    requires some { 1 ≤ row.count }
    requires last { row.number + row.count ≤ 65 }
    ensures fault { result ≡ detach_fault row machine.now.lines }
    ensures there { has_row row machine.now.lines ≡ nat_le (row.number + row.count) (line_count machine.now.units) }
    ensures answers { IfSome result (λ f. OfLine (Err f)) }
    ensures own { IfSome result (λ f. IsPlain (Err f)) }
    ensures port { IfSome result (λ f. IsOfPort (Err f)) }
{
    if !has_row(machine, row.number, row.count) {
        return Some(CommandFault::NoSuchName);
    }
    if first_port(machine, row.number, row.count).is_none() {
        return Some(CommandFault::NotAttached);
    }
    None
}

// DISCONNECT of a line.
fn disconnect_line<L: Lines>(line: &mut Line, lines: &mut L) -> Result<Next, CommandFault>
    ensures answer { result ≡ needs_port line.old.port }
    ensures line { line.new ≡ hung line.old }
    ensures none { line.old.port ≡ None → lines.new ≡ lines.old }
    ensures outside { IsSome line.old.port
        → GivesUp None line.old.connection (L.state lines.old) (L.state lines.new) }
    ensures parties { IsTrue L.tells
        → KeepsParties (L.state lines.old) line.old (L.state lines.new) line.new }
{
    match line.port() {
        None => Err(CommandFault::NotAttached),
        Some(_) => {
            hang_up(line, lines);
            Ok(Next::Go)
        }
    }
}
