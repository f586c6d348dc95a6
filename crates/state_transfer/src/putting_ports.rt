// The ports of a saved session are listened on, and its lines get them.
ghost use Rattle.std.specs.Prelude.{◌≡◌, ◌≢◌, ◌+◌, ◌≤◌, ◌^◌, ◌++◌, [], IsOk, OnOk, OnErr, IfErr};
ghost use Rattle.terminal_ports.specs.Listening.{rising, ListensEach};
ghost use Rattle.terminal_ports.specs.Rows.{row_from, with_ports};
ghost use Rattle.nova_machine.specs.Machine.{console_place};
ghost use Rattle.state_transfer.specs.Listening.{GivesUpEach, IsHeardOn, IsPortFault, port_fault};
ghost use Rattle.state_transfer.specs.Ports.{how_many, is_line, assigned, ports_wanted};

use host_lines::{Lines, ListenFault};
use line_rows::put_row;
use nova_machine::Machine;
use saved_files::RestoreFault;
use saved_session::SavedPorts;
use std::alloc::Global;
use terminal_ports::listen_up;
use unit_trait::Unit;

// Why a port is not listened on.
fn fault_of(fault: ListenFault) -> RestoreFault
    ensures { result ≡ port_fault fault }
{
    match fault {
        ListenFault::Failed => RestoreFault::Port,
        ListenFault::OutOfMemory => RestoreFault::OutOfMemory,
    }
}

// ---- what is asked of the outside

// A port and those behind it, so many in all: none where that is 0.
#[derive(Clone, Copy)]
struct Row {
    port: u16,
    count: u8,
}

// Listens on the ports of a row, or on none of them. Of no port nothing is asked.
fn listen_row<L: Lines>(alloc: Global, row: Row, lines: &mut L) -> Result<(), ListenFault>
    requires range { row.port + row.count ≤ 2 ^ 16 }
    ensures outside { ListensEach L.tells (rising row.count row.port) result (L.state lines.old) (L.state lines.new) }
    ensures none { row.count ≡ 0 → IsOk result × (lines.new ≡ lines.old) }
{
    if row.count == 0 {
        return Ok(());
    }
    listen_up(alloc, row.port as u32, row.count, lines)
}

// Listens no longer on so many ports, from one on, the last one first.
fn give_up<L: Lines>(port: u32, count: u8, lines: &mut L)
    requires range { port + count ≤ 2 ^ 16 }
    ensures { GivesUpEach (rising count port) (L.state lines.old) (L.state lines.new) }
{
    if count == 0 {
        return;
    }
    give_up(port + 1, count - 1, lines);
    lines.unlisten(port as u16);
}

// Listens on the ports of one row and then on those of another. Where one is not to be had, all before it are given up.
fn listen_two<L: Lines>(
    alloc: Global,
    first: Row,
    second: Row,
    lines: &mut L,
) -> Result<(), ListenFault>
    requires first { first.port + first.count ≤ 2 ^ 16 }
    requires second { second.port + second.count ≤ 2 ^ 16 }
    ensures outside { ListensEach L.tells (rising first.count first.port ++ rising second.count second.port)
        result (L.state lines.old) (L.state lines.new) }
    ensures none { first.count ≡ 0 → second.count ≡ 0 → IsOk result × (lines.new ≡ lines.old) }
{
    listen_row(alloc, first, lines)?;
    match listen_row(alloc, second, lines) {
        Ok(()) => Ok(()),
        Err(fault) => {
            give_up(first.port as u32, first.count, lines);
            Err(fault)
        }
    }
}

// The same of three rows.
fn listen_three<L: Lines>(
    alloc: Global,
    first: Row,
    second: Row,
    third: Row,
    lines: &mut L,
) -> Result<(), ListenFault>
    requires first { first.port + first.count ≤ 2 ^ 16 }
    requires second { second.port + second.count ≤ 2 ^ 16 }
    requires third { third.port + third.count ≤ 2 ^ 16 }
    ensures outside { ListensEach L.tells (rising first.count first.port
        ++ (rising second.count second.port ++ rising third.count third.port)) result (L.state lines.old) (L.state lines.new) }
    ensures none { first.count ≡ 0 → second.count ≡ 0 → third.count ≡ 0 → IsOk result × (lines.new ≡ lines.old) }
{
    listen_row(alloc, first, lines)?;
    match listen_two(alloc, second, third, lines) {
        Ok(()) => Ok(()),
        Err(fault) => {
            give_up(first.port as u32, first.count, lines);
            Err(fault)
        }
    }
}

// ---- what the lines get

// Gives the console line a port, or leaves it as it is.
fn put_console<U: Unit>(machine: &mut Machine<U>, port: u16, count: u8)
    requires { count ≤ 1 }
    ensures { machine.new ≡ record machine.old {
      lines = with_ports (row_from count console_place port) machine.old.lines;
    } }
{
    if count != 0 {
        machine.console().set_port(Some(port));
    }
}

// ---- all of it

// Whether a terminal line is there.
fn has_line<U: Unit>(machine: &Machine<U>, number: u8) -> bool
    ensures { result ≡ is_line number machine.now.lines }
{
    match machine.line_at(number) {
        Some(_line) => true,
        None => false,
    }
}

// The ports of a row of so many lines: none where the first one is 0, or where the lines are not there.
fn row_of(port: u16, count: u8, there: bool) -> Row
    ensures port { result.port ≡ port }
    ensures count { result.count ≡ how_many port count there }
    ensures few { result.count ≤ count }
{
    Row {
        port,
        count: if there && port != 0 { count } else { 0 },
    }
}

/// Gives lines the ports of a saved session, which are listened on: line 0 its own, then lines 1 to 64 theirs, which
/// rise by one, and then the console line its own. 0 is none. Lines that are not there get none, and where none gets
/// one nothing changes. Where one port is not to be had, those before it are given up again. The refusals are `Port`
/// and `OutOfMemory` alone, and the machine is then as it was.
pub fn put_ports<U: Unit, L: Lines>(
    alloc: Global,
    machine: &mut Machine<U>,
    ports: SavedPorts,
    lines: &mut L,
) -> Result<(), RestoreFault>
    requires range { ports.qty ≤ 65472 }
    ensures ok { OnOk result (machine.new ≡ record machine.old {
      lines = with_ports (assigned ports machine.old.lines) machine.old.lines;
    }) }
    ensures refused { OnErr result (machine.new ≡ machine.old) }
    ensures outside { IsHeardOn L.tells (ports_wanted ports machine.old.lines) result (L.state lines.old) (L.state lines.new) }
    ensures none { ports_wanted ports machine.old.lines ≡ [] → IsOk result × (lines.new ≡ lines.old) }
    ensures wanted { OnErr result (ports_wanted ports machine.old.lines ≢ []) }
    ensures fault { IfErr result IsPortFault }
{
    let terminal = row_of(ports.tti1, 1, has_line(machine, 0));
    let multiplexer = row_of(ports.qty, 64, has_line(machine, 64));
    let console = row_of(ports.console, 1, true);
    match listen_three(alloc, terminal, multiplexer, console, lines) {
        Ok(()) => {
            put_row(machine, 1, ports.tti1 as u32, terminal.count);
            put_row(machine, 2, ports.qty as u32, multiplexer.count);
            put_console(machine, ports.console, console.count);
            Ok(())
        }
        Err(fault) => Err(fault_of(fault)),
    }
}
