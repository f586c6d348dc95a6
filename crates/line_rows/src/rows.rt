// What the terminal lines of a row are.
ghost use Rattle.std.specs.Prelude.{◌≡◌, ℕ, ◌+◌, ◌<◌, ◌≤◌, ◌^◌, nat_le, length, slice_get, None, IfSome};
ghost use Rattle.telnet_lines.specs.Line.{LineOf, unconnected};
ghost use Rattle.terminal_ports.specs.Ports.{is_taken};
ghost use Rattle.terminal_ports.specs.Rows.{port_at, first_port, AreFree, are_taken, is_connected, connected_in};
ghost use Rattle.nova_machine.specs.Machine.{place_of, line_count};

use nova_machine::Machine;
use terminal_ports::owns;
use unit_trait::Unit;

/// Whether the terminal lines of a row are all there: so many, from the line with that number on. The machine's units
/// say which lines it has.
pub fn has_row<U: Unit>(machine: &Machine<U>, number: u8, count: u8) -> bool
    requires some { 1 ≤ count }
    requires numbers { number + count < 2 ^ 8 }
    ensures lines { result ≡ nat_le (place_of number + count) (length machine.now.lines) }
    ensures units { result ≡ nat_le (number + count) (line_count machine.now.units) }
{
    machine.line_at(number + (count - 1)).is_some()
}

// ---- the ports that they have

/// The port of the first line of a row that has one. Where none has, nobody is connected to any of them, and nothing
/// waits.
pub fn first_port<U: Unit>(machine: &Machine<U>, number: u8, count: u8) -> Option<u16>
    requires numbers { number + count < 2 ^ 8 }
    ensures port { result ≡ first_port count (place_of number) machine.now.lines }
    ensures none { result ≡ None → AreFree count (place_of number) machine.now.lines }
{
    if count == 0 {
        return None;
    }
    match port_of(machine, number) {
        Some(port) => Some(port),
        None => first_port(machine, number + 1, count - 1),
    }
}

// The port of a terminal line, where that is there and has one.
fn port_of<U: Unit>(machine: &Machine<U>, number: u8) -> Option<u16>
    ensures port { result ≡ port_at (slice_get machine.now.lines (place_of number)) }
    ensures none { result ≡ None
        → IfSome (slice_get machine.now.lines (place_of number)) (λ (line : LineOf ℕ). line ≡ unconnected None) }
{
    match machine.line_at(number) {
        Some(line) => line.port(),
        None => None,
    }
}

/// Whether a line of the machine, the console line too, has one of so many ports, from that one on.
pub fn are_taken<U: Unit>(machine: &Machine<U>, port: u32, count: u8) -> bool
    requires range { port + count ≤ 2 ^ 16 }
    ensures { result ≡ are_taken count port machine.now.lines }
{
    if count == 0 {
        return false;
    }
    is_taken(machine, u64::from(port)) || are_taken(machine, port + 1, count - 1)
}

// Whether a line of the machine, the console line too, has that port.
fn is_taken<U: Unit>(machine: &Machine<U>, port: u64) -> bool
    ensures { result ≡ is_taken port machine.now.lines }
{
    owns(port, machine.console_at()) || terminal_ports::is_taken(port, machine.lines())
}

// ---- who is connected to them

/// To how many terminal lines of a row somebody is connected.
pub fn connected_in<U: Unit>(machine: &Machine<U>, number: u8, count: u8) -> u8
    requires numbers { number + count < 2 ^ 8 }
    ensures many { result ≡ connected_in count (place_of number) machine.now.lines }
    ensures most { result ≤ count }
{
    if count == 0 {
        return 0;
    }
    let others = connected_in(machine, number + 1, count - 1);
    if is_connected(machine, number) {
        others + 1
    } else {
        others
    }
}

// Whether somebody is connected to a terminal line.
fn is_connected<U: Unit>(machine: &Machine<U>, number: u8) -> bool
    ensures { result ≡ is_connected (slice_get machine.now.lines (place_of number)) }
{
    match machine.line_at(number) {
        Some(line) => line.connection().is_some(),
        None => false,
    }
}
