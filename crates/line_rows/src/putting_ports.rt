// The ports that the lines of a row get.
ghost use Rattle.std.specs.Prelude.{◌≡◌, ℕ, ◌+◌, ◌<◌, ◌≤◌, ◌^◌, Some};
ghost use Rattle.telnet_lines.specs.Line.{LineOf, unconnected};
ghost use Rattle.terminal_ports.specs.Ports.{changed_at};
ghost use Rattle.terminal_ports.specs.Rows.{row_from, with_ports};
ghost use Rattle.nova_machine.specs.Machine.{place_of};

use nova_machine::Machine;
use unit_trait::Unit;

/// Gives the terminal lines of a row their ports, from the line with that number on: the first gets that port, and
/// each other one the port behind that of the line before it. Nobody is connected to them then. A line that is not
/// there gets none.
pub fn put_row<U: Unit>(machine: &mut Machine<U>, number: u8, port: u32, count: u8)
    requires numbers { number + count < 2 ^ 8 }
    requires range { port + count ≤ 2 ^ 16 }
    ensures { machine.new ≡ record machine.old {
      lines = with_ports (row_from count (place_of number) port) machine.old.lines;
    } }
{
    if count == 0 {
        return;
    }
    put_one(machine, number, port as u16);
    put_row(machine, number + 1, port + 1, count - 1);
}

// Gives the terminal line with that number a port, where it is there.
fn put_one<U: Unit>(machine: &mut Machine<U>, number: u8, port: u16)
    ensures { machine.new ≡ record machine.old {
      lines = changed_at (place_of number) (λ (line : LineOf ℕ). unconnected (Some port)) machine.old.lines;
    } }
{
    match machine.line(number) {
        Some(line) => line.set_port(Some(port)),
        None => (),
    }
}
