// Listening on ports.
ghost use Rattle.std.specs.Prelude.{◌≡◌, ◌+◌, ◌≤◌, ◌^◌, Some, OnOk, OnErr};
ghost use Rattle.telnet_lines.specs.Line.{unconnected};
ghost use Rattle.terminal_ports.specs.Listening.{rising, IsListening, ListensEach};

use host_lines::{Lines, ListenFault};
use std::alloc::Global;
use telnet_lines::Line;

/// Listens on so many ports, from one on, in the order of their numbers. Where one is not to be had, those before it
/// are given up again, also where somebody else had listened on them before, and those behind it are not tried.
pub fn listen_up<L: Lines>(
    alloc: Global,
    port: u32,
    count: u8,
    lines: &mut L,
) -> Result<(), ListenFault>
    requires range { port + count ≤ 2 ^ 16 }
    ensures outside { ListensEach L.tells (rising count port) result (L.state lines.old) (L.state lines.new) }
{
    if count == 0 {
        return Ok(());
    }
    lines.listen(alloc, port as u16)?;
    match listen_up(alloc, port + 1, count - 1, lines) {
        Ok(()) => Ok(()),
        Err(fault) => {
            lines.unlisten(port as u16);
            Err(fault)
        }
    }
}

/// Listens on a port for a line that has none. The line is as it was, where the port is not to be had.
pub fn listen_for<L: Lines>(
    alloc: Global,
    line: &mut Line,
    port: u16,
    lines: &mut L,
) -> Result<(), ListenFault>
    ensures ok { OnOk result (line.new ≡ unconnected (Some port)) }
    ensures refused { OnErr result (line.new ≡ line.old) }
    ensures outside { IsListening L.tells port result (L.state lines.old) (L.state lines.new) }
{
    match listen_up(alloc, port as u32, 1, lines) {
        Ok(()) => {
            line.set_port(Some(port));
            Ok(())
        }
        Err(fault) => Err(fault),
    }
}
