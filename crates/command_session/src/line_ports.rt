// The port of a terminal line is given up, and its connection is dropped.
ghost use Rattle.std.specs.Prelude.{◌≡◌, IsTrue, IsSome, None};
ghost use Rattle.telnet_lines.specs.Line.{unconnected};
ghost use Rattle.telnet_lines.specs.Joined.{KeepsParties};
ghost use Rattle.command_session.specs.LineEffects.{closed};
ghost use Rattle.command_session.specs.LinesLeft.{GivesUp};

use host_lines::Lines;
use telnet_lines::Line;

/// Ends the connection of a line, where one stands. The line keeps its port.
pub fn hang_up<L: Lines>(line: &mut Line, lines: &mut L)
    ensures line { line.new ≡ unconnected line.old.port }
    ensures outside { GivesUp None line.old.connection (L.state lines.old) (L.state lines.new) }
    ensures parties { IsTrue L.tells
        → KeepsParties (L.state lines.old) line.old (L.state lines.new) line.new }
{
    match line.connection() {
        None => (),
        Some(conn) => lines.hang_up(conn),
    }
    line.drop_connection();
}

/// Ends the connection of a line, where one stands, and gives up its port. A line without a port stays as it is.
pub fn close<L: Lines>(line: &mut Line, lines: &mut L)
    ensures line { line.new ≡ closed line.old }
    ensures none { line.old.port ≡ None → lines.new ≡ lines.old }
    ensures outside { IsSome line.old.port
        → GivesUp line.old.port line.old.connection (L.state lines.old) (L.state lines.new) }
    ensures parties { IsTrue L.tells
        → KeepsParties (L.state lines.old) line.old (L.state lines.new) line.new }
{
    match line.port() {
        None => (),
        Some(port) => {
            hang_up(line, lines);
            lines.unlisten(port);
            line.set_port(None);
        }
    }
}
