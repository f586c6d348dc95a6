// Ports that lines have.
ghost use Rattle.std.specs.Prelude.{◌≡◌};
ghost use Rattle.terminal_ports.specs.Ports.{owns, is_taken};

use telnet_lines::Line;

/// Whether a line has that port.
pub fn owns(port: u64, line: &Line) -> bool
    ensures { result ≡ owns port line.now }
{
    match line.port() {
        None => false,
        Some(own) => u64::from(own) == port,
    }
}

/// Whether one of these lines has that port.
#[tactic(auto, unfolding(crate::specs::Ports::is_taken))]
pub fn is_taken(port: u64, lines: &[Line]) -> bool
    ensures { result ≡ is_taken port lines.now }
{
    lines.iter().any(|line| owns(port, line))
}
