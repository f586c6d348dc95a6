ghost use Rattle.std.specs.Prelude.{◌≡◌, ◌<◌, ◌∷◌, length, drop, IfSome};
ghost use Rattle.std.specs.Str.{bytes_eq};
ghost use Rattle.script_text.specs.Lines.{command_line, lines_of};
ghost use Rattle.script_text.specs.Labels.{is_label_line, label_place};

use crate::lines::next_line;

/// The place in a script, in bytes from its front, where the first line with that label begins. `None` comes exactly
/// where it has no such line.
///
/// A label is a line that begins with `:`. All that follows is its name, the LF and a CR before that left out, and it
/// is compared exactly, with its case and its blanks.
pub fn find_label(script: &[u8], label: &[u8]) -> Option<usize>
    ensures place { result ≡ label_place label.now (lines_of script.now) }
    ensures within { IfSome result (λ place. place < length script.now) }
    ensures there { IfSome result (λ place. command_line (drop place script.now) ≡ 58 ∷ label.now) }
{
    let mut rest = script;
    while let Some(line) = next_line(rest) {
        if is_label(line.text, label) {
            return Some(script.len() - rest.len());
        }
        rest = line.rest;
    }
    None
}

/// Whether a line, as `next_line` gives it, is a label: its first byte is a `:`.
pub fn is_label_line(line: &[u8]) -> bool
    ensures { result ≡ is_label_line line.now }
{
    matches!(line, [b':', ..])
}

// Whether a line is that label.
fn is_label(line: &[u8], label: &[u8]) -> bool
    ensures { result ≡ bytes_eq line.now (58 ∷ label.now) }
{
    match line {
        [b':', name @ ..] => name == label,
        _ => false,
    }
}
