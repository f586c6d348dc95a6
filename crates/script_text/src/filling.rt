ghost use Rattle.std.specs.Prelude.{◌≡◌, ◌<◌, ◌≤◌, ◌++◌, Some, None, length, drop, nat_le, if◌then◌else◌, true};
ghost use Rattle.script_text.specs.Filling.{is_name, named_text, filled, begins_named};

use crate::arguments::Arguments;
use line_text::Text;

/// The longest line that is done, in bytes, once its arguments are filled in.
pub const LONGEST_LINE: usize = 512;

/// A line of a script with its arguments filled in. `None` comes exactly where it would have more than 512 bytes.
///
/// `%1` to `%9` stand for the arguments, which are empty where they are missing, `%0` for the name of the script, and
/// `%%` for one `%`. Any other `%` stays, and the byte behind it is looked at by itself.
pub fn filled(line: &[u8], arguments: &Arguments) -> Option<Text<512>>
    ensures { result
        ≡ (if nat_le (length (filled arguments.now line.now)) 512 then Some (filled arguments.now line.now) else None) }
{
    let mut text = Text::<512>::new();
    let mut place = 0;
    while place < line.len() {
        let (piece, width) = piece_at(&line[place..], arguments);
        if piece.len() > LONGEST_LINE - text.len() {
            return None;
        }
        text.push_all(piece);
        place += width;
    }
    Some(text)
}

/// What the first bytes of a line stand for, and how many these are: piece by piece this makes the whole line with its
/// arguments filled in, however long.
pub fn piece_at<'a>(text: &'a [u8], arguments: &'a Arguments) -> (&'a [u8], usize)
    requires { 0 < length text.now }
    ensures piece { filled arguments.now text.now ≡ result.0.now ++ filled arguments.now (drop result.1 text.now) }
    ensures some { 0 < result.1 }
    ensures within { result.1 ≤ length text.now }
{
    if begins_named(text) {
        (named_text(text[1], arguments), 2)
    } else {
        (&text[..1], 1)
    }
}

// What a byte stands for behind a `%`.
fn named_text(b: u8, arguments: &Arguments) -> &[u8]
    requires { is_name b ≡ true }
    ensures { result.now ≡ named_text arguments.now b }
{
    if b == b'%' {
        b"%"
    } else {
        arguments.get(usize::from(b - b'0'))
    }
}

// Whether a text begins with a `%` and a byte that stands for something behind it.
fn begins_named(text: &[u8]) -> bool
    ensures { result ≡ begins_named text.now }
{
    text.len() >= 2 && text[0] == b'%' && is_name(text[1])
}

// Whether a byte stands for something behind a `%`.
fn is_name(b: u8) -> bool
    ensures { result ≡ is_name b }
{
    b == b'%' || b.is_ascii_digit()
}
