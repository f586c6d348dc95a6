// A text as SHOW EXPECT prints it.
ghost use Rattle.std.specs.Prelude.{◌≡◌, ◌+◌, ◌*◌, ◌++◌, ◌≤◌, length};
ghost use Rattle.plain_commands.specs.QuotedText.{quoted_byte, quoted_text};

use line_text::Text;

/// How many bytes stand for a text of 64 bytes at most, the quotes included: four for each.
pub const LONGEST_QUOTED: usize = 258;

/// A text of at most 64 bytes between quotes, as it can be read again.
#[tactic(auto, unfolding(crate::specs::QuotedText::quoted_bytes))]
pub fn quoted_text(text: &[u8]) -> Text<LONGEST_QUOTED>
    requires { length text.now ≤ 64 }
    ensures { result ≡ quoted_text text.now }
{
    let mut quoted = Text::new();
    quoted.push(b'"');
    for b in text {
        push_quoted(&mut quoted, *b);
    }
    quoted.push(b'"');
    quoted
}

// Adds what stands for a byte between quotes: four bytes at most.
fn push_quoted(quoted: &mut Text<LONGEST_QUOTED>, b: u8)
    requires { length quoted.old + 4 ≤ 258 }
    ensures text { quoted.new ≡ quoted.old ++ quoted_byte b }
    ensures most { length quoted.new ≤ length quoted.old + 4 }
{
    match b {
        b'\r' => quoted.push_all(b"\\r"),
        b'\n' => quoted.push_all(b"\\n"),
        b'\t' => quoted.push_all(b"\\t"),
        b'\\' => quoted.push_all(b"\\\\"),
        b'"' => quoted.push_all(b"\\\""),
        b' '..=b'~' => quoted.push(b),
        _ => {
            quoted.push(b'\\');
            quoted.push_octal(u32::from(b), 3);
        }
    }
}
