ghost use Rattle.std.specs.Prelude.{◌≡◌, ◌≤◌, length};

use line_text::Text;

/// A text of its own.
pub(crate) fn text_of<const N: usize>(bytes: &[u8]) -> Text<N>
    requires { length bytes.now ≤ N }
    ensures { result ≡ bytes.now }
{
    let mut text = Text::<N>::new();
    text.push_all(bytes);
    text
}
