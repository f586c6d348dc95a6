ghost use Rattle.std.specs.Prelude.{◌≡◌, ◌++◌, length, drop};
ghost use Rattle.nova_symbols.specs.Canon.{canon};

use crate::arithmetic::arithmetic_text;
use crate::input_output::input_output_text;
use crate::memory_reference::{load_text, memory_text};
use line_text::Text;
use nova_word::Word;

/// Writes the canonical symbolic text of a word first into `out`, and answers its length in bytes.
///
/// Each word has one such text, in capitals and with octal numbers, as `LDA 2,@-3,3`.
pub fn print(w: Word, out: &mut [u8; 32]) -> usize
    ensures length { result ≡ length (canon w) }
    ensures text { out.new ≡ canon w ++ drop (length (canon w)) out.old }
{
    canonical_text(w.0).copy_to(out)
}

#[tactic(auto, unfolding(crate::specs::Canon::canon))]
fn canonical_text(w: u16) -> Text<32>
    ensures { result ≡ canon w }
{
    if w < 0o20000 {
        memory_text(w)
    } else if w < 0o60000 {
        load_text(w)
    } else if w < 0o100000 {
        input_output_text(w)
    } else {
        arithmetic_text(w)
    }
}
