// The rest of a line: the name of a file, arguments or actions, without the blanks round them.
ghost use Rattle.std.specs.Prelude.{◌≡◌};
ghost use Rattle.std.specs.Str.{is_utf8};
ghost use Rattle.scp_parser.specs.Operands.{is_file_name};
ghost use Rattle.scp_parser.specs.Reading.{inside_of, last_name, piece_before, tail_piece};
ghost use Rattle.scp_parser.specs.Views.{Gives};

use crate::command::{LONGEST_FILE_NAME, Piece};
use crate::fault::ParseFault;
use crate::operands::bad_operand;
use line_text::{past_blanks, trimmed};
use std::str::from_utf8;

// Whether a file can have that name: 1 to 255 bytes in UTF-8.
#[tactic(auto, unfolding(crate::specs::Operands::is_file_name))]
pub fn is_file_name(text: &[u8]) -> bool
    ensures { result ≡ is_file_name text.now }
{
    !text.is_empty() && text.len() <= LONGEST_FILE_NAME && is_utf8(text)
}

#[tactic(auto, using(crate::proofs::FileNameLemmas::are_utf8, crate::proofs::FileNameLemmas::not_utf8))]
fn is_utf8(text: &[u8]) -> bool
    ensures { result ≡ is_utf8 text.now }
{
    match from_utf8(text) {
        Ok(_) => true,
        Err(_) => false,
    }
}

// The rest of a line without the blanks round it, and the blanks behind it.
#[tactic(auto, using(crate::proofs::InsideLemmas::trimmed_within, crate::proofs::InsideLemmas::trimmed_front), unfolding(crate::specs::Reading::inside_of))]
fn inside_of(text: &[u8]) -> (&[u8], &[u8])
    ensures { (result.0.now, result.1.now) ≡ inside_of text.now }
{
    let text = past_blanks(text);
    text.split_at(trimmed(text).len())
}

// The name of a file, which goes up to the end of the line, and the blanks behind it.
#[tactic(auto, unfolding(crate::specs::Reading::last_name))]
pub fn last_name(text: &[u8]) -> Result<(&[u8], &[u8]), ParseFault>
    ensures { Gives (λ x. (x.0.now, x.1.now)) result (last_name text.now) }
{
    let (name, rest) = inside_of(text);
    if is_file_name(name) {
        Ok((name, rest))
    } else {
        Err(bad_operand(false, name, rest))
    }
}

// A word of a line of so many bytes, by what follows it up to the end of the line.
pub fn piece_before(bytes: usize, word: &[u8], rest: &[u8]) -> Piece
    ensures { result ≡ piece_before bytes word.now rest.now }
{
    Piece {
        from: bytes.saturating_sub(word.len() + rest.len()),
        to: bytes.saturating_sub(rest.len()),
    }
}

// The place of the rest of a line of so many bytes, without the blanks round it.
pub fn tail_piece(bytes: usize, text: &[u8]) -> Piece
    ensures { result ≡ tail_piece bytes text.now }
{
    let (inside, behind) = inside_of(text);
    piece_before(bytes, inside, behind)
}
