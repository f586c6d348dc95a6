ghost use Rattle.std.specs.Prelude.{◌≡◌, ◌≤◌, length, option_map, None};
ghost use Rattle.std.specs.List.{position, position_or_len};
ghost use Rattle.operand_forms.specs.Operands.{is_rel_byte, two_byte_rel, one_byte_rel, condition_with, with_value};
ghost use Rattle.operand_forms.specs.Operands.{comparison_of, masked_condition, condition_of};

use crate::listing::{Condition, Rel};
use crate::number::octal;

/// The condition of a word: a mask behind `&`, which may be left out, a comparison and a value, in octal.
#[tactic(auto, unfolding(crate::specs::Operands::condition_of))]
pub fn condition_of(word: &[u8]) -> Option<Condition>
    ensures { result ≡ condition_of word.now }
{
    match word {
        [] => None,
        [b'&', rest @ ..] => masked_condition(rest),
        _ => plain_condition(word),
    }
}

// A condition without a mask.
fn plain_condition(text: &[u8]) -> Option<Condition>
    ensures { result ≡ option_map (λ c. condition_with None c) (comparison_of text.now) }
{
    let (rel, value) = comparison_of(text)?;
    Some(Condition {
        mask: None,
        rel,
        value,
    })
}

// A condition behind the `&` of its mask.
#[tactic(auto, unfolding(crate::specs::Operands::masked_condition))]
fn masked_condition(text: &[u8]) -> Option<Condition>
    ensures { result ≡ masked_condition text.now }
{
    let (mask, comparison) = text.split_at(rel_place(text));
    let mask = octal(mask)?;
    let (rel, value) = comparison_of(comparison)?;
    Some(Condition {
        mask: Some(mask),
        rel,
        value,
    })
}

// The place of the first byte of a comparison.
fn first_rel_byte(text: &[u8]) -> Option<usize>
    ensures { result ≡ position is_rel_byte text.now }
{
    text.iter().position(|b| is_rel_byte(*b))
}

/// The place of the first byte of a comparison, or the end.
#[tactic(auto, using(line_text::proofs::PlaceLemmas::place_or_length, line_text::proofs::PlaceLemmas::place_le_length))]
pub fn rel_place(text: &[u8]) -> usize
    ensures place { result ≡ position_or_len is_rel_byte text.now }
    ensures within { result ≤ length text.now }
{
    first_rel_byte(text).unwrap_or(text.len())
}

fn is_rel_byte(b: u8) -> bool
    ensures { result ≡ is_rel_byte b }
{
    matches!(b, b'=' | b'!' | b'<' | b'>')
}

/// A comparison and its value, where both are there.
#[tactic(auto, unfolding(crate::specs::Operands::comparison_of))]
pub fn comparison_of(text: &[u8]) -> Option<(Rel, u64)>
    ensures { result ≡ comparison_of text.now }
{
    match text {
        [a, b, rest @ ..] => match with_value(two_byte_rel(*a, *b), rest) {
            Some(comparison) => Some(comparison),
            None => with_value(one_byte_rel(*a), &text[1..]),
        },
        _ => None,
    }
}

// A comparison with its value, where both are there.
fn with_value(rel: Option<Rel>, digits: &[u8]) -> Option<(Rel, u64)>
    ensures { result ≡ with_value rel digits.now }
{
    match rel {
        Some(rel) => Some((rel, octal(digits)?)),
        None => None,
    }
}

fn two_byte_rel(a: u8, b: u8) -> Option<Rel>
    ensures { result ≡ two_byte_rel a b }
{
    match (a, b) {
        (b'!', b'=') => Some(Rel::Ne),
        (b'<', b'=') => Some(Rel::Le),
        (b'>', b'=') => Some(Rel::Ge),
        _ => None,
    }
}

fn one_byte_rel(a: u8) -> Option<Rel>
    ensures { result ≡ one_byte_rel a }
{
    match a {
        b'=' => Some(Rel::Eq),
        b'<' => Some(Rel::Lt),
        b'>' => Some(Rel::Gt),
        _ => None,
    }
}
