//! The operands of a text, one by one from the left. A fault counts the bytes that are left at its place.

ghost use Rattle.std.specs.Prelude.{◌≡◌, ◌+◌, ◌<◌, ◌≤◌, ◌^◌, length, IfOk, IfSome, not, option_map, take, drop};
ghost use Rattle.std.specs.List.{position_or_len, position};
ghost use Rattle.line_text.specs.Words.{is_blank, word_at, past_blanks};
ghost use Rattle.nova_symbols.specs.Operands.{Gives, is_separator, operand_at, after_comma, comma_at, number};
ghost use Rattle.nova_symbols.specs.Operands.{accumulator_at, index_at, device_number_at, negative, relative, signed};
ghost use Rattle.nova_symbols.specs.Operands.{indexed, not_indexed, absolute, address, indirect, target_at, ended};

use crate::fault::SymbolFault;
use line_text::{is_blank, past_blanks};
use nova_word::{NumberFault, read_octal};

fn is_separator(b: u8) -> bool
    ensures { result ≡ is_separator b }
{
    is_blank(b) || b == b','
}

// The place of the first blank or comma.
fn separator_place(text: &[u8]) -> Option<usize>
    ensures { result ≡ position is_separator text.now }
{
    text.iter().position(|b| is_separator(*b))
}

// The first blank or comma, or the end.
#[tactic(auto, using(line_text::proofs::PlaceLemmas::place_or_length))]
fn first_separator(text: &[u8]) -> usize
    ensures place { result ≡ position_or_len is_separator text.now }
    ensures within { result ≤ length text.now }
{
    separator_place(text).unwrap_or(text.len())
}

// The operand with which a text begins and what follows it.
#[tactic(auto, unfolding(crate::specs::Operands::operand_at))]
pub fn operand_at(text: &[u8]) -> (&[u8], &[u8])
    ensures operand { (result.0.now, result.1.now) ≡ operand_at text.now }
    ensures length { length result.0.now + length result.1.now ≡ length text.now }
{
    text.split_at(first_separator(text))
}

// The text behind a comma, with blanks before and after it.
#[tactic(auto, unfolding(crate::specs::Operands::after_comma))]
pub fn after_comma(text: &[u8]) -> Option<&[u8]>
    ensures { option_map (λ rest. rest.now) result ≡ after_comma text.now }
{
    match past_blanks(text) {
        [b',', more @ ..] => Some(past_blanks(more)),
        _ => None,
    }
}

// A comma must stand here: the next operand is missing otherwise.
#[tactic(auto, unfolding(crate::specs::Operands::comma_at))]
pub fn comma_at(text: &[u8]) -> Result<&[u8], SymbolFault>
    ensures { Gives (λ rest. rest.now) result (comma_at text.now) }
{
    match after_comma(text) {
        Some(next) => Ok(next),
        None => Err(SymbolFault::BadField(past_blanks(text).len())),
    }
}

// A number up to its largest; the two places are that of its field and its own.
#[tactic(auto, using(crate::proofs::OctalLemmas::number_fits, crate::proofs::OctalLemmas::number_above, crate::proofs::OctalLemmas::number_too_large, crate::proofs::OctalLemmas::number_bad, crate::proofs::OctalLemmas::number_empty))]
fn number(largest: u16, digits: &[u8], field: usize, own: usize) -> Result<u16, SymbolFault>
    ensures number { result ≡ number largest digits.now field own }
    ensures largest { IfOk result (λ n. n ≤ largest) }
{
    match read_octal(digits) {
        Ok(n) => {
            if n <= u32::from(largest) {
                Ok(n as u16)
            } else {
                Err(SymbolFault::OutOfRange(own))
            }
        }
        Err(NumberFault::TooLarge) => Err(SymbolFault::OutOfRange(own)),
        Err(NumberFault::BadDigit(_)) => Err(SymbolFault::BadField(field)),
        Err(NumberFault::Empty) => Err(SymbolFault::BadField(field)),
    }
}

#[tactic(auto, unfolding(crate::specs::Operands::accumulator_at))]
pub fn accumulator_at(text: &[u8]) -> Result<(u16, &[u8]), SymbolFault>
    ensures reading { Gives (λ x. (x.0, x.1.now)) result (accumulator_at text.now) }
    ensures largest { IfOk result (λ x. x.0 ≤ 3) }
{
    let (operand, rest) = operand_at(text);
    let n = number(3, operand, text.len(), text.len())?;
    Ok((n, rest))
}

// An index is one digit, 1 to 3.
#[tactic(auto, unfolding(crate::specs::Operands::index_at))]
fn index_at(text: &[u8]) -> Result<(u16, &[u8]), SymbolFault>
    ensures reading { Gives (λ x. (x.0, x.1.now)) result (index_at text.now) }
    ensures largest { IfOk result (λ x. x.0 ≤ 3) }
{
    let (operand, rest) = operand_at(text);
    let n = number(3, operand, text.len(), text.len())?;
    if n == 0 || operand.len() > 1 {
        return Err(SymbolFault::BadField(text.len()));
    }
    Ok((n, rest))
}

// A device by its code, in one or two digits.
#[tactic(auto, unfolding(crate::specs::Operands::device_number_at))]
pub fn device_number_at(text: &[u8]) -> Result<(u16, &[u8]), SymbolFault>
    ensures reading { Gives (λ x. (x.0, x.1.now)) result (device_number_at text.now) }
    ensures largest { IfOk result (λ x. x.0 ≤ 63) }
{
    let (operand, rest) = operand_at(text);
    let n = number(63, operand, text.len(), text.len())?;
    if operand.len() > 2 {
        return Err(SymbolFault::BadField(text.len()));
    }
    Ok((n, rest))
}

// A number below zero as eight bits, from its digits behind the minus sign.
#[tactic(auto, unfolding(crate::specs::Operands::negative))]
fn negative(digits: &[u8], field: usize, after: usize) -> Result<u16, SymbolFault>
    requires { length digits.now + after < 2 ^ 64 }
    ensures reading { result ≡ negative digits.now field after }
    ensures largest { IfOk result (λ n. n ≤ 255) }
{
    let n = number(128, digits, field, digits.len() + after)?;
    Ok((256 - n) % 256)
}

// What may stand behind the point of an address relative to the instruction.
#[tactic(auto, unfolding(crate::specs::Operands::relative))]
fn relative(text: &[u8], field: usize, after: usize) -> Result<u16, SymbolFault>
    requires { length text.now + after < 2 ^ 64 }
    ensures reading { result ≡ relative text.now field after }
    ensures largest { IfOk result (λ n. n ≤ 255) }
{
    match text {
        [] => Ok(0),
        [b'+', digits @ ..] => number(127, digits, field, digits.len() + after),
        [b'-', digits @ ..] => negative(digits, field, after),
        _ => Err(SymbolFault::BadField(field)),
    }
}

// A displacement with an index.
#[tactic(auto, unfolding(crate::specs::Operands::signed))]
fn signed(operand: &[u8], field: usize, after: usize) -> Result<u16, SymbolFault>
    requires { length operand.now + after < 2 ^ 64 }
    ensures reading { result ≡ signed operand.now field after }
    ensures largest { IfOk result (λ n. n ≤ 255) }
{
    match operand {
        [] => Err(SymbolFault::BadField(field)),
        [b'-', digits @ ..] => negative(digits, field, after),
        _ => number(127, operand, field, operand.len() + after),
    }
}

// A displacement before an index, and the index.
#[tactic(auto, unfolding(crate::specs::Operands::indexed))]
fn indexed<'a>(
    operand: &[u8],
    next: &'a [u8],
    rest: &[u8],
    field: usize,
) -> Result<(u16, &'a [u8]), SymbolFault>
    requires { length operand.now + length rest.now < 2 ^ 64 }
    ensures reading { Gives (λ x. (x.0, x.1.now)) result (indexed operand.now next.now rest.now field) }
    ensures largest { IfOk result (λ x. x.0 ≤ 1023) }
{
    let displacement = signed(operand, field, rest.len())?;
    let (index, left) = index_at(next)?;
    Ok((256 * index + displacement, left))
}

// With no index, a number in page zero; a number below zero lacks its index.
#[tactic(auto, unfolding(crate::specs::Operands::not_indexed))]
fn not_indexed<'a>(
    operand: &[u8],
    rest: &'a [u8],
    field: usize,
) -> Result<(u16, &'a [u8]), SymbolFault>
    requires { length operand.now + length rest.now < 2 ^ 64 }
    ensures reading { Gives (λ x. (x.0, x.1.now)) result (not_indexed operand.now rest.now field) }
    ensures largest { IfOk result (λ x. x.0 ≤ 255) }
{
    match operand {
        [] => Err(SymbolFault::BadField(field)),
        [b'-', digits @ ..] => {
            let _displacement = negative(digits, field, rest.len())?;
            Err(SymbolFault::BadField(past_blanks(rest).len()))
        }
        _ => {
            let n = number(255, operand, field, operand.len() + rest.len())?;
            Ok((n, rest))
        }
    }
}

#[tactic(auto, unfolding(crate::specs::Operands::absolute))]
fn absolute<'a>(
    operand: &[u8],
    rest: &'a [u8],
    field: usize,
) -> Result<(u16, &'a [u8]), SymbolFault>
    requires { length operand.now + length rest.now < 2 ^ 64 }
    ensures reading { Gives (λ x. (x.0, x.1.now)) result (absolute operand.now rest.now field) }
    ensures largest { IfOk result (λ x. x.0 ≤ 1023) }
{
    match after_comma(rest) {
        Some(next) => indexed(operand, next, rest, field),
        None => not_indexed(operand, rest, field),
    }
}

// An address: bits 6 to 15 of a word, and what follows it.
#[tactic(auto, unfolding(crate::specs::Operands::address))]
fn address<'a>(operand: &[u8], rest: &'a [u8], field: usize) -> Result<(u16, &'a [u8]), SymbolFault>
    requires { length operand.now + length rest.now < 2 ^ 64 }
    ensures reading { Gives (λ x. (x.0, x.1.now)) result (address operand.now rest.now field) }
    ensures largest { IfOk result (λ x. x.0 ≤ 1023) }
{
    match operand {
        [b'.', more @ ..] => {
            let displacement = relative(more, field, rest.len())?;
            Ok((256 + displacement, rest))
        }
        _ => absolute(operand, rest, field),
    }
}

#[tactic(auto, unfolding(crate::specs::Operands::indirect))]
fn indirect<'a>(
    operand: &[u8],
    rest: &'a [u8],
    field: usize,
) -> Result<(u16, &'a [u8]), SymbolFault>
    requires { length operand.now + length rest.now < 2 ^ 64 }
    ensures reading { Gives (λ x. (x.0, x.1.now)) result (indirect operand.now rest.now field) }
    ensures largest { IfOk result (λ x. x.0 ≤ 2047) }
{
    match operand {
        [b'@', more @ ..] => {
            let (bits, left) = address(more, rest, field)?;
            Ok((1024 + bits, left))
        }
        _ => address(operand, rest, field),
    }
}

// The operand of a memory reference: bits 5 to 15 of a word, and what follows it.
#[tactic(auto, unfolding(crate::specs::Operands::target_at))]
pub fn target_at(text: &[u8]) -> Result<(u16, &[u8]), SymbolFault>
    ensures reading { Gives (λ x. (x.0, x.1.now)) result (target_at text.now) }
    ensures largest { IfOk result (λ x. x.0 ≤ 2047) }
{
    let (operand, rest) = operand_at(text);
    indirect(operand, rest, text.len())
}

// The end of a text: anything else there is too much.
#[tactic(auto, unfolding(crate::specs::Operands::ended))]
pub fn ended(w: u16, rest: &[u8]) -> Result<u16, SymbolFault>
    ensures { result ≡ ended w rest.now }
{
    if rest.is_empty() {
        Ok(w)
    } else {
        Err(SymbolFault::Extra(rest.len()))
    }
}
