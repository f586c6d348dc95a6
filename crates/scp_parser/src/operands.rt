// The operands of a line, one by one from the left. A fault counts the bytes that are left at its place.
ghost use Rattle.std.specs.Prelude.{◌≡◌, true, false};
ghost use Rattle.operand_forms.specs.Operands.{octal, decimal, items_of, device_of};
ghost use Rattle.scp_parser.specs.Operands.{subject_of};
ghost use Rattle.scp_parser.specs.Reading.{next_word, maybe, needed, ended, last_number, maybe_condition, listing};
ghost use Rattle.scp_parser.specs.Reading.{instruction};
ghost use Rattle.scp_parser.specs.Views.{Gives, bad_operand, maybe_symbolic, maybe_flag};

use crate::command::{Shown, Verb};
use crate::fault::ParseFault;
use crate::subject::subject_of;
use line_text::{is_spelled, past_blanks, trimmed, word_at};
use nova_symbols::read;
use operand_forms::{
    Condition, Items, Listing, Name, condition_of, decimal, device_of, items_of, octal,
};
use unit_trait::Kind;

// The next word, which has no byte where none is left, and what follows it.
#[tactic(auto, unfolding(crate::specs::Reading::next_word))]
pub fn next_word(text: &[u8]) -> (&[u8], &[u8])
    ensures { (result.0.now, result.1.now) ≡ next_word text.now }
{
    word_at(past_blanks(text))
}

// The fault of a word that is not in the form of its operand, or of none.
pub fn bad_operand(only_number: bool, word: &[u8], rest: &[u8]) -> ParseFault
    ensures { result ≡ bad_operand only_number word.now rest.now }
{
    match word {
        [] => ParseFault::Missing,
        [b, ..] if only_number || b.is_ascii_digit() => {
            ParseFault::BadNumber(word.len() + rest.len())
        }
        _ => ParseFault::BadName(word.len() + rest.len()),
    }
}

// The option for symbolic text, which may be left out.
#[tactic(auto, unfolding(crate::specs::Operands::symbolic_of))]
fn maybe_symbolic(text: &[u8]) -> (bool, &[u8])
    ensures { (result.0, result.1.now) ≡ maybe_symbolic text.now }
{
    let (word, rest) = next_word(text);
    if is_spelled(word, b"-M") {
        (true, rest)
    } else {
        (false, text)
    }
}

// An option that is there or not.
#[tactic(auto, unfolding(crate::specs::Operands::flag_of))]
pub fn maybe_flag<'a>(text: &'a [u8], flag: &[u8]) -> (bool, &'a [u8])
    ensures { (result.0, result.1.now) ≡ maybe_flag flag.now text.now }
{
    let (word, rest) = next_word(text);
    if is_spelled(word, flag) {
        (true, rest)
    } else {
        (false, text)
    }
}

// A device, which may be left out.
pub fn maybe_device(text: &[u8]) -> (Option<Kind>, &[u8])
    ensures { (result.0, result.1.now) ≡ maybe device_of text.now }
{
    let (word, rest) = next_word(text);
    match device_of(word) {
        Some(kind) => (Some(kind), rest),
        None => (None, text),
    }
}

// A condition, which may be left out, where the command may have one.
fn maybe_condition(conditions: bool, text: &[u8]) -> (Option<Condition>, &[u8])
    ensures { (result.0, result.1.now) ≡ maybe_condition conditions text.now }
{
    if !conditions {
        return (None, text);
    }
    let (word, rest) = next_word(text);
    match condition_of(word) {
        Some(condition) => (Some(condition), rest),
        None => (None, text),
    }
}

// A list, which must be there.
fn needed_items(device: Name, text: &[u8]) -> Result<(Items, &[u8]), ParseFault>
    ensures { Gives (λ x. (x.0, x.1.now)) result (needed false (items_of device) text.now) }
{
    let (word, rest) = next_word(text);
    match items_of(device, word) {
        Some(items) => Ok((items, rest)),
        None => Err(bad_operand(false, word, rest)),
    }
}

// An octal number, which must be there.
pub fn needed_octal(text: &[u8]) -> Result<(u64, &[u8]), ParseFault>
    ensures { Gives (λ x. (x.0, x.1.now)) result (needed true octal text.now) }
{
    let (word, rest) = next_word(text);
    match octal(word) {
        Some(n) => Ok((n, rest)),
        None => Err(bad_operand(true, word, rest)),
    }
}

// A decimal number, which must be there.
pub fn needed_decimal(text: &[u8]) -> Result<(u64, &[u8]), ParseFault>
    ensures { Gives (λ x. (x.0, x.1.now)) result (needed true decimal text.now) }
{
    let (word, rest) = next_word(text);
    match decimal(word) {
        Some(n) => Ok((n, rest)),
        None => Err(bad_operand(true, word, rest)),
    }
}

// What SHOW shows, which must be there.
pub fn needed_subject(text: &[u8]) -> Result<(Shown, &[u8]), ParseFault>
    ensures { Gives (λ x. (x.0, x.1.now)) result (needed false subject_of text.now) }
{
    let (word, rest) = next_word(text);
    match subject_of(word) {
        Some(subject) => Ok((subject, rest)),
        None => Err(bad_operand(false, word, rest)),
    }
}

// What a line asks for, if nothing but blanks is left.
#[tactic(auto, unfolding(crate::specs::Reading::ended))]
pub fn ended(verb: Verb, text: &[u8]) -> Result<Verb, ParseFault>
    ensures { result ≡ ended verb text.now }
{
    match past_blanks(text).len() {
        0 => Ok(verb),
        left => Err(ParseFault::Extra(left)),
    }
}

// An octal number that may be left out at the end of a line.
#[tactic(auto, unfolding(crate::specs::Reading::last_number))]
pub fn last_octal(text: &[u8]) -> Result<(Option<u64>, &[u8]), ParseFault>
    ensures { Gives (λ x. (x.0, x.1.now)) result (last_number octal text.now) }
{
    if past_blanks(text).is_empty() {
        return Ok((None, text));
    }
    let (n, rest) = needed_octal(text)?;
    Ok((Some(n), rest))
}

// A decimal number that may be left out at the end of a line.
#[tactic(auto, unfolding(crate::specs::Reading::last_number))]
pub fn last_decimal(text: &[u8]) -> Result<(Option<u64>, &[u8]), ParseFault>
    ensures { Gives (λ x. (x.0, x.1.now)) result (last_number decimal text.now) }
{
    if past_blanks(text).is_empty() {
        return Ok((None, text));
    }
    let (n, rest) = needed_decimal(text)?;
    Ok((Some(n), rest))
}

// What EXAMINE and DEPOSIT work on, and what follows it.
#[tactic(auto, unfolding(crate::specs::Reading::listing, crate::specs::Reading::choice))]
pub fn listing(conditions: bool, text: &[u8]) -> Result<(Listing, &[u8]), ParseFault>
    ensures { Gives (λ x. (x.0, x.1.now)) result (listing conditions text.now) }
{
    let (symbolic, text) = maybe_symbolic(text);
    let (kind, text) = maybe_device(text);
    let (condition, text) = maybe_condition(conditions, text);
    let device = match kind {
        Some(kind) => Name::Device(kind),
        None => Name::Cpu,
    };
    let (items, rest) = needed_items(device, text)?;
    let listing = Listing {
        symbolic,
        device,
        condition,
        items,
    };
    Ok((listing, rest))
}

// The word of the symbolic text that goes to the end of the line.
#[tactic(auto, unfolding(crate::specs::Reading::instruction))]
pub fn instruction(text: &[u8]) -> Result<u16, ParseFault>
    ensures { result ≡ instruction text.now }
{
    let text = past_blanks(text);
    if text.is_empty() {
        return Err(ParseFault::Missing);
    }
    match read(trimmed(text)) {
        Ok(word) => Ok(word.0),
        Err(_) => Err(ParseFault::BadSymbol(text.len())),
    }
}
