// ATTACH and DETACH: their options and units.
ghost use Rattle.std.specs.Prelude.{◌≡◌, false};
ghost use Rattle.scp_parser.specs.Operands.{option_of, file_unit, target_of, detached_of};
ghost use Rattle.scp_parser.specs.Grammar.{option_letter};
ghost use Rattle.scp_parser.specs.Reading.{maybe, needed};
ghost use Rattle.scp_parser.specs.Reading.{attach_file, attach_port, attach, detach};
ghost use Rattle.scp_parser.specs.Views.{Gives};

use crate::command::Verb;
use crate::fault::ParseFault;
use crate::operands::{bad_operand, ended, needed_decimal, next_word};
use crate::tail::{last_name, piece_before};
use line_text::is_spelled;
use operand_forms::unit_of;
use unit_trait::{Kind, UnitName, takes_file};

// The option of a word, as the capital of its letter.
#[tactic(auto, unfolding(crate::specs::Operands::option_of))]
fn option_of(word: &[u8]) -> Option<u8>
    ensures { result ≡ option_of word.now }
{
    if is_spelled(word, b"-E") {
        Some(b'E')
    } else if is_spelled(word, b"-N") {
        Some(b'N')
    } else if is_spelled(word, b"-R") {
        Some(b'R')
    } else {
        None
    }
}

// An option, which may be left out.
fn maybe_option(text: &[u8]) -> (Option<u8>, &[u8])
    ensures { (result.0, result.1.now) ≡ maybe option_of text.now }
{
    let (word, rest) = next_word(text);
    match option_of(word) {
        Some(letter) => (Some(letter), rest),
        None => (None, text),
    }
}

fn option_letter(option: Option<u8>) -> u8
    ensures { result ≡ option_letter option }
{
    match option {
        Some(letter) => letter,
        None => 0,
    }
}

// A unit, if it takes a file.
fn file_unit(unit: Option<UnitName>) -> Option<UnitName>
    ensures { result ≡ file_unit unit }
{
    match unit {
        Some(unit) if takes_file(unit.kind) => Some(unit),
        _ => None,
    }
}

// The unit of a word that ATTACH names: behind an option it takes a file.
#[tactic(auto, unfolding(crate::specs::Operands::target_of))]
fn target_of(option: Option<u8>, word: &[u8]) -> Option<UnitName>
    ensures { result ≡ target_of option word.now }
{
    match option {
        Some(_) => file_unit(unit_of(word)),
        None => unit_of(word),
    }
}

// A unit for ATTACH, which must be there.
fn needed_target(option: Option<u8>, text: &[u8]) -> Result<(UnitName, &[u8]), ParseFault>
    ensures { Gives (λ x. (x.0, x.1.now)) result (needed false (target_of option) text.now) }
{
    let (word, rest) = next_word(text);
    match target_of(option, word) {
        Some(unit) => Ok((unit, rest)),
        None => Err(bad_operand(false, word, rest)),
    }
}

// What DETACH names: a unit, or `None` for all of them.
#[tactic(auto, unfolding(crate::specs::Operands::detached_of))]
fn detached_of(word: &[u8]) -> Option<Option<UnitName>>
    ensures { result ≡ detached_of word.now }
{
    if is_spelled(word, b"ALL") {
        return Some(None);
    }
    match unit_of(word) {
        Some(unit) => Some(Some(unit)),
        None => None,
    }
}

// What DETACH names, which must be there.
fn needed_detached(text: &[u8]) -> Result<(Option<UnitName>, &[u8]), ParseFault>
    ensures { Gives (λ x. (x.0, x.1.now)) result (needed false detached_of text.now) }
{
    let (word, rest) = next_word(text);
    match detached_of(word) {
        Some(unit) => Ok((unit, rest)),
        None => Err(bad_operand(false, word, rest)),
    }
}

fn attach_file(bytes: usize, option: u8, unit: UnitName, text: &[u8]) -> Result<Verb, ParseFault>
    ensures { result ≡ attach_file bytes option unit text.now }
{
    let (name, rest) = last_name(text)?;
    Ok(Verb::Attach {
        option,
        unit,
        name: piece_before(bytes, name, rest),
    })
}

fn attach_port(kind: Kind, text: &[u8]) -> Result<Verb, ParseFault>
    ensures { result ≡ attach_port kind text.now }
{
    let (port, rest) = needed_decimal(text)?;
    ended(Verb::AttachPort { kind, port }, rest)
}

/// What an ATTACH asks for, by what stands behind its name in a line of so many bytes.
#[tactic(auto, unfolding(crate::specs::Reading::attach))]
pub fn attach(bytes: usize, text: &[u8]) -> Result<Verb, ParseFault>
    ensures { result ≡ attach bytes text.now }
{
    let (option, rest) = maybe_option(text);
    let (unit, rest) = needed_target(option, rest)?;
    if takes_file(unit.kind) {
        attach_file(bytes, option_letter(option), unit, rest)
    } else {
        attach_port(unit.kind, rest)
    }
}

/// What a DETACH asks for, by what stands behind its name.
#[tactic(auto, unfolding(crate::specs::Reading::detach))]
pub fn detach(text: &[u8]) -> Result<Verb, ParseFault>
    ensures { result ≡ detach text.now }
{
    let (unit, rest) = needed_detached(text)?;
    ended(Verb::Detach(unit), rest)
}
