// DO, GOTO, ASSERT and ECHO.
ghost use Rattle.std.specs.Prelude.{◌≡◌, false};
ghost use Rattle.scp_parser.specs.Operands.{as_file_name, any_word, if_tested, test_of};
ghost use Rattle.scp_parser.specs.Grammar.{name_of};
ghost use Rattle.scp_parser.specs.Reading.{needed, do_file, goto, assert, echo};
ghost use Rattle.scp_parser.specs.Views.{Gives};

use crate::command::Verb;
use crate::fault::ParseFault;
use crate::operands::{bad_operand, ended, maybe_device, maybe_flag, next_word};
use crate::tail::{is_file_name, piece_before, tail_piece};
use operand_forms::{Condition, Item, Name, Test, comparison_of, item_of, rel_place};
use unit_trait::Kind;

// The name of a script, which must be there.
fn needed_script(text: &[u8]) -> Result<(&[u8], &[u8]), ParseFault>
    ensures { Gives (λ x. (x.0.now, x.1.now)) result (needed false as_file_name text.now) }
{
    let (word, rest) = next_word(text);
    if is_file_name(word) {
        Ok((word, rest))
    } else {
        Err(bad_operand(false, word, rest))
    }
}

/// What a DO asks for, by what stands behind its name in a line of so many bytes.
#[tactic(auto, unfolding(crate::specs::Reading::do_file))]
pub fn do_file(bytes: usize, text: &[u8]) -> Result<Verb, ParseFault>
    ensures { result ≡ do_file bytes text.now }
{
    let (echo, rest) = maybe_flag(text, b"-V");
    let (strict, rest) = maybe_flag(rest, b"-E");
    let (name, rest) = needed_script(rest)?;
    Ok(Verb::Do {
        echo,
        strict,
        name: piece_before(bytes, name, rest),
        arguments: tail_piece(bytes, rest),
    })
}

// A label, which is a word of any bytes and must be there.
#[tactic(auto, unfolding(crate::specs::Operands::any_word))]
fn needed_label(text: &[u8]) -> Result<(&[u8], &[u8]), ParseFault>
    ensures { Gives (λ x. (x.0.now, x.1.now)) result (needed false any_word text.now) }
{
    let (word, rest) = next_word(text);
    if word.is_empty() {
        Err(ParseFault::Missing)
    } else {
        Ok((word, rest))
    }
}

/// What a GOTO asks for, by what stands behind its name in a line of so many bytes.
#[tactic(auto, unfolding(crate::specs::Reading::goto))]
pub fn goto(bytes: usize, text: &[u8]) -> Result<Verb, ParseFault>
    ensures { result ≡ goto bytes text.now }
{
    let (label, rest) = needed_label(text)?;
    ended(Verb::Goto(piece_before(bytes, label, rest)), rest)
}

// An item that can be tested.
fn if_tested(item: Option<Item>) -> Option<Item>
    ensures { result ≡ if_tested item }
{
    match item {
        Some(item @ (Item::At(_) | Item::Reg(_) | Item::Unknown)) => Some(item),
        _ => None,
    }
}

// An item, a comparison and a value, with no blank between them.
#[tactic(auto, unfolding(crate::specs::Operands::test_of))]
fn test_of(device: Name, word: &[u8]) -> Option<(Item, Condition)>
    ensures { result ≡ test_of device word.now }
{
    let (name, comparison) = word.split_at(rel_place(word));
    let item = if_tested(item_of(device, name))?;
    let (rel, value) = comparison_of(comparison)?;
    let condition = Condition {
        mask: None,
        rel,
        value,
    };
    Some((item, condition))
}

// What ASSERT tests, which must be there.
fn needed_test(device: Name, text: &[u8]) -> Result<((Item, Condition), &[u8]), ParseFault>
    ensures { Gives (λ x. (x.0, x.1.now)) result (needed false (test_of device) text.now) }
{
    let (word, rest) = next_word(text);
    match test_of(device, word) {
        Some(test) => Ok((test, rest)),
        None => Err(bad_operand(false, word, rest)),
    }
}

fn name_of(kind: Option<Kind>) -> Name
    ensures { result ≡ name_of kind }
{
    match kind {
        Some(kind) => Name::Device(kind),
        None => Name::Cpu,
    }
}

/// What an ASSERT asks for, by what stands behind its name.
#[tactic(auto, unfolding(crate::specs::Reading::assert))]
pub fn assert(text: &[u8]) -> Result<Verb, ParseFault>
    ensures { result ≡ assert text.now }
{
    let (kind, rest) = maybe_device(text);
    let device = name_of(kind);
    let ((item, condition), rest) = needed_test(device, rest)?;
    let test = Test {
        device,
        item,
        condition,
    };
    ended(Verb::Assert(test), rest)
}

/// What an ECHO asks for, by what stands behind its name in a line of so many bytes: one blank does not count.
#[tactic(auto, unfolding(crate::specs::Reading::echo))]
pub fn echo(bytes: usize, text: &[u8]) -> Verb
    ensures { result ≡ echo bytes text.now }
{
    let text = match text {
        [_, text @ ..] => text,
        [] => text,
    };
    Verb::Echo(piece_before(bytes, text, b""))
}
