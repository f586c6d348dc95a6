ghost use Rattle.std.specs.Prelude.{◌≡◌, ◌==◌, option_map};
ghost use Rattle.std.specs.List.{list_all, position};
ghost use Rattle.operand_forms.specs.Operands.{is_name_byte, is_name, unknown_name, named_item, numbered_item, item_of};
ghost use Rattle.operand_forms.specs.Operands.{items_of, front, behind, range_of, count_of};
ghost use Rattle.operand_forms.specs.Views.{some_behind};

use crate::listing::{Item, Items, MOST_ITEMS, Name};
use crate::number::{decimal, octal};
use crate::registers::register_named;
use line_text::is_spelled;

/// The items of a list, with commas between them: 1 to 16.
#[tactic(auto, unfolding(crate::specs::Operands::items_of))]
pub fn items_of(device: Name, word: &[u8]) -> Option<Items>
    ensures { result ≡ items_of device word.now }
{
    let mut items = Items::new();
    let mut rest = word;
    for _used in 0..MOST_ITEMS {
        let (text, next) = split(rest, b',');
        items.push(item_of(device, text)?);
        match next {
            Some(text) => rest = text,
            None => return Some(items),
        }
    }
    None
}

/// What stands before the first such byte of a text, and what stands behind it, if there is one.
pub fn split(text: &[u8], mark: u8) -> (&[u8], Option<&[u8]>)
    ensures front { result.0.now ≡ front mark text.now }
    ensures behind { option_map (λ rest. rest.now) result.1 ≡ some_behind mark text.now }
{
    match place_of(text, mark) {
        Some(place) => (&text[..place], Some(&text[place + 1..])),
        None => (text, None),
    }
}

// The place of the first such byte.
fn place_of(text: &[u8], mark: u8) -> Option<usize>
    ensures { result ≡ position (λ b. b == mark) text.now }
{
    text.iter().position(|b| *b == mark)
}

/// The item that a text names, if it has one of the forms: ALL, STATE, the name of a register, an address, a range, or
/// an address and a count.
#[tactic(auto, unfolding(crate::specs::Operands::item_of))]
pub fn item_of(device: Name, text: &[u8]) -> Option<Item>
    ensures { result ≡ item_of device text.now }
{
    match named_item(device, text) {
        Some(item) => Some(item),
        None => numbered_item(text),
    }
}

// An item that is a name.
#[tactic(auto, unfolding(crate::specs::Operands::named_item))]
fn named_item(device: Name, text: &[u8]) -> Option<Item>
    ensures { result ≡ named_item device text.now }
{
    if is_spelled(text, b"ALL") {
        return Some(Item::All);
    }
    if is_spelled(text, b"STATE") {
        return Some(Item::State);
    }
    match register_named(device, text) {
        Some(register) => Some(Item::Reg(register)),
        None => unknown_name(text),
    }
}

// A name that is the name of no register.
fn unknown_name(text: &[u8]) -> Option<Item>
    ensures { result ≡ unknown_name text.now }
{
    if is_name(text) {
        Some(Item::Unknown)
    } else {
        None
    }
}

// Whether a text is a letter, and then letters, digits and `_`.
#[tactic(auto, unfolding(crate::specs::Operands::is_name))]
fn is_name(text: &[u8]) -> bool
    ensures { result ≡ is_name text.now }
{
    match text {
        [first, rest @ ..] => first.is_ascii_alphabetic() && are_name_bytes(rest),
        [] => false,
    }
}

fn are_name_bytes(text: &[u8]) -> bool
    ensures { result ≡ list_all is_name_byte text.now }
{
    text.iter().all(|b| is_name_byte(*b))
}

fn is_name_byte(b: u8) -> bool
    ensures { result ≡ is_name_byte b }
{
    b.is_ascii_alphanumeric() || b == b'_'
}

// An item that is an address, a range, or an address and a count.
#[tactic(auto, unfolding(crate::specs::Operands::numbered_item))]
fn numbered_item(text: &[u8]) -> Option<Item>
    ensures { result ≡ numbered_item text.now }
{
    match octal(text) {
        Some(address) => Some(Item::At(address)),
        None => match range_of(text) {
            Some(item) => Some(item),
            None => count_of(text),
        },
    }
}

// An item with two addresses.
#[tactic(auto, using(crate::proofs::MarkLemmas::range_none))]
fn range_of(text: &[u8]) -> Option<Item>
    ensures { result ≡ range_of text.now }
{
    let (from, to) = split(text, b'-');
    Some(Item::Range(octal(from)?, octal(to?)?))
}

// An item with an address and a count.
#[tactic(auto, using(crate::proofs::MarkLemmas::count_none))]
fn count_of(text: &[u8]) -> Option<Item>
    ensures { result ≡ count_of text.now }
{
    let (from, count) = split(text, b'/');
    Some(Item::Count(octal(from)?, decimal(count?)?))
}
