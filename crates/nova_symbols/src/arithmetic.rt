//! Arithmetic and logic between two accumulators.

ghost use Rattle.std.specs.Prelude.{◌≡◌, ◌+◌, ◌<◌, ◌≤◌, ◌++◌, length, IfOk, IfSome};
ghost use Rattle.nova_symbols.specs.Canon.{skip_text, arithmetic_text};
ghost use Rattle.nova_symbols.specs.Naming.{arithmetic_named, arithmetic_letters};
ghost use Rattle.nova_symbols.specs.Operands.{Gives, skip_at};

use crate::fault::SymbolFault;
use crate::names::{
    Naming, Shape, letter, name_and_letters, place_of_name, push_all, push_entry, push_octal,
};
use crate::operands::operand_at;
use line_text::Text;

const ARITHMETIC_NAMES: [&str; 8] = ["COM", "NEG", "MOV", "INC", "ADC", "SUB", "ADD", "AND"];

const CARRY_LETTERS: [&str; 4] = ["", "Z", "O", "C"];

const SHIFT_LETTERS: [&str; 4] = ["", "L", "R", "S"];

const NO_LOAD_MARKS: [&str; 2] = ["", "#"];

const SKIP_NAMES: [&str; 7] = ["SKP", "SZC", "SNC", "SZR", "SNR", "SEZ", "SBN"];

// The text of a word of which bit 0 is 1.
#[tactic(auto, unfolding(crate::specs::Canon::arithmetic_text))]
pub fn arithmetic_text(w: u16) -> Text<32>
    ensures { result ≡ arithmetic_text w }
{
    let mut text = Text::new();
    push_entry(&mut text, &ARITHMETIC_NAMES, usize::from(w / 256 % 8));
    push_entry(&mut text, &CARRY_LETTERS, usize::from(w / 16 % 4));
    push_entry(&mut text, &SHIFT_LETTERS, usize::from(w / 64 % 4));
    push_entry(&mut text, &NO_LOAD_MARKS, usize::from(w / 8 % 2));
    push_all(&mut text, b" ");
    push_octal(&mut text, w / 8192 % 4, 1);
    push_all(&mut text, b",");
    push_octal(&mut text, w / 2048 % 4, 1);
    push_skip(&mut text, w % 8);
    text
}

#[tactic(auto, unfolding(crate::specs::Canon::skip_text))]
fn push_skip(text: &mut Text<32>, skip: u16)
    requires skip { skip < 8 }
    requires room { length text.old ≤ 26 }
    ensures text { text.new ≡ text.old ++ skip_text skip }
{
    if skip != 0 {
        push_all(text, b",");
        push_entry(text, &SKIP_NAMES, usize::from(skip - 1));
    }
}

// What a first word names, where it is an arithmetic name with its letters.
#[tactic(auto, unfolding(crate::specs::Naming::arithmetic_named))]
pub fn arithmetic_named(word: &[u8]) -> Option<Naming>
    ensures naming { result ≡ arithmetic_named word.now }
    ensures bits { IfSome result (λ naming. naming.bits ≤ 0o103770) }
{
    let (name, letters) = name_and_letters(word);
    let function = place_of_name(&ARITHMETIC_NAMES, name)?;
    let bits = arithmetic_letters(letters)?;
    Some(Naming::new(Shape::Arithmetic, 0o100000 + 256 * function as u16 + bits))
}

// The letters behind an arithmetic name, as bits 8 to 12 of the word.
#[tactic(auto, unfolding(crate::specs::Naming::arithmetic_letters))]
fn arithmetic_letters(text: &[u8]) -> Option<u16>
    ensures letters { result ≡ arithmetic_letters text.now }
    ensures largest { IfSome result (λ bits. bits ≤ 0o370) }
{
    let (carry, rest) = letter(&CARRY_LETTERS, text);
    let (shift, rest) = letter(&SHIFT_LETTERS, rest);
    let (no_load, rest) = letter(&NO_LOAD_MARKS, rest);
    if !rest.is_empty() {
        return None;
    }
    Some(16 * carry as u16 + 64 * shift as u16 + 8 * no_load as u16)
}

// A skip by its name.
#[tactic(auto, unfolding(crate::specs::Operands::skip_at))]
pub fn skip_at(text: &[u8]) -> Result<(u16, &[u8]), SymbolFault>
    ensures reading { Gives (λ x. (x.0, x.1.now)) result (skip_at text.now) }
    ensures largest { IfOk result (λ x. x.0 ≤ 7) }
{
    let (operand, rest) = operand_at(text);
    match place_of_name(&SKIP_NAMES, operand) {
        Some(k) => Ok((k as u16 + 1, rest)),
        None => Err(SymbolFault::BadField(text.len())),
    }
}
