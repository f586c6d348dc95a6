ghost use Rattle.std.specs.Prelude.{◌≡◌, ◌↔◌, ◌⊎◌, ℕ, ◌+◌, ◌<◌, ◌≤◌, ◌^◌, ◌-◌, ◌*◌, List, length, IfOk, IfSome};
ghost use Rattle.nova_symbols.specs.Canon.{canon};
ghost use Rattle.nova_symbols.specs.Faults.{Faults};
ghost use Rattle.nova_symbols.specs.Forms.{Reads};
ghost use Rattle.nova_symbols.specs.declared.fault.SymbolFault.{SymbolFault};
ghost use Rattle.nova_symbols.specs.Naming.{named};
ghost use Rattle.nova_symbols.specs.Reading.{memory_operands, load_operands, skip_operand, arithmetic_operands};
ghost use Rattle.nova_symbols.specs.Reading.{device_operand, transfer_operands, device_operands, processor_operand};
ghost use Rattle.nova_symbols.specs.Reading.{operands, read_from_end, placed, reading};
ghost use Rattle.nova_symbols.specs.Operands.{after_comma};

use crate::arithmetic::{arithmetic_named, skip_at};
use crate::fault::SymbolFault;
use crate::input_output::{device_at, special_named, transfer_named};
use crate::memory_reference::memory_named;
use crate::names::{Naming, Shape};
use crate::operands::{accumulator_at, after_comma, comma_at, ended, operand_at, target_at};
use line_text::{past_blanks, word_at};
use nova_word::Word;

/// The word of a symbolic text, or the leftmost fault of the text.
///
/// A text begins with a name and ends with the last operand. Names and letters are read in either case,
/// numbers are octal, and blanks (spaces and tabs) stand behind the name and round commas.
#[tactic(auto, unfolding(crate::specs::Reading::reading))]
pub fn read(text: &[u8]) -> Result<Word, SymbolFault>
    // A word exactly where the text is a text of that word.
    ensures word { (w : ℕ) → (result ≡ Ok w) ↔ Reads text.now w }
    // A fault exactly where the text has that fault.
    ensures fault { (fault : SymbolFault) → (result ≡ Err fault) ↔ Faults text.now fault }
    // Which of them, as a function of the text.
    ensures exact { reading text.now ≡ result }
{
    match read_from_end(text) {
        Ok(w) => Ok(Word(w)),
        Err(fault) => Err(placed(text.len(), fault)),
    }
}

// A fault by its place from the beginning of a text of that length.
fn placed(length: usize, fault: SymbolFault) -> SymbolFault
    ensures { result ≡ placed length fault }
{
    match fault {
        SymbolFault::UnknownName => SymbolFault::UnknownName,
        SymbolFault::BadField(left) => SymbolFault::BadField(length.saturating_sub(left)),
        SymbolFault::OutOfRange(left) => SymbolFault::OutOfRange(length.saturating_sub(left)),
        SymbolFault::Extra(left) => SymbolFault::Extra(length.saturating_sub(left)),
    }
}

// The word, or the fault by the number of bytes that are left at its place.
#[tactic(auto, unfolding(crate::specs::Reading::read_from_end))]
fn read_from_end(text: &[u8]) -> Result<u16, SymbolFault>
    ensures { result ≡ read_from_end text.now }
{
    let (word, rest) = word_at(text);
    match named(word) {
        Some(naming) => operands(naming.shape, naming.bits, rest),
        None => Err(SymbolFault::UnknownName),
    }
}

#[tactic(auto, unfolding(crate::specs::Naming::named))]
fn named(word: &[u8]) -> Option<Naming>
    ensures naming { result ≡ named word.now }
    ensures bits { IfSome result (λ naming. naming.bits ≤ 0o103770) }
{
    if let Some(naming) = memory_named(word) {
        return Some(naming);
    }
    if let Some(naming) = arithmetic_named(word) {
        return Some(naming);
    }
    if let Some(naming) = special_named(word) {
        return Some(naming);
    }
    transfer_named(word)
}

#[tactic(auto, unfolding(crate::specs::Reading::operands))]
fn operands(shape: Shape, bits: u16, rest: &[u8]) -> Result<u16, SymbolFault>
    requires { bits ≤ 0o103770 }
    ensures { result ≡ operands shape bits rest.now }
{
    let first = past_blanks(rest);
    match shape {
        Shape::Alone => ended(bits, rest),
        Shape::Processor => processor_operand(bits, first),
        Shape::Memory => memory_operands(bits, first),
        Shape::Load => load_operands(bits, first),
        Shape::Arithmetic => arithmetic_operands(bits, first),
        Shape::Transfer => transfer_operands(bits, first),
        Shape::Device => device_operands(bits, first),
    }
}

#[tactic(auto, unfolding(crate::specs::Reading::processor_operand))]
fn processor_operand(bits: u16, text: &[u8]) -> Result<u16, SymbolFault>
    requires { bits ≤ 0o103770 }
    ensures { result ≡ processor_operand bits text.now }
{
    let (accumulator, rest) = accumulator_at(text)?;
    ended(bits + 2048 * accumulator, rest)
}

#[tactic(auto, unfolding(crate::specs::Reading::memory_operands))]
fn memory_operands(bits: u16, text: &[u8]) -> Result<u16, SymbolFault>
    requires { bits ≤ 0o117770 }
    ensures { result ≡ memory_operands bits text.now }
{
    let (target, rest) = target_at(text)?;
    ended(bits + target, rest)
}

#[tactic(auto, unfolding(crate::specs::Reading::load_operands))]
fn load_operands(bits: u16, text: &[u8]) -> Result<u16, SymbolFault>
    requires { bits ≤ 0o103770 }
    ensures { result ≡ load_operands bits text.now }
{
    let (accumulator, rest) = accumulator_at(text)?;
    let next = comma_at(rest)?;
    memory_operands(bits + 2048 * accumulator, next)
}

#[tactic(auto, unfolding(crate::specs::Reading::arithmetic_operands))]
fn arithmetic_operands(bits: u16, text: &[u8]) -> Result<u16, SymbolFault>
    requires { bits ≤ 0o103770 }
    ensures { result ≡ arithmetic_operands bits text.now }
{
    let (source, rest) = accumulator_at(text)?;
    let next = comma_at(rest)?;
    let (destination, rest) = accumulator_at(next)?;
    skip_operand(bits + 8192 * source + 2048 * destination, rest)
}

// A skip stands where a comma follows.
fn skip_operand(bits: u16, rest: &[u8]) -> Result<u16, SymbolFault>
    requires { bits ≤ 0o177770 }
    ensures { result ≡ skip_operand (after_comma rest.now) bits rest.now }
{
    match after_comma(rest) {
        Some(next) => {
            let (skip, left) = skip_at(next)?;
            ended(bits + skip, left)
        }
        None => ended(bits, rest),
    }
}

#[tactic(auto, unfolding(crate::specs::Reading::device_operand))]
fn device_operand(bits: u16, text: &[u8]) -> Result<u16, SymbolFault>
    requires { bits ≤ 0o117770 }
    ensures { result ≡ device_operand bits text.now }
{
    let (device, rest) = device_at(text)?;
    ended(bits + device, rest)
}

#[tactic(auto, unfolding(crate::specs::Reading::transfer_operands))]
fn transfer_operands(bits: u16, text: &[u8]) -> Result<u16, SymbolFault>
    requires { bits ≤ 0o103770 }
    ensures { result ≡ transfer_operands bits text.now }
{
    let (accumulator, rest) = accumulator_at(text)?;
    let next = comma_at(rest)?;
    device_operand(bits + 2048 * accumulator, next)
}

// A device alone where no comma follows the first operand.
#[tactic(auto, unfolding(crate::specs::Reading::device_operands))]
fn device_operands(bits: u16, text: &[u8]) -> Result<u16, SymbolFault>
    requires { bits ≤ 0o103770 }
    ensures { result ≡ device_operands bits text.now }
{
    let (_, rest) = operand_at(text);
    match after_comma(rest) {
        Some(_) => transfer_operands(bits, text),
        None => device_operand(bits, text),
    }
}

/// The law that the text that `print` writes of a word is one of its texts, and that `read` gives the word
/// back from it.
pub fn canonical_texts_read_back()
    ensures form { (w : ℕ) → w < 2 ^ 16 → Reads (canon w) w }
    ensures reading { (w : ℕ) → w < 2 ^ 16 → reading (canon w) ≡ Ok w }
{}

/// The law that a text has that word exactly where it is read as that word, and that no text has two words.
pub fn no_text_is_two_words()
    ensures reading { (text : List ℕ) (w : ℕ) → Reads text w ↔ (reading text ≡ Ok w) }
    ensures one { (text : List ℕ) (v w : ℕ) → Reads text v → Reads text w → v ≡ w }
{}

/// The law that a text has that fault exactly where it is read as that fault, and that each text has one word
/// or one fault, and not both.
pub fn each_text_has_a_word_or_a_fault()
    ensures reading { (text : List ℕ) (fault : SymbolFault) → Faults text fault ↔ (reading text ≡ Err fault) }
    ensures some { (text : List ℕ) → ((w : ℕ) × Reads text w) ⊎ ((fault : SymbolFault) × Faults text fault) }
    ensures one { (text : List ℕ) (e fault : SymbolFault) → Faults text e → Faults text fault → e ≡ fault }
    ensures apart { (text : List ℕ) (w : ℕ) (fault : SymbolFault) → Reads text w → Faults text fault → ⊥ }
{}
