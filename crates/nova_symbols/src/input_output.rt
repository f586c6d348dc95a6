//! Input and output, and the words of it that have names of their own.

ghost use Rattle.std.specs.Prelude.{◌≡◌, ◌+◌, ◌<◌, ◌≤◌, ◌++◌, ◌==◌, position, IfSome, IfOk, length};
ghost use Rattle.nova_symbols.specs.Names.{device_codes, lone_words, processor_words};
ghost use Rattle.nova_symbols.specs.Naming.{special_named, transfer_named, device_named};
ghost use Rattle.nova_symbols.specs.Operands.{Gives, device_at};
ghost use Rattle.nova_symbols.specs.Canon.{device_text, accumulator_device_text, device_alone_text, transfer_text};
ghost use Rattle.nova_symbols.specs.Canon.{input_output_text};

use crate::fault::SymbolFault;
use crate::names::{
    Naming, Shape, name_and_letters, place_of_name, push_all, push_entry, push_octal,
};
use crate::operands::{device_number_at, operand_at};
use line_text::Text;

const TRANSFER_NAMES: [&str; 7] = ["NIO", "DIA", "DOA", "DIB", "DOB", "DIC", "DOC"];

const PULSE_LETTERS: [&str; 4] = ["", "S", "C", "P"];

const TEST_NAMES: [&str; 4] = ["SKPBN", "SKPBZ", "SKPDN", "SKPDZ"];

const DEVICE_NAMES: [&str; 13] = [
    "MDV", "TTI", "TTO", "PTR", "PTP", "RTC", "LPT", "DSK", "MTA", "QTY", "TTI1", "TTO1", "CPU",
];

const DEVICE_CODES: [u16; 13] = [
    0o1, 0o10, 0o11, 0o12, 0o13, 0o14, 0o17, 0o20, 0o22, 0o30, 0o50, 0o51, 0o77,
];

const LONE_WORDS: [u16; 6] = [0o60177, 0o60277, 0o62677, 0o63077, 0o73301, 0o73101];

const LONE_NAMES: [&str; 6] = ["INTEN", "INTDS", "IORST", "HALT", "MUL", "DIV"];

const PROCESSOR_WORDS: [u16; 3] = [0o60477, 0o61477, 0o62077];

const PROCESSOR_NAMES: [&str; 3] = ["READS", "INTA", "MSKO"];

// The text of a word of input and output.
#[tactic(auto, unfolding(crate::specs::Canon::input_output_text))]
pub fn input_output_text(w: u16) -> Text<32>
    requires { (0o60000 ≤ w) × (w < 0o100000) }
    ensures { result ≡ input_output_text w }
{
    let mut text = Text::new();
    if let Some(k) = place_of(&LONE_WORDS, w) {
        push_entry(&mut text, &LONE_NAMES, k);
        return text;
    }
    let accumulator = w / 2048 % 4;
    if let Some(k) = place_of(&PROCESSOR_WORDS, w - 2048 * accumulator) {
        push_entry(&mut text, &PROCESSOR_NAMES, k);
        push_all(&mut text, b" ");
        push_octal(&mut text, accumulator, 1);
        return text;
    }
    push_transfer(&mut text, w);
    text
}

// Appends the general form.
#[tactic(auto, unfolding(crate::specs::Canon::transfer_text))]
fn push_transfer(text: &mut Text<32>, w: u16)
    requires { length text.old ≤ 0 }
    ensures { text.new ≡ text.old ++ transfer_text w }
{
    let function = w / 256 % 8;
    let pulse = usize::from(w / 64 % 4);
    if function == 7 {
        push_entry(text, &TEST_NAMES, pulse);
    } else {
        push_entry(text, &TRANSFER_NAMES, usize::from(function));
        push_entry(text, &PULSE_LETTERS, pulse);
    }
    push_all(text, b" ");
    if function == 7 || function == 0 {
        push_device_alone(text, w);
    } else {
        push_accumulator_device(text, w);
    }
}

// An accumulator 0 is left out behind a name that sets and reads none.
#[tactic(auto, unfolding(crate::specs::Canon::device_alone_text))]
fn push_device_alone(text: &mut Text<32>, w: u16)
    requires { length text.old ≤ 15 }
    ensures { text.new ≡ text.old ++ device_alone_text w }
{
    if w / 2048 % 4 == 0 {
        push_device(text, w % 64);
    } else {
        push_accumulator_device(text, w);
    }
}

#[tactic(auto, unfolding(crate::specs::Canon::accumulator_device_text))]
fn push_accumulator_device(text: &mut Text<32>, w: u16)
    requires { length text.old ≤ 15 }
    ensures { text.new ≡ text.old ++ accumulator_device_text w }
{
    push_octal(text, w / 2048 % 4, 1);
    push_all(text, b",");
    push_device(text, w % 64);
}

#[tactic(auto, unfolding(crate::specs::Canon::device_text))]
fn push_device(text: &mut Text<32>, code: u16)
    requires code { code < 64 }
    requires room { length text.old ≤ 20 }
    ensures { text.new ≡ text.old ++ device_text code }
{
    match place_of(&DEVICE_CODES, code) {
        Some(k) => push_entry(text, &DEVICE_NAMES, k),
        None => push_octal(text, code, 2),
    }
}

// The place of a number in a table.
fn place_of(table: &[u16], n: u16) -> Option<usize>
    ensures place { result ≡ position (λ x. x == n) table.now }
    ensures within { IfSome result (λ k. k < length table.now) }
{
    table.iter().position(|x| *x == n)
}

// What a first word names, where it is a name of one word or one of the processor's names.
#[tactic(auto, unfolding(crate::specs::Naming::special_named))]
pub fn special_named(word: &[u8]) -> Option<Naming>
    ensures naming { result ≡ special_named word.now }
    ensures bits { IfSome result (λ naming. naming.bits ≤ 0o103770) }
{
    if let Some(k) = place_of_name(&LONE_NAMES, word) {
        return Some(Naming::new(Shape::Alone, LONE_WORDS[k]));
    }
    let k = place_of_name(&PROCESSOR_NAMES, word)?;
    Some(Naming::new(Shape::Processor, PROCESSOR_WORDS[k]))
}

// What a first word names, where it is a general name of input and output.
#[tactic(auto, unfolding(crate::specs::Naming::transfer_named))]
pub fn transfer_named(word: &[u8]) -> Option<Naming>
    ensures naming { result ≡ transfer_named word.now }
    ensures bits { IfSome result (λ naming. naming.bits ≤ 0o103770) }
{
    if let Some(k) = place_of_name(&TEST_NAMES, word) {
        return Some(Naming::new(Shape::Device, 0o63400 + 64 * k as u16));
    }
    let (name, letters) = name_and_letters(word);
    let function = place_of_name(&TRANSFER_NAMES, name)?;
    let pulse = place_of_name(&PULSE_LETTERS, letters)?;
    let shape = if function == 0 {
        Shape::Device
    } else {
        Shape::Transfer
    };
    Some(Naming::new(shape, 0o60000 + 256 * function as u16 + 64 * pulse as u16))
}

// The code of a device by its name.
#[tactic(auto, unfolding(crate::specs::Naming::device_named))]
fn device_named(word: &[u8]) -> Option<u16>
    ensures code { result ≡ device_named word.now }
    ensures largest { IfSome result (λ code. code ≤ 63) }
{
    let k = place_of_name(&DEVICE_NAMES, word)?;
    Some(DEVICE_CODES[k])
}

// A device by its name or its code.
#[tactic(auto, unfolding(crate::specs::Operands::device_at))]
pub fn device_at(text: &[u8]) -> Result<(u16, &[u8]), SymbolFault>
    ensures reading { Gives (λ x. (x.0, x.1.now)) result (device_at text.now) }
    ensures largest { IfOk result (λ x. x.0 ≤ 63) }
{
    let (operand, rest) = operand_at(text);
    match device_named(operand) {
        Some(code) => Ok((code, rest)),
        None => device_number_at(text),
    }
}
