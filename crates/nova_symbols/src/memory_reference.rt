//! Memory reference: jumps, modified memory, loads and stores.

ghost use Rattle.std.specs.Prelude.{◌≡◌, ◌+◌, ◌<◌, ◌≤◌, ◌++◌, ◌^◌, length, IfSome};
ghost use Rattle.nova_symbols.specs.Naming.{memory_named};
ghost use Rattle.nova_symbols.specs.Canon.{short_octal, signed_octal, address_text, target_text, memory_text};
ghost use Rattle.nova_symbols.specs.Canon.{load_text};

use crate::names::{Naming, Shape, place_of_name, push_all, push_entry, push_octal};
use line_text::Text;

const MEMORY_NAMES: [&str; 4] = ["JMP", "JSR", "ISZ", "DSZ"];

const LOAD_NAMES: [&str; 2] = ["LDA", "STA"];

const INDIRECT_MARKS: [&str; 2] = ["", "@"];

// The text of a jump or a modification of memory.
#[tactic(auto, unfolding(crate::specs::Canon::memory_text))]
pub fn memory_text(w: u16) -> Text<32>
    ensures { result ≡ memory_text w }
{
    let mut text = Text::new();
    push_entry(&mut text, &MEMORY_NAMES, usize::from(w / 2048 % 4));
    push_all(&mut text, b" ");
    push_target(&mut text, w);
    text
}

// The text of a load or a store.
#[tactic(auto, unfolding(crate::specs::Canon::load_text))]
pub fn load_text(w: u16) -> Text<32>
    requires { (0o20000 ≤ w) × (w < 0o60000) }
    ensures { result ≡ load_text w }
{
    let mut text = Text::new();
    push_entry(&mut text, &LOAD_NAMES, usize::from(w / 8192 % 4 - 1));
    push_all(&mut text, b" ");
    push_octal(&mut text, w / 2048 % 4, 1);
    push_all(&mut text, b",");
    push_target(&mut text, w);
    text
}

#[tactic(auto, unfolding(crate::specs::Canon::target_text))]
fn push_target(text: &mut Text<32>, w: u16)
    requires { length text.old ≤ 8 }
    ensures text { text.new ≡ text.old ++ target_text w }
{
    push_entry(text, &INDIRECT_MARKS, usize::from(w / 1024 % 2));
    push_address(text, w / 256 % 4, w % 256);
}

#[tactic(auto, unfolding(crate::specs::Canon::address_text))]
fn push_address(text: &mut Text<32>, index: u16, displacement: u16)
    requires index { index < 4 }
    requires displacement { displacement < 256 }
    requires room { length text.old ≤ 13 }
    ensures text { text.new ≡ text.old ++ address_text index displacement }
{
    if index == 0 {
        push_short_octal(text, displacement);
    } else if index == 1 {
        push_all(text, b".");
        push_signed(text, b"+", displacement);
    } else {
        push_signed(text, b"", displacement);
        push_all(text, b",");
        push_octal(text, index, 1);
    }
}

// Appends a displacement as a number with a sign, of which a plus sign is as it is passed.
#[tactic(auto, unfolding(crate::specs::Canon::signed_octal))]
fn push_signed(text: &mut Text<32>, plus: &[u8], displacement: u16)
    requires plus { length plus.now ≤ 1 }
    requires displacement { displacement < 256 }
    requires room { length text.old ≤ 20 }
    ensures text { text.new ≡ text.old ++ signed_octal plus.now displacement }
    ensures length { length text.new ≤ length text.old + 4 }
{
    if displacement < 128 {
        push_all(text, plus);
        push_short_octal(text, displacement);
    } else {
        push_all(text, b"-");
        push_short_octal(text, 256 - displacement);
    }
}

#[tactic(auto, unfolding(crate::specs::Canon::short_octal))]
fn push_short_octal(text: &mut Text<32>, n: u16)
    requires n { n < 2 ^ 9 }
    requires room { length text.old ≤ 25 }
    ensures text { text.new ≡ text.old ++ short_octal n }
    ensures length { length text.new ≤ length text.old + 3 }
{
    if n < 8 {
        push_octal(text, n, 1);
    } else if n < 64 {
        push_octal(text, n, 2);
    } else {
        push_octal(text, n, 3);
    }
}

// What a first word names, where it is a memory reference.
#[tactic(auto, unfolding(crate::specs::Naming::memory_named))]
pub fn memory_named(word: &[u8]) -> Option<Naming>
    ensures naming { result ≡ memory_named word.now }
    ensures bits { IfSome result (λ naming. naming.bits ≤ 0o103770) }
{
    if let Some(k) = place_of_name(&MEMORY_NAMES, word) {
        return Some(Naming::new(Shape::Memory, 2048 * k as u16));
    }
    let k = place_of_name(&LOAD_NAMES, word)?;
    Some(Naming::new(Shape::Load, 8192 * (k as u16 + 1)))
}
