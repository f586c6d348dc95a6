ghost use Rattle.std.specs.Prelude.{◌≡◌, ℕ, ◌+◌, ◌<◌, ◌≤◌, ◌^◌, ◌++◌, length, map, nat_le, IsTrue, IfSome, take, drop};
ghost use Rattle.std.specs.List.{list_all, position};
ghost use Rattle.line_text.specs.Words.{is_spelled};
ghost use Rattle.nova_word.specs.Numbers.{octal_digits};
ghost use Rattle.nova_symbols.specs.Names.{entry};
ghost use Rattle.nova_symbols.specs.Naming.{name_place, letter};

use line_text::{Text, is_spelled};

/// Which operands follow a name.
#[derive(Clone, Copy, Debug, PartialEq, Eq)]
pub enum Shape {
    /// None.
    Alone,
    /// An accumulator.
    Processor,
    /// An address.
    Memory,
    /// An accumulator and an address.
    Load,
    /// Two accumulators, and a skip that may be left out.
    Arithmetic,
    /// An accumulator and a device.
    Transfer,
    /// A device, and before it an accumulator that may be left out.
    Device,
}

/// What the first word of a text names.
#[derive(Clone, Copy, Debug, PartialEq, Eq)]
pub struct Naming {
    /// The operands that follow.
    pub shape: Shape,
    /// The word where each operand is 0.
    pub bits: u16,
}

impl Naming {
    /// A name whose operands have that shape, and the word where each of them is 0.
    pub fn new(shape: Shape, bits: u16) -> Naming
        ensures { result ≡ record { shape = shape; bits = bits } }
    {
        Naming { shape, bits }
    }
}

// A word is that name, in either case.
fn is_name(name: &str, word: &[u8]) -> bool
    ensures { result ≡ is_spelled word.now name.now }
{
    is_spelled(word, name.as_bytes())
}

// The place of a name in a table.
#[tactic(auto, using(crate::proofs::TextLemmas::position_map))]
pub fn place_of_name(table: &[&'static str], word: &[u8]) -> Option<usize>
    ensures place { result ≡ name_place (map (λ name. name.now) table.now) word.now }
    ensures within { IfSome result (λ k. k < length table.now) }
{
    same_name_place(table, word)
}

fn same_name_place(table: &[&'static str], word: &[u8]) -> Option<usize>
    ensures place { result ≡ position (λ name. is_spelled word.now name.now) table.now }
    ensures within { IfSome result (λ k. k < length table.now) }
{
    table.iter().position(|name| is_name(name, word))
}

// A letter of a table that may be left out: its place in the table, 0 where it is left out, and what
// follows it.
#[tactic(auto, unfolding(crate::specs::Naming::letter))]
pub fn letter<'a>(table: &[&'static str], text: &'a [u8]) -> (usize, &'a [u8])
    requires { 0 < length table.now }
    ensures letter { (result.0, result.1.now) ≡ letter (map (λ name. name.now) table.now) text.now }
    ensures within { result.0 < length table.now }
{
    let (first, rest) = text.split_at(text.len().min(1));
    match place_of_name(table, first) {
        Some(k) => (k, rest),
        None => (0, text),
    }
}

// The three letters of a general name, and the letters behind them.
#[tactic(auto, using(std::proofs::lemmas::List::take_all, std::proofs::lemmas::List::drop_all))]
pub fn name_and_letters(word: &[u8]) -> (&[u8], &[u8])
    ensures name { result.0.now ≡ take 3 word.now }
    ensures letters { result.1.now ≡ drop 3 word.now }
{
    if word.len() < 3 {
        (word, &[])
    } else {
        word.split_at(3)
    }
}

// No name of a table is longer than five letters.
pub fn entry(table: &[&'static str], k: usize) -> &'static str
    requires within { k < length table.now }
    requires short { IsTrue (list_all (λ name. nat_le (length name.now) 5) table.now) }
    ensures name { result.now ≡ entry (map (λ name. name.now) table.now) k }
    ensures short { length result.now ≤ 5 }
{
    table[k]
}

// Appends the text at that place of a table.
pub fn push_entry(text: &mut Text<32>, table: &[&'static str], k: usize)
    requires within { k < length table.now }
    requires short { IsTrue (list_all (λ name. nat_le (length name.now) 5) table.now) }
    requires room { length text.old ≤ 27 }
    ensures text { text.new ≡ text.old ++ entry (map (λ name. name.now) table.now) k }
    ensures length { length text.new ≤ length text.old + 5 }
{
    push_all(text, entry(table, k).as_bytes());
}

// Appends bytes for which there is room.
pub fn push_all(text: &mut Text<32>, bytes: &[u8])
    requires { length text.old + length bytes.now ≤ 32 }
    ensures text { text.new ≡ text.old ++ bytes.now }
    ensures length { length text.new ≡ length text.old + length bytes.now }
{
    text.push_all(bytes);
}

// Appends that many octal digits of a number.
pub fn push_octal(text: &mut Text<32>, n: u16, digits: usize)
    requires digits { (0 < digits) × (digits ≤ 3) }
    requires fits { n < 8 ^ digits }
    requires room { length text.old ≤ 29 }
    ensures text { text.new ≡ text.old ++ octal_digits digits n }
    ensures length { length text.new ≡ length text.old + digits }
{
    text.push_octal(u32::from(n), digits);
}
