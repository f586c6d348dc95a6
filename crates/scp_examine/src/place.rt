// The places that an item names, and what is printed of one.
ghost use Rattle.std.specs.Prelude.{◌≡◌, ◌+◌, ◌≤◌, ◌<◌, ◌^◌, ◌++◌, Bool, length};
ghost use Rattle.nova_memory.specs.Memory.{get};
ghost use Rattle.unit_trait.specs.Registers.{register_at, name_at};
ghost use Rattle.nova_symbols.specs.Canon.{canon};
ghost use Rattle.scp_examine.specs.Places.{Cell, Register, UnitRegister, place_text, value_at, word_text};
ghost use Rattle.scp_examine.specs.Places.{chosen_word, compares, masked, meets, largest_or_0};

use crate::registers::largest_value;
use line_text::Text;
use nova_machine::Machine;
use nova_symbols::print;
use nova_word::{Addr, Word, octal_width};
use operand_forms::{Condition, Rel};
use unit_trait::{CpuReg, Kind, Unit, reg_text};

/// What EXAMINE prints of a register of the processor, whether symbolic text is wanted or not.
#[tactic(auto, unfolding(crate::specs::Places::place_text))]
pub fn register_line<U: Unit>(machine: &Machine<U>, register: CpuReg) -> Text<80>
    ensures { (symbolic : Bool) → result ≡ place_text machine.now symbolic (Register register) }
{
    let mut text = Text::new();
    text.push_all(register.name().as_bytes());
    text.push_all(b":\t");
    text.push_octal(machine.cpu_reg(register), register.digits());
    text.push(b'\n');
    text
}

/// What EXAMINE prints of a register of a device, whether symbolic text is wanted or not.
#[tactic(auto, unfolding(crate::specs::Places::place_text))]
pub fn unit_register_line<U: Unit>(machine: &Machine<U>, kind: Kind, number: u8) -> Text<80>
    ensures { (symbolic : Bool) → result ≡ place_text machine.now symbolic (UnitRegister kind number) }
{
    let mut text = Text::new();
    push_name(&mut text, kind, number);
    text.push_all(b":\t");
    let digits = octal_width(largest_value(kind, number));
    text.push_octal(unit_value(machine, kind, number), digits);
    text.push(b'\n');
    text
}

fn push_name(text: &mut Text<80>, kind: Kind, number: u8)
    requires { length text.old ≤ 40 }
    ensures text { text.new ≡ text.old ++ name_at kind number }
    ensures bound { length text.new ≤ length text.old + 8 }
{
    let mut name = [0; 8];
    let count = reg_text(kind, number, &mut name);
    text.push_all(&name[..count]);
}

/// What a register of a device holds; 0 where there is none.
pub fn unit_value<U: Unit>(machine: &Machine<U>, kind: Kind, number: u8) -> u32
    ensures value { result ≡ value_at machine.now (UnitRegister kind number) }
    ensures range { result ≤ largest_or_0 (register_at kind number) }
{
    // What it holds is within its limits.
    machine.core();
    match machine.unit_reg(kind, number) {
        Some(value) => value,
        None => 0,
    }
}

/// What EXAMINE prints of a word of memory.
#[tactic(auto, unfolding(crate::specs::Places::place_text))]
pub fn cell_line<U: Unit>(machine: &Machine<U>, symbolic: bool, at: u16) -> Text<80>
    requires { at < 2 ^ 15 }
    ensures { result ≡ place_text machine.now symbolic (Cell at) }
{
    let mut text = Text::new();
    text.push_octal(u32::from(at), 5);
    text.push_all(b":\t");
    push_word(&mut text, symbolic, word_at(machine, at));
    text.push(b'\n');
    text
}

/// The word at an address.
pub fn word_at<U: Unit>(machine: &Machine<U>, at: u16) -> Word
    requires { at < 2 ^ 15 }
    ensures word { result ≡ get machine.now.processor.memory at }
    ensures range { result < 2 ^ 16 }
{
    machine.memory().read(Addr::of_word(Word(at)))
}

fn push_word(text: &mut Text<80>, symbolic: bool, word: Word)
    requires { length text.old ≤ 40 }
    ensures text { text.new ≡ text.old ++ word_text symbolic word }
    ensures bound { length text.new ≤ length text.old + 32 }
{
    if symbolic {
        let mut symbols = [0; 32];
        let count = print(word, &mut symbols);
        text.push_all(&symbols[..count]);
    } else {
        text.push_octal(u32::from(word.0), 6);
    }
}

// Whether two numbers compare so.
fn compares(rel: Rel, a: u64, b: u64) -> bool
    ensures { result ≡ compares rel a b }
{
    match rel {
        Rel::Eq => a == b,
        Rel::Ne => a != b,
        Rel::Lt => a < b,
        Rel::Le => a <= b,
        Rel::Gt => a > b,
        Rel::Ge => a >= b,
    }
}

fn masked(mask: Option<u64>, value: u64) -> u64
    ensures { result ≡ masked mask value }
{
    match mask {
        None => value,
        Some(mask) => value & mask,
    }
}

/// Whether a value meets a condition.
pub fn meets(condition: Condition, value: u64) -> bool
    ensures { result ≡ meets condition value }
{
    compares(
        condition.rel,
        masked(condition.mask, value),
        condition.value,
    )
}

/// Whether a condition, where there is one, chooses a word.
pub fn is_chosen(condition: Option<Condition>, word: u64) -> bool
    ensures { result ≡ chosen_word condition word }
{
    match condition {
        None => true,
        Some(condition) => meets(condition, word),
    }
}
