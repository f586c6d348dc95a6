ghost use Rattle.std.specs.Prelude.{◌≡◌, ◌≢◌, ℕ, ◌%◌, ◌^◌, ◌<◌, All, slice_index, slice_set};
ghost use Rattle.nova_word.specs.Bits.{bits};
ghost use Rattle.nova_alu.specs.Arithmetic.{loaded_accumulators, loaded_carry, shifted_number, skips_next};

use crate::carries::CarryBase;
use crate::functions::Function;
use crate::outcome::Arith;
use crate::shifts::Shift;
use crate::skips::Skip;
use crate::table::{number, number_of};
use nova_word::Word;

/// Executes the arithmetic and logical instruction in `word` (How to Use the Nova Computers, "Arithmetic and Logical
/// Instructions"). It reads the fields of any word, and doesn't look at bit 0.
#[tactic(auto, unfolding(crate::specs::Arithmetic::loaded_accumulators, crate::specs::Arithmetic::loaded_carry, crate::specs::Arithmetic::skips_next))]
pub fn arith(word: Word, acs: [Word; 4], carry: bool) -> Arith
    ensures accumulators { result.acs ≡ loaded_accumulators word acs carry }
    ensures carry { result.carry ≡ loaded_carry word acs carry }
    ensures skip { result.skip ≡ skips_next word acs carry }
    ensures words { All (λ n. n < 2 ^ 16) result.acs }

    // What follows from these: no-load keeps the accumulators and Carry, and no accumulator changes but ACD.
    ensures no_load { bits 12 12 word ≡ 1 → (result.acs ≡ acs) × (result.carry ≡ carry) }
    ensures others { (k : ℕ) → k ≢ bits 3 4 word → slice_index result.acs k ≡ slice_index acs k }
{
    // Taken apart, since a proof learns so that each of them is a word.
    let [ac0, ac1, ac2, ac3] = acs;
    let mut acs = [ac0, ac1, ac2, ac3];
    let mut carry = carry;
    let x = decoded_number(word, &acs, carry);
    let skip = load(word, x, &mut acs, &mut carry);
    Arith { acs, carry, skip }
}

/// Executes the instruction as `arith` does, on accumulators and a Carry where they stand, and answers whether the next
/// instruction is skipped. It is for a loop over instructions: what it chooses, it chooses by a table, and all four
/// accumulators are never read together, since a processor waits where it reads several words at once of which one was
/// just written.
#[inline(always)]
pub fn arith_in_place(word: Word, acs: &mut [Word; 4], carry: &mut bool) -> bool
    ensures accumulators { acs.new ≡ loaded_accumulators word acs.old carry.old }
    ensures carry { carry.new ≡ loaded_carry word acs.old carry.old }
    ensures skip { result ≡ skips_next word acs.old carry.old }
{
    let x = shifted_number(word, acs, *carry);
    load(word, x, acs, carry)
}

/// Loads the 17 bits of carry and result, where the instruction loads, and answers whether it skips at them.
#[inline(always)]
#[tactic(auto, unfolding(crate::specs::Arithmetic::loaded_accumulators, crate::specs::Arithmetic::loaded_carry, crate::specs::Arithmetic::skips_next))]
fn load(word: Word, x: u32, acs: &mut [Word; 4], carry: &mut bool) -> bool
    requires { x ≡ shifted_number word acs.old carry.old }
    ensures accumulators { acs.new ≡ loaded_accumulators word acs.old carry.old }
    ensures carry { carry.new ≡ loaded_carry word acs.old carry.old }
    ensures skip { result ≡ skips_next word acs.old carry.old }
{
    // Most instructions load and have no skip: one test for both.
    if word.0 % 16 == 0 {
        acs[usize::from((word.0 >> 11) % 4)] = Word((x % 65536) as u16);
        *carry = x >= 65536;
        return false;
    }
    if (word.0 >> 3) % 2 == 0 {
        acs[usize::from((word.0 >> 11) % 4)] = Word((x % 65536) as u16);
        *carry = x >= 65536;
    }
    Skip::of_word(word).holds(x)
}

/// The 17 bits of carry and result after the shift, by the table.
#[inline(always)]
#[tactic(auto, unfolding(crate::specs::Arithmetic::shifted_number, crate::specs::Arithmetic::function_number))]
fn shifted_number(word: Word, acs: &[Word; 4], carry: bool) -> u32
    ensures value { result ≡ shifted_number word acs.now carry }
    ensures range { result < 2 ^ 17 }
{
    let s = acs[usize::from((word.0 >> 13) % 4)];
    let d = acs[usize::from((word.0 >> 11) % 4)];
    number_of(word, s.0, d.0, carry)
}

/// The 17 bits of carry and result after the shift, by one field of the word behind another.
#[tactic(auto, unfolding(crate::specs::Arithmetic::shifted_number, crate::specs::Arithmetic::function_number))]
fn decoded_number(word: Word, acs: &[Word; 4], carry: bool) -> u32
    ensures value { result ≡ shifted_number word acs.now carry }
    ensures range { result < 2 ^ 17 }
{
    let s = acs[usize::from((word.0 >> 13) % 4)];
    let d = acs[usize::from((word.0 >> 11) % 4)];
    let function = Function::of_word(word);
    let base = CarryBase::of_word(word);
    number(word, function, base, Shift::of_word(word), s.0, d.0, carry)
}
