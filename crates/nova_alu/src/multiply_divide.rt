ghost use Rattle.std.specs.Prelude.{◌≡◌, ◌^◌, ◌<◌, ◌+◌, ◌*◌, ◌/◌, ◌%◌, nat_le, All, slice_index};
ghost use Rattle.nova_alu.specs.MultiplyDivide.{divided, double_word, multiplied, divide_overflows, product};

use nova_word::Word;

/// What DIV leaves.
#[derive(Clone, Copy, Debug, PartialEq, Eq)]
pub struct Divided {
    /// AC0 to AC3.
    pub acs: [Word; 4],
    /// Carry: the quotient would not have fitted a word, and nothing else changed.
    pub carry: bool,
}

/// Executes MUL: AC1 times AC2 plus AC0, unsigned, with its high word in AC0 and its low one in AC1.
#[inline]
#[tactic(auto, unfolding(crate::specs::MultiplyDivide::multiplied, crate::specs::MultiplyDivide::divided))]
pub fn multiply(acs: [Word; 4]) -> [Word; 4]
    ensures accumulators { result ≡ multiplied acs }
    ensures words { All (λ n. n < 2 ^ 16) result }

    // What follows from it: AC0 and AC1 hold the whole product, and DIV undoes MUL where the addend is below AC2.
    ensures whole { double_word result ≡ product acs }
    ensures undone { slice_index acs 0 < slice_index acs 2 → divided result ≡ acs }
{
    let [addend, multiplicand, multiplier, other] = acs;
    let product = u32::from(multiplicand.0) * u32::from(multiplier.0) + u32::from(addend.0);
    [
        Word((product / 65536) as u16),
        Word((product % 65536) as u16),
        multiplier,
        other,
    ]
}

/// Executes MUL as `multiply` does, on accumulators where they stand. All four are never read together: a processor
/// waits where it reads several words at once of which one was just written.
#[inline(always)]
#[tactic(auto, unfolding(crate::specs::MultiplyDivide::multiplied))]
pub fn multiply_in_place(acs: &mut [Word; 4])
    ensures { acs.new ≡ multiplied acs.old }
{
    let whole = product_of(acs[0], acs[1], acs[2]);
    acs[0] = high_of(whole);
    acs[1] = low_of(whole);
}

#[inline(always)]
fn product_of(addend: Word, multiplicand: Word, multiplier: Word) -> u32
    ensures { result ≡ multiplicand * multiplier + addend }
{
    u32::from(multiplicand.0) * u32::from(multiplier.0) + u32::from(addend.0)
}

#[inline(always)]
fn high_of(number: u32) -> Word
    ensures { result ≡ number / 2 ^ 16 }
{
    Word((number / 65536) as u16)
}

#[inline(always)]
fn low_of(number: u32) -> Word
    ensures { result ≡ number % 2 ^ 16 }
{
    Word((number % 65536) as u16)
}

/// Executes DIV as `divide` does, on accumulators and a Carry where they stand.
#[inline(always)]
#[tactic(auto, unfolding(crate::specs::MultiplyDivide::divided))]
pub fn divide_in_place(acs: &mut [Word; 4], carry: &mut bool)
    ensures accumulators { acs.new ≡ divided acs.old }
    ensures carry { carry.new ≡ divide_overflows acs.old }
{
    let overflows = is_at_least(acs[0], acs[2]);
    *carry = overflows;
    if !overflows {
        let (quotient, remainder) = quotient_of(acs[0], acs[1], acs[2]);
        acs[0] = remainder;
        acs[1] = quotient;
    }
}

#[inline(always)]
fn is_at_least(word: Word, other: Word) -> bool
    ensures { result ≡ nat_le other word }
{
    word.0 >= other.0
}

// The quotient and the remainder of a double word, where the quotient fits a word.
#[inline(always)]
fn quotient_of(high: Word, low: Word, divisor: Word) -> (Word, Word)
    requires { high < divisor }
    ensures quotient { result.0 ≡ (high * 2 ^ 16 + low) / divisor }
    ensures remainder { result.1 ≡ (high * 2 ^ 16 + low) % divisor }
{
    let dividend = u32::from(high.0) * 65536 + u32::from(low.0);
    let by = u32::from(divisor.0);
    (Word((dividend / by) as u16), Word((dividend % by) as u16))
}

/// Executes DIV: the unsigned number in AC0 (high) and AC1 is divided by AC2, with the quotient in AC1 and the
/// remainder in AC0. Where the quotient would not fit a word, Carry is 1 and the accumulators stay; else Carry is 0.
#[inline]
#[tactic(auto, unfolding(crate::specs::MultiplyDivide::multiplied, crate::specs::MultiplyDivide::divided))]
pub fn divide(acs: [Word; 4]) -> Divided
    ensures accumulators { result.acs ≡ divided acs }
    ensures carry { result.carry ≡ divide_overflows acs }
    ensures words { All (λ n. n < 2 ^ 16) result.acs }

    // What follows from these, where the quotient fits: the remainder is below the divisor, quotient times divisor plus
    // remainder is the dividend, and so MUL undoes DIV.
    ensures remainder { slice_index acs 0 < slice_index acs 2 → slice_index result.acs 0 < slice_index acs 2 }
    ensures quotient { slice_index acs 0 < slice_index acs 2 → product result.acs ≡ double_word acs }
    ensures undone { slice_index acs 0 < slice_index acs 2 → multiplied result.acs ≡ acs }
{
    let [high, low, divisor, other] = acs;
    if high.0 >= divisor.0 {
        return Divided { acs, carry: true };
    }
    let dividend = u32::from(high.0) * 65536 + u32::from(low.0);
    let by = u32::from(divisor.0);
    Divided {
        acs: [
            Word((dividend % by) as u16),
            Word((dividend / by) as u16),
            divisor,
            other,
        ],
        carry: false,
    }
}
