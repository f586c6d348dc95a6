ghost use Rattle.std.specs.Prelude.{◌≡◌, ◌^◌, ◌<◌};
ghost use Rattle.nova_word.specs.Bits.{bits};
ghost use Rattle.nova_alu.specs.Arithmetic.{shifted};
ghost use Rattle.nova_alu.specs.Codes.{shift_code};

use nova_word::Word;

/// What an arithmetic instruction does with the 17 bits of carry and result.
#[derive(Clone, Copy)]
pub(crate) enum Shift {
    Stay,
    Left,
    Right,
    Swap,
}

impl Shift {
    /// The shift in bits 8-9 of an instruction word.
    #[inline]
    pub(crate) fn of_word(word: Word) -> Shift
        ensures { shift_code result ≡ bits 8 9 word }
    {
        match (word.0 >> 6) & 3 {
            0 => Shift::Stay,
            1 => Shift::Left,
            2 => Shift::Right,
            _ => Shift::Swap,
        }
    }

    /// The 17 bits after the shift.
    #[inline]
    #[tactic(auto, unfolding(crate::specs::Arithmetic::shifted))]
    pub(crate) fn shift(self, x: u32) -> u32
        requires { x < 2 ^ 17 }
        ensures value { result ≡ shifted (shift_code self) x }
        ensures range { result < 2 ^ 17 }
    {
        match self {
            Shift::Stay => x,
            Shift::Left => rotate_left(x),
            Shift::Right => rotate_right(x),
            Shift::Swap => swap_bytes(x),
        }
    }
}

/// Rotates 17 bits to the left by one place. A rotation to the right undoes it.
#[inline]
#[tactic(auto, unfolding(crate::specs::Arithmetic::shifted))]
fn rotate_left(x: u32) -> u32
    requires { x < 2 ^ 17 }
    ensures value { result ≡ shifted 1 x }
    ensures range { result < 2 ^ 17 }
    ensures undone { shifted 2 result ≡ x }
{
    x * 2 % 131072 + x / 65536
}

/// Rotates 17 bits to the right by one place. A rotation to the left undoes it.
#[inline]
#[tactic(auto, unfolding(crate::specs::Arithmetic::shifted))]
fn rotate_right(x: u32) -> u32
    requires { x < 2 ^ 17 }
    ensures value { result ≡ shifted 2 x }
    ensures range { result < 2 ^ 17 }
    ensures undone { shifted 1 result ≡ x }
{
    x / 2 + x % 2 * 65536
}

/// Swaps the two bytes of the result and keeps the carry. A second swap undoes it.
#[inline]
#[tactic(auto, unfolding(crate::specs::Arithmetic::shifted))]
fn swap_bytes(x: u32) -> u32
    requires { x < 2 ^ 17 }
    ensures value { result ≡ shifted 3 x }
    ensures range { result < 2 ^ 17 }
    ensures undone { shifted 3 result ≡ x }
{
    x / 65536 * 65536 + x % 256 * 256 + x / 256 % 256
}
