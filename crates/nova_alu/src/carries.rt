ghost use Rattle.std.specs.Prelude.{◌≡◌};
ghost use Rattle.nova_word.specs.Bits.{bits};
ghost use Rattle.nova_alu.specs.Arithmetic.{base_carry};
ghost use Rattle.nova_alu.specs.Codes.{carry_code};

use nova_word::Word;

/// Where an arithmetic instruction takes its base carry from.
#[derive(Clone, Copy)]
pub(crate) enum CarryBase {
    Carry,
    Zero,
    One,
    Complement,
}

impl CarryBase {
    /// The choice in bits 10-11 of an instruction word.
    #[inline]
    pub(crate) fn of_word(word: Word) -> CarryBase
        ensures { carry_code result ≡ bits 10 11 word }
    {
        match (word.0 >> 4) & 3 {
            0 => CarryBase::Carry,
            1 => CarryBase::Zero,
            2 => CarryBase::One,
            _ => CarryBase::Complement,
        }
    }

    /// The base carry, where Carry is this.
    #[inline]
    #[tactic(auto, unfolding(crate::specs::Arithmetic::base_carry))]
    pub(crate) fn base(self, carry: bool) -> bool
        ensures { result ≡ base_carry (carry_code self) carry }
    {
        // Two bits that need no branch, which the processor could guess wrongly.
        let follows = matches!(self, CarryBase::Carry | CarryBase::Complement);
        let inverted = matches!(self, CarryBase::One | CarryBase::Complement);
        (follows && carry) != inverted
    }
}
