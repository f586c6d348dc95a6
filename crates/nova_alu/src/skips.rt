ghost use Rattle.std.specs.Prelude.{◌≡◌, ◌^◌, ◌<◌};
ghost use Rattle.nova_word.specs.Bits.{bits};
ghost use Rattle.nova_alu.specs.Arithmetic.{skips};
ghost use Rattle.nova_alu.specs.Codes.{skip_code};

use nova_word::Word;

/// When an arithmetic instruction skips the next one: where one of those that it tests, the result and the carry, is 0,
/// or, inverted, where none of them is. It never skips where it tests none, and inverted always.
#[derive(Clone, Copy)]
pub(crate) struct Skip {
    tests_result: bool,
    tests_carry: bool,
    inverted: bool,
}

impl Skip {
    /// The skip in bits 13-15 of an instruction word.
    #[inline(always)]
    pub(crate) fn of_word(word: Word) -> Skip
        ensures { skip_code result ≡ bits 13 15 word }
    {
        Skip {
            tests_result: (word.0 >> 2) & 1 == 1,
            tests_carry: (word.0 >> 1) & 1 == 1,
            inverted: word.0 & 1 == 1,
        }
    }

    /// Whether it skips at these 17 bits of carry and result.
    #[inline(always)]
    #[tactic(auto, unfolding(crate::specs::Arithmetic::skips))]
    pub(crate) fn holds(self, x: u32) -> bool
        ensures { result ≡ skips (skip_code self) x }
    {
        if !self.tests_result && !self.tests_carry {
            return self.inverted;
        }
        let zero_carry = self.tests_carry && x < 65536;
        let zero_result = self.tests_result && x % 65536 == 0;
        (zero_carry || zero_result) != self.inverted
    }
}
