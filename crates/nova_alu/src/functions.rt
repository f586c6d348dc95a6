ghost use Rattle.std.specs.Prelude.{◌≡◌, ◌+◌, ◌-◌, ◌%◌, ◌^◌, ◌<◌, ◌≤◌, ◌↔◌, IsTrue};
ghost use Rattle.nova_word.specs.Bits.{bits};
ghost use Rattle.nova_alu.specs.Arithmetic.{complements, function_result};
ghost use Rattle.nova_alu.specs.Codes.{function_code};

use nova_word::Word;

/// What an arithmetic instruction computes, by its name.
#[derive(Clone, Copy)]
pub(crate) enum Function {
    Com,
    Neg,
    Mov,
    Inc,
    Adc,
    Sub,
    Add,
    And,
}

impl Function {
    /// The function in bits 5-7 of an instruction word.
    #[inline]
    pub(crate) fn of_word(word: Word) -> Function
        ensures { function_code result ≡ bits 5 7 word }
    {
        match (word.0 >> 8) & 7 {
            0 => Function::Com,
            1 => Function::Neg,
            2 => Function::Mov,
            3 => Function::Inc,
            4 => Function::Adc,
            5 => Function::Sub,
            6 => Function::Add,
            _ => Function::And,
        }
    }

    /// The sum of 17 bits of the words of source and destination: its low 16 bits are the result, and its carry out
    /// complements the base carry. A word is subtracted by adding its complement.
    #[inline]
    #[tactic(auto, unfolding(crate::specs::Arithmetic::function_result, crate::specs::Arithmetic::complements))]
    pub(crate) fn sum(self, s: u16, d: u16) -> u32
        ensures range { result < 2 ^ 17 }
        ensures low { result % 2 ^ 16 ≡ function_result (function_code self) s d }
        ensures carry_out { IsTrue (complements (function_code self) s d) ↔ (2 ^ 16 ≤ result) }
        ensures adc { function_code self ≡ 4 → result ≡ d + (2 ^ 16 - 1 - s) }
        ensures sub { function_code self ≡ 5 → result + s ≡ d + 2 ^ 16 }
    {
        let source = u32::from(s);
        let destination = u32::from(d);
        match self {
            Function::Com => 65535 - source,
            Function::Neg => 65536 - source,
            Function::Mov => source,
            Function::Inc => source + 1,
            Function::Adc => destination + (65535 - source),
            Function::Sub => destination + (65536 - source),
            Function::Add => destination + source,
            Function::And => u32::from(s & d),
        }
    }
}
