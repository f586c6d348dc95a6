ghost use Rattle.std.specs.Prelude.{◌≡◌};
ghost use Rattle.operand_forms.specs.Operands.{octal, decimal};

use nova_word::{NumberFault, read_decimal, read_octal};

/// The octal number of a word. One that is too large for its reader is held as 2^64 - 1.
#[tactic(auto, unfolding(crate::specs::Operands::octal))]
pub fn octal(word: &[u8]) -> Option<u64>
    ensures { result ≡ octal word.now }
{
    match read_octal(word) {
        Ok(n) => Some(u64::from(n)),
        Err(NumberFault::TooLarge) => Some(u64::MAX),
        Err(NumberFault::BadDigit(_)) => None,
        Err(NumberFault::Empty) => None,
    }
}

/// The decimal number of a word. One that is too large for its reader is held as 2^64 - 1.
#[tactic(auto, unfolding(crate::specs::Operands::decimal))]
pub fn decimal(word: &[u8]) -> Option<u64>
    ensures { result ≡ decimal word.now }
{
    match read_decimal(word) {
        Ok(n) => Some(n),
        Err(NumberFault::TooLarge) => Some(u64::MAX),
        Err(NumberFault::BadDigit(_)) => None,
        Err(NumberFault::Empty) => None,
    }
}
