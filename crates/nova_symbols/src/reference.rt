//! The front of a memory reference, for a reader whose addresses have names.

ghost use Rattle.std.specs.Prelude.{◌≡◌, ◌≤◌, length, option_map, IfSome};
ghost use Rattle.nova_symbols.specs.Operands.{accumulator_at};
ghost use Rattle.nova_symbols.specs.Reference.{load_front, front_of, reference_at};

use crate::memory_reference::memory_named;
use crate::names::Shape;
use crate::operands::{accumulator_at, after_comma};
use line_text::{past_blanks, word_at};

/// All of a memory reference but its address: the word with a 0 in the place of the address, and the text from the
/// address on, behind blanks.
#[derive(Clone, Copy, Debug, PartialEq, Eq)]
pub struct ReferenceFront<'a> {
    /// The word, with its bits 5 to 15 all 0.
    pub word: u16,
    /// The text from the address on.
    pub address: &'a [u8],
}

/// The memory reference that a text begins with. `None` comes exactly where it begins with no name of a memory
/// reference, or with one of a load or a store and without an accumulator and a comma behind that.
#[tactic(auto, unfolding(crate::specs::Reference::reference_at))]
pub fn reference_at(text: &[u8]) -> Option<ReferenceFront<'_>>
    ensures front { option_map (λ r. record { word = r.word; address = r.address.now }) result ≡ reference_at text.now }
    ensures word { IfSome result (λ r. r.word ≤ 0o117770) }
{
    let (word, rest) = word_at(text);
    let naming = memory_named(word)?;
    front_of(naming.shape, naming.bits, rest)
}

fn front_of(shape: Shape, bits: u16, rest: &[u8]) -> Option<ReferenceFront<'_>>
    requires { bits ≤ 0o103770 }
    ensures front { option_map (λ r. record { word = r.word; address = r.address.now }) result ≡ front_of shape bits rest.now }
    ensures word { IfSome result (λ r. r.word ≤ 0o117770) }
{
    let address = past_blanks(rest);
    match shape {
        Shape::Memory => Some(ReferenceFront {
            word: bits,
            address,
        }),
        Shape::Load => load_front(bits, address),
        _ => None,
    }
}

// A load or a store, from its accumulator on.
fn load_front(bits: u16, text: &[u8]) -> Option<ReferenceFront<'_>>
    requires { bits ≤ 0o103770 }
    ensures front { option_map (λ r. record { word = r.word; address = r.address.now }) result
        ≡ load_front bits (accumulator_at text.now) }
    ensures word { IfSome result (λ r. r.word ≤ 0o117770) }
{
    match accumulator_at(text) {
        Ok((accumulator, rest)) => {
            let address = after_comma(rest)?;
            Some(ReferenceFront {
                word: bits + 2048 * accumulator,
                address,
            })
        }
        Err(_) => None,
    }
}
