// LOAD, SAVE, DUMP and RESTORE.
ghost use Rattle.std.specs.Prelude.{◌≡◌, true};
ghost use Rattle.scp_parser.specs.Operands.{addresses_of};
ghost use Rattle.scp_parser.specs.Reading.{needed, load, save, dump, restore};
ghost use Rattle.scp_parser.specs.Views.{Gives, name_piece};

use crate::command::{Piece, Verb};
use crate::fault::ParseFault;
use crate::operands::{bad_operand, maybe_flag, next_word};
use crate::tail::{last_name, piece_before};
use operand_forms::{octal, split};

// The place of the name of a file, which goes up to the end of a line of so many bytes.
fn name_piece(bytes: usize, text: &[u8]) -> Result<Piece, ParseFault>
    ensures { result ≡ name_piece bytes text.now }
{
    let (name, rest) = last_name(text)?;
    Ok(piece_before(bytes, name, rest))
}

/// What a LOAD asks for, by what stands behind its name in a line of so many bytes.
#[tactic(auto, unfolding(crate::specs::Reading::load))]
pub fn load(bytes: usize, text: &[u8]) -> Result<Verb, ParseFault>
    ensures { result ≡ load bytes text.now }
{
    let name = name_piece(bytes, text)?;
    Ok(Verb::Load(name))
}

/// What a SAVE asks for, by what stands behind its name in a line of so many bytes.
#[tactic(auto, unfolding(crate::specs::Reading::save))]
pub fn save(bytes: usize, text: &[u8]) -> Result<Verb, ParseFault>
    ensures { result ≡ save bytes text.now }
{
    let name = name_piece(bytes, text)?;
    Ok(Verb::Save(name))
}

// Two addresses with `-` between them.
#[tactic(auto, using(crate::proofs::SizeLemmas::addresses_none), unfolding(crate::specs::Operands::addresses_of))]
fn addresses_of(word: &[u8]) -> Option<(u64, u64)>
    ensures { result ≡ addresses_of word.now }
{
    let (from, to) = split(word, b'-');
    Some((octal(from)?, octal(to?)?))
}

// The addresses of a DUMP, which must be there.
fn needed_addresses(text: &[u8]) -> Result<((u64, u64), &[u8]), ParseFault>
    ensures { Gives (λ x. (x.0, x.1.now)) result (needed true addresses_of text.now) }
{
    let (word, rest) = next_word(text);
    match addresses_of(word) {
        Some(addresses) => Ok((addresses, rest)),
        None => Err(bad_operand(true, word, rest)),
    }
}

/// What a DUMP asks for, by what stands behind its name in a line of so many bytes.
#[tactic(auto, unfolding(crate::specs::Reading::dump))]
pub fn dump(bytes: usize, text: &[u8]) -> Result<Verb, ParseFault>
    ensures { result ≡ dump bytes text.now }
{
    let ((from, to), rest) = needed_addresses(text)?;
    let name = name_piece(bytes, rest)?;
    Ok(Verb::Dump { from, to, name })
}

/// What a RESTORE asks for, by what stands behind its name in a line of so many bytes.
#[tactic(auto, unfolding(crate::specs::Reading::restore))]
pub fn restore(bytes: usize, text: &[u8]) -> Result<Verb, ParseFault>
    ensures { result ≡ restore bytes text.now }
{
    let (force, rest) = maybe_flag(text, b"-F");
    let name = name_piece(bytes, rest)?;
    Ok(Verb::Restore { force, name })
}
