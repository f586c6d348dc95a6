ghost use Rattle.std.specs.Prelude.{◌≡◌, ◌+◌, ◌*◌, ◌%◌, ◌/◌, ◌∷◌, []};

use byteorder::{BigEndian, ByteOrder, LittleEndian};

/// The word of two bytes, as a sector has it: its low byte first.
pub fn sector_word(low: u8, high: u8) -> u16
    ensures { result ≡ low + 256 * high }
{
    LittleEndian::read_u16(&[low, high])
}

/// The two bytes of a word in a sector.
pub fn sector_bytes(word: u16) -> [u8; 2]
    ensures { result ≡ (word % 256) ∷ (word / 256) ∷ [] }
{
    let mut bytes = [0; 2];
    LittleEndian::write_u16(&mut bytes, word);
    bytes
}

/// The word of two bytes, as a block of a tape has it: its high byte first.
pub fn tape_word(high: u8, low: u8) -> u16
    ensures { result ≡ 256 * high + low }
{
    BigEndian::read_u16(&[high, low])
}

/// The two bytes of a word in a block of a tape.
pub fn tape_bytes(word: u16) -> [u8; 2]
    ensures { result ≡ (word / 256) ∷ (word % 256) ∷ [] }
{
    let mut bytes = [0; 2];
    BigEndian::write_u16(&mut bytes, word);
    bytes
}
