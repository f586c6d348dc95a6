ghost use Rattle.std.specs.Prelude.{◌≡◌, ℕ, ◌+◌, ◌-◌, ◌*◌, ◌<◌, ◌≤◌, ◌^◌, length, min, take, drop, IsTrue, IfOk, IfErr};
ghost use Rattle.fault_counts.specs.Faults.{CountsFault};
ghost use Rattle.file_traits.specs.FileCalls.{Reads};
ghost use Rattle.file_traits.specs.OneList.{longest_list, shown};
ghost use Rattle.simh_tape.specs.Image.{word_at, is_length_word, with_front};
ghost use Rattle.simh_tape.specs.Pieces.{word_said, WordEnds};

use byteorder::{ByteOrder, LittleEndian};
use file_traits::{Bytes, Failed};

/// The place behind the last byte that can be read: 64 MiB.
const LAST_PLACE: u64 = 67_108_864;

/// What stands at a place of an image.
#[derive(Clone, Copy, Debug, PartialEq, Eq)]
pub(crate) enum Word {
    /// The image has ended.
    Nothing,
    /// The image ends within a word.
    Cut,
    Is(u32),
}

/// The word at a place of an image. Where no byte can be read, no call is made.
pub(crate) fn read_word<B: Bytes>(tape: &mut B, place: u64) -> Result<Word, Failed>
    requires { place ≤ 2 * longest_list }
    ensures word { IsTrue B.tells → IfOk result (λ w. word_said w ≡ word_at (shown (B.content tape.old)) place) }
    ensures end { IfOk result (λ w. WordEnds place w) }
    ensures made { IfErr result (λ f. place < longest_list) }
    ensures same { B.content tape.new ≡ B.content tape.old }
    ensures writable { B.writable tape.new ≡ B.writable tape.old }
    ensures behind { B.behind tape.new ≡ B.behind tape.old }
    ensures counts { CountsFault (B.fault_count tape.old) (B.fault_count tape.new) result }
{
    if place >= LAST_PLACE {
        return Ok(Word::Nothing);
    }
    let mut buf = [0u8; 4];
    let count = read_all(tape, place, &mut buf)?;
    if count == 0 {
        return Ok(Word::Nothing);
    }
    if count < 4 {
        return Ok(Word::Cut);
    }
    Ok(Word::Is(LittleEndian::read_u32(&buf)))
}

/// Reads the data of a block, which has so many bytes from that place on, into the front of `into`: as much as fits.
pub(crate) fn read_data<B: Bytes>(
    tape: &mut B,
    place: u64,
    count: u32,
    into: &mut [u8],
) -> Result<usize, Failed>
    requires { place ≤ 2 * longest_list }
    ensures taken { IsTrue B.tells → place + count ≤ length (shown (B.content tape.old)) → IfOk result (λ n. n ≡ min count (length into.old)) }
    ensures bytes { IsTrue B.tells → place + count ≤ length (shown (B.content tape.old))
        → IfOk result (λ _. into.new ≡ with_front (take count (drop place (shown (B.content tape.old)))) into.old) }
    ensures bound { IfOk result (λ n. n ≤ min count (length into.old)) }
    ensures room { length into.new ≡ length into.old }
    ensures same { B.content tape.new ≡ B.content tape.old }
    ensures writable { B.writable tape.new ≡ B.writable tape.old }
    ensures behind { B.behind tape.new ≡ B.behind tape.old }
    ensures counts { CountsFault (B.fault_count tape.old) (B.fault_count tape.new) result }
{
    let most = into.len().min(count as usize);
    read_all(tape, place, &mut into[..most])
}

/// Whether a word is the length word of a block.
pub(crate) fn is_length_word(word: u32) -> bool
    ensures { result ≡ is_length_word word }
{
    word % (1 << 24) > 0 && word / (1 << 24) % (1 << 7) == 0
}

// Reads until the buffer is full or the bytes end.
fn read_all<B: Bytes>(source: &mut B, place: u64, buf: &mut [u8]) -> Result<usize, Failed>
    requires { place + length buf.old < 2 ^ 64 }
    ensures bound { IfOk result (λ n. n ≤ length buf.new) }
    ensures end { IfOk result (λ n. n ≤ longest_list - place) }
    ensures reads { IsTrue B.tells → Reads (shown (B.content source.old)) place result buf.new }
    ensures same { B.content source.new ≡ B.content source.old }
    ensures writable { B.writable source.new ≡ B.writable source.old }
    ensures behind { B.behind source.new ≡ B.behind source.old }
    ensures counts { CountsFault (B.fault_count source.old) (B.fault_count source.new) result }
{
    let mut have = 0;
    while have < buf.len() {
        let count = source.read_at(place + have as u64, &mut buf[have..])?;
        if count == 0 {
            return Ok(have);
        }
        have += count;
    }
    Ok(have)
}
