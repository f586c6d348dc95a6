ghost use Rattle.std.specs.Prelude.{◌≡◌, ℕ, ◌+◌, ◌*◌, ◌<◌, ◌≤◌, ◌^◌, ◌++◌, length, take, IsTrue, IfOk, IfErr};
ghost use Rattle.fault_counts.specs.Faults.{CountsFault};
ghost use Rattle.file_traits.specs.FileCalls.{written_count};
ghost use Rattle.file_traits.specs.declared.files.FileCall.TheVariants.{SetLength, Write};
ghost use Rattle.file_traits.specs.OneList.{longest_list};
ghost use Rattle.file_traits.specs.Streams.{joined};
ghost use Rattle.simh_tape.specs.Image.{block_size};
ghost use Rattle.simh_tape.specs.Writing.{word_bytes, block_bytes, mark_bytes, after_writing, after_erasing, part_written, FailsWriting};

use byteorder::{ByteOrder, LittleEndian};
use file_traits::{Bytes, Failed, FileCall, WriteFault};

/// A call on the image that failed, and how many bytes of the item were written then.
#[derive(Clone, Copy, Debug, PartialEq, Eq)]
pub struct PutFault {
    pub call: FileCall,
    pub done: u64,
}

/// Writes a block at a place, without an error flag, and answers the place behind it. The tape ends there then. A gap
/// in front of it is filled with zero bytes.
pub fn write_block<B: Bytes>(tape: &mut B, place: u64, bytes: &[u8]) -> Result<u64, PutFault>
    requires some { 0 < length bytes.now }
    requires most { length bytes.now < 2 ^ 24 }
    requires end { place + block_size (length bytes.now) ≤ longest_list }
    requires writable { IsTrue (B.writable tape.old) }
    ensures written { IsTrue B.tells → B.content tape.new ≡ after_writing (B.content tape.old) place (block_bytes bytes.now) result }
    ensures place { IfOk result (λ behind. behind ≡ place + block_size (length bytes.now)) }
    ensures done { IfErr result (λ f. f.done ≤ block_size (length bytes.now)) }
    ensures call { IfErr result FailsWriting }
    ensures writable { B.writable tape.new ≡ B.writable tape.old }
    ensures behind { B.behind tape.new ≡ B.behind tape.old }
    ensures counts { CountsFault (B.fault_count tape.old) (B.fault_count tape.new) result }
{
    let word = length_word(bytes.len() as u32);
    let padding = [0u8];
    write_item(
        tape,
        place,
        &[&word, bytes, &padding[..bytes.len() % 2], &word],
    )
}

/// Writes a tape mark at a place, and answers the place behind it. The tape ends there then. A gap in front of it is
/// filled with zero bytes.
pub fn write_mark<B: Bytes>(tape: &mut B, place: u64) -> Result<u64, PutFault>
    requires end { place + 4 ≤ longest_list }
    requires writable { IsTrue (B.writable tape.old) }
    ensures written { IsTrue B.tells → B.content tape.new ≡ after_writing (B.content tape.old) place mark_bytes result }
    ensures place { IfOk result (λ behind. behind ≡ place + 4) }
    ensures done { IfErr result (λ f. f.done ≤ 4) }
    ensures call { IfErr result FailsWriting }
    ensures writable { B.writable tape.new ≡ B.writable tape.old }
    ensures behind { B.behind tape.new ≡ B.behind tape.old }
    ensures counts { CountsFault (B.fault_count tape.old) (B.fault_count tape.new) result }
{
    let word = length_word(0);
    write_item(tape, place, &[&word])
}

// The bytes of a length, the lowest first.
fn length_word(length: u32) -> [u8; 4]
    ensures { result ≡ word_bytes length }
{
    let mut bytes = [0; 4];
    LittleEndian::write_u32(&mut bytes, length);
    bytes
}

/// Ends the tape at a place. A gap in front of it is filled with zero bytes. Where the call fails, nothing has changed.
pub fn erase_rest<B: Bytes>(tape: &mut B, place: u64) -> Result<(), PutFault>
    requires end { place ≤ longest_list }
    requires writable { IsTrue (B.writable tape.old) }
    ensures written { IsTrue B.tells → B.content tape.new ≡ after_erasing (B.content tape.old) place result }
    ensures call { IfErr result (λ f. f ≡ record { call = SetLength; done = 0 }) }
    ensures writable { B.writable tape.new ≡ B.writable tape.old }
    ensures behind { B.behind tape.new ≡ B.behind tape.old }
    ensures counts { CountsFault (B.fault_count tape.old) (B.fault_count tape.new) result }
{
    match tape.set_length(place) {
        Ok(()) => Ok(()),
        Err(Failed) => Err(PutFault {
            call: FileCall::SetLength,
            done: 0,
        }),
    }
}

// Writes the pieces of an item at a place, where the tape then ends.
fn write_item<B: Bytes>(tape: &mut B, place: u64, pieces: &[&[u8]]) -> Result<u64, PutFault>
    requires end { place + length (joined pieces.now) ≤ longest_list }
    requires writable { IsTrue (B.writable tape.old) }
    ensures written { IsTrue B.tells → B.content tape.new ≡ after_writing (B.content tape.old) place (joined pieces.now) result }
    ensures place { IfOk result (λ behind. behind ≡ place + length (joined pieces.now)) }
    ensures done { IfErr result (λ f. f.done ≤ length (joined pieces.now)) }
    ensures call { IfErr result FailsWriting }
    ensures writable { B.writable tape.new ≡ B.writable tape.old }
    ensures behind { B.behind tape.new ≡ B.behind tape.old }
    ensures counts { CountsFault (B.fault_count tape.old) (B.fault_count tape.new) result }
{
    match erase_rest(tape, place) {
        Ok(()) => write_pieces(tape, place, pieces),
        Err(fault) => Err(fault),
    }
}

// Writes pieces, one behind another, at a place at which the tape ends.
fn write_pieces<B: Bytes>(tape: &mut B, place: u64, pieces: &[&[u8]]) -> Result<u64, PutFault>
    requires at { IsTrue B.tells → length (B.content tape.old) ≡ place }
    requires end { place + length (joined pieces.now) ≤ longest_list }
    requires writable { IsTrue (B.writable tape.old) }
    ensures written { IsTrue B.tells → B.content tape.new ≡ B.content tape.old ++ part_written (joined pieces.now) result }
    ensures place { IfOk result (λ behind. behind ≡ place + length (joined pieces.now)) }
    ensures done { IfErr result (λ f. f.done ≤ length (joined pieces.now)) }
    ensures call { IfErr result (λ f. f.call ≡ Write) }
    ensures writable { B.writable tape.new ≡ B.writable tape.old }
    ensures behind { B.behind tape.new ≡ B.behind tape.old }
    ensures counts { CountsFault (B.fault_count tape.old) (B.fault_count tape.new) result }
{
    let mut done = 0;
    for piece in pieces {
        match write_piece(tape, place + done, piece) {
            Ok(()) => done += piece.len() as u64,
            Err(fault) => {
                return Err(PutFault {
                    call: FileCall::Write,
                    done: done + fault.done as u64,
                });
            }
        }
    }
    Ok(place + done)
}

// Writes a piece at a place at which the tape ends. For an empty one no call is made.
fn write_piece<B: Bytes>(tape: &mut B, place: u64, piece: &[u8]) -> Result<(), WriteFault>
    requires at { IsTrue B.tells → length (B.content tape.old) ≡ place }
    requires end { place + length piece.now ≤ longest_list }
    requires writable { IsTrue (B.writable tape.old) }
    ensures bound { IfErr result (λ f. f.done ≤ length piece.now) }
    ensures content { IsTrue B.tells → B.content tape.new ≡ B.content tape.old ++ take (written_count result piece.now) piece.now }
    ensures writable { B.writable tape.new ≡ B.writable tape.old }
    ensures behind { B.behind tape.new ≡ B.behind tape.old }
    ensures counts { CountsFault (B.fault_count tape.old) (B.fault_count tape.new) result }
{
    if piece.is_empty() {
        return Ok(());
    }
    tape.write_at(place, piece)
}
