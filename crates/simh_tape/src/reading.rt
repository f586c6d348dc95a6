ghost use Rattle.std.specs.Prelude.{◌≡◌, ◌≤◌, ◌+◌, ◌-◌, length, IsTrue, true, false, None};
ghost use Rattle.file_traits.specs.OneList.{longest_list, shown};
ghost use Rattle.simh_tape.specs.Image.{block_after, block_before, ending_at, item_before};
ghost use Rattle.simh_tape.specs.Reading.{said, failure, next_act, previous_act, NextData, PreviousData, KeepsBuffer, AnswerWithin};
ghost use Rattle.simh_tape.specs.Reading.{FailsReading, WhereFailed, CountsFailed};

use crate::items::{Item, TapeFault};
use crate::words::{Word, is_length_word, read_data, read_word};
use file_traits::{Bytes, Failed, FileCall};

/// Reads the item behind a place, and the first data of a block, as much as fits, into the front of `into`. At the
/// largest place, 67108864, the medium ends, and no call is made.
pub fn read_next<B: Bytes>(tape: &mut B, place: u64, into: &mut [u8]) -> Result<Item, TapeFault>
    requires { place ≤ longest_list }
    ensures item { IsTrue B.tells → said result ≡ next_act (shown (B.content tape.old)) place (failure result) }
    ensures data { IsTrue B.tells → NextData (shown (B.content tape.old)) place result into.old into.new }
    ensures kept { KeepsBuffer result into.old into.new }
    ensures bound { AnswerWithin (length into.old) result }
    ensures same { B.content tape.new ≡ B.content tape.old }
    ensures writable { B.writable tape.new ≡ B.writable tape.old }
    ensures behind { B.behind tape.new ≡ B.behind tape.old }
    ensures call { FailsReading true result }
    ensures counts { CountsFailed (B.fault_count tape.old) (B.fault_count tape.new) result }
{
    match read_word(tape, place) {
        Err(Failed) => Err(TapeFault::Failed(FileCall::Read)),
        Ok(Word::Nothing | Word::Is(u32::MAX)) => Ok(Item::EndOfMedium),
        Ok(Word::Cut) => Err(TapeFault::BadImage(place)),
        Ok(Word::Is(0)) => Ok(Item::Mark { place: place + 4 }),
        Ok(Word::Is(word)) => block_after(tape, place, word, into),
    }
}

// The block behind a place at which that word stands.
fn block_after<B: Bytes>(
    tape: &mut B,
    place: u64,
    word: u32,
    into: &mut [u8],
) -> Result<Item, TapeFault>
    requires { place ≤ longest_list }
    ensures item { IsTrue B.tells → failure result ≡ None → said result ≡ block_after (shown (B.content tape.old)) place word }
    ensures data { IsTrue B.tells → NextData (shown (B.content tape.old)) place result into.old into.new }
    ensures kept { KeepsBuffer result into.old into.new }
    ensures bound { AnswerWithin (length into.old) result }
    ensures same { B.content tape.new ≡ B.content tape.old }
    ensures writable { B.writable tape.new ≡ B.writable tape.old }
    ensures behind { B.behind tape.new ≡ B.behind tape.old }
    ensures call { FailsReading true result }
    ensures counts { CountsFailed (B.fault_count tape.old) (B.fault_count tape.new) result }
{
    if !is_length_word(word) {
        return Err(TapeFault::BadImage(place));
    }
    let length = word % (1 << 24);
    let data = u64::from(length + length % 2);
    match read_word(tape, place + 4 + data) {
        Err(Failed) => Err(TapeFault::Failed(FileCall::Read)),
        Ok(Word::Is(after)) if after == word => match read_data(tape, place + 4, length, into) {
            Err(Failed) => Err(TapeFault::Failed(FileCall::Read)),
            Ok(taken) => Ok(Item::Block {
                length,
                flagged: word / (1 << 31) == 1,
                taken,
                place: place + 8 + data,
            }),
        },
        Ok(Word::Is(_) | Word::Nothing | Word::Cut) => Err(TapeFault::BadImage(place)),
    }
}

/// Reads the item before a place, which is first taken as the end where it lies past that, and the first data of a
/// block, as much as fits, into the front of `into`. The length is asked for, and nothing is read where no word fits
/// before that place.
pub fn read_previous<B: Bytes>(tape: &mut B, place: u64, into: &mut [u8]) -> Result<Item, TapeFault>
    requires { place ≤ longest_list }
    ensures item { IsTrue B.tells → said result ≡ previous_act (shown (B.content tape.old)) place (failure result) }
    ensures data { IsTrue B.tells → PreviousData (shown (B.content tape.old)) result into.old into.new }
    ensures kept { KeepsBuffer result into.old into.new }
    ensures bound { AnswerWithin (length into.old) result }
    ensures same { B.content tape.new ≡ B.content tape.old }
    ensures writable { B.writable tape.new ≡ B.writable tape.old }
    ensures behind { B.behind tape.new ≡ B.behind tape.old }
    ensures call { FailsReading false result }
    ensures counts { CountsFailed (B.fault_count tape.old) (B.fault_count tape.new) result }
{
    match tape.length() {
        Err(Failed) => Err(TapeFault::Failed(FileCall::Length)),
        Ok(length) => item_before(tape, place.min(length), into),
    }
}

// The item that ends at a place of the image.
fn item_before<B: Bytes>(tape: &mut B, end: u64, into: &mut [u8]) -> Result<Item, TapeFault>
    requires { end ≤ longest_list }
    ensures item { IsTrue B.tells → failure result ≡ None → said result ≡ ending_at (shown (B.content tape.old)) end }
    ensures data { IsTrue B.tells → PreviousData (shown (B.content tape.old)) result into.old into.new }
    ensures kept { KeepsBuffer result into.old into.new }
    ensures bound { AnswerWithin (length into.old) result }
    ensures same { B.content tape.new ≡ B.content tape.old }
    ensures writable { B.writable tape.new ≡ B.writable tape.old }
    ensures behind { B.behind tape.new ≡ B.behind tape.old }
    ensures call { FailsReading true result }
    ensures made { WhereFailed result (4 ≤ end) }
    ensures counts { CountsFailed (B.fault_count tape.old) (B.fault_count tape.new) result }
{
    if end == 0 {
        return Ok(Item::LoadPoint);
    }
    if end < 4 {
        return Err(TapeFault::BadImage(0));
    }
    match read_word(tape, end - 4) {
        Err(Failed) => Err(TapeFault::Failed(FileCall::Read)),
        Ok(Word::Nothing | Word::Cut) => Err(TapeFault::BadImage(end - 4)),
        Ok(Word::Is(0)) => Ok(Item::Mark { place: end - 4 }),
        Ok(Word::Is(word)) => block_before(tape, end, word, into),
    }
}

// The block that ends at a place with that word.
fn block_before<B: Bytes>(
    tape: &mut B,
    end: u64,
    word: u32,
    into: &mut [u8],
) -> Result<Item, TapeFault>
    requires within { end ≤ longest_list }
    requires word { 4 ≤ end }
    ensures item { IsTrue B.tells → failure result ≡ None → said result ≡ block_before (shown (B.content tape.old)) end word }
    ensures data { IsTrue B.tells → end ≤ length (shown (B.content tape.old)) → PreviousData (shown (B.content tape.old)) result into.old into.new }
    ensures kept { KeepsBuffer result into.old into.new }
    ensures bound { AnswerWithin (length into.old) result }
    ensures same { B.content tape.new ≡ B.content tape.old }
    ensures writable { B.writable tape.new ≡ B.writable tape.old }
    ensures behind { B.behind tape.new ≡ B.behind tape.old }
    ensures call { FailsReading true result }
    ensures counts { CountsFailed (B.fault_count tape.old) (B.fault_count tape.new) result }
{
    let length = word % (1 << 24);
    let size = 8 + u64::from(length + length % 2);
    if !is_length_word(word) || end < size {
        return Err(TapeFault::BadImage(end - 4));
    }
    let place = end - size;
    match read_word(tape, place) {
        Err(Failed) => Err(TapeFault::Failed(FileCall::Read)),
        Ok(Word::Is(before)) if before == word => match read_data(tape, place + 4, length, into) {
            Err(Failed) => Err(TapeFault::Failed(FileCall::Read)),
            Ok(taken) => Ok(Item::Block {
                length,
                flagged: word / (1 << 31) == 1,
                taken,
                place,
            }),
        },
        Ok(Word::Is(_) | Word::Nothing | Word::Cut) => Err(TapeFault::BadImage(end - 4)),
    }
}
