// A tape operation is done on the file of a drive.
ghost use Rattle.std.specs.Prelude.{◌≡◌, ◌<◌, ◌≤◌, ◌^◌, ◌*◌, ◌+◌, IsTrue, [], take, nat_le, true, false};
ghost use Rattle.file_traits.specs.OneList.{longest_list, shown};
ghost use Rattle.unit_trait.specs.declared.calls.TapeEnd.TheVariants as ends;
ghost use Rattle.unit_trait.specs.declared.calls.Got.TheVariants as gots;
ghost use Rattle.simh_tape.specs.Reading.{next_act};
ghost use Rattle.simh_tape.specs.Spacing.{space_act};
ghost use Rattle.simh_tape.specs.Writing.{block_bytes, mark_bytes};
ghost use Rattle.memory_transfer.specs.Tapes.{writes_tape, block_put, block_got, came_to, read_answer, space_answer, put_answer, operation};
ghost use Rattle.memory_transfer.specs.Tapes.{failing_call, writing_failure, erasing_failure, block_written, mark_written};
ghost use Rattle.memory_transfer.specs.Tapes.{memory_read, memory_operated, item_written, image_operated};
ghost use Rattle.memory_transfer.specs.Operated.{operated, failure_of, stop_of, IsOnImage, CountsStop, IsTapeCall};
ghost use Rattle.memory_transfer.specs.Operated.{IsOfTape};

use crate::word_bytes::{tape_bytes, tape_word};
use file_traits::{Bytes, FileCall};
use nova_memory::Memory;
use nova_word::{Addr, Word};
use simh_tape::{Item, PutFault, TapeFault, erase_rest, read_next, space, write_block, write_mark};
use unit_trait::{Got, TapeEnd, TapeGot, TapeOrder};

/// How many bytes the words of the longest block have that is written, and the most that is read of one.
const MOST_BYTES: usize = 8192;

/// The place that no writing passes, in bytes: 64 MiB.
const LAST_PLACE: u64 = 67_108_864;

/// Why an operation has no answer.
#[derive(Clone, Copy)]
pub enum TapeStop {
    /// The image is bad at that place.
    Image(u64),
    /// A call on the file failed, behind so many bytes of what was to be written.
    Call(PutFault),
}

/// Does an operation on a tape, by the order of its drive: its command, the place of the tape, the address in memory,
/// and how many words or blocks. The answer says where the tape stands then (SIMH Magtape Representation and Handling).
/// After an `Image` memory and the image are as they were; after a `Call` the image has what the call had written.
pub fn operate<B: Bytes>(
    memory: &mut Memory,
    order: TapeOrder,
    tape: &mut B,
) -> Result<Got, TapeStop>
    requires place { order.place ≤ longest_list }
    requires address { order.address < 2 ^ 15 }
    requires some { 1 ≤ order.count }
    requires most { order.count ≤ 2 ^ 12 }
    requires writable { IsTrue (writes_tape order) → IsTrue (B.writable tape.old) }
    ensures said { IsTrue B.tells → operated result ≡ operation (failure_of result) (shown (B.content tape.old)) order }
    ensures memory { IsTrue B.tells → memory.new
        ≡ memory_operated (failure_of result) (shown (B.content tape.old)) order memory.old }
    ensures image { IsTrue B.tells → B.content tape.new
        ≡ image_operated (failure_of result) memory.old order (B.content tape.old) }
    ensures behind { B.behind tape.new ≡ B.behind tape.old }
    ensures bound { IsOnImage result }
    ensures call { IsTapeCall result }
    ensures moved { IsOfTape result }
    ensures counts { CountsStop (B.fault_count tape.old) (B.fault_count tape.new) result }
{
    match order.command {
        0 => read(memory, order, tape),
        1 => Ok(came_to(TapeEnd::Plain, 0, 0, 0)),
        3 => pass(order, true, tape),
        4 => pass(order, false, tape),
        5 => write(memory, order, tape),
        6 => mark(order, tape),
        7 => erase(order, tape),
        _ => Ok(Got::Done),
    }
}

// Where an operation ended that read no block.
fn came_to(end: TapeEnd, place: u64, words: u16, passed: u16) -> Got
    ensures { result ≡ gots.Tape (came_to end place words passed) }
{
    Got::Tape(TapeGot {
        end,
        place,
        words,
        passed,
        odd: false,
        flagged: false,
        lost: false,
    })
}

// Reads an item; the words of a block go into memory.
fn read<B: Bytes>(memory: &mut Memory, order: TapeOrder, tape: &mut B) -> Result<Got, TapeStop>
    requires place { order.place ≤ longest_list }
    requires address { order.address < 2 ^ 15 }
    requires most { order.count ≤ 2 ^ 12 }
    ensures said { IsTrue B.tells → operated result
        ≡ read_answer order (next_act (shown (B.content tape.old)) order.place (failing_call (failure_of result))) }
    ensures memory { IsTrue B.tells → memory.new ≡ memory_read (shown (B.content tape.old)) order
        (next_act (shown (B.content tape.old)) order.place (failing_call (failure_of result))) memory.old }
    ensures same { B.content tape.new ≡ B.content tape.old }
    ensures behind { B.behind tape.new ≡ B.behind tape.old }
    ensures bound { IsOnImage result }
    ensures call { IsTapeCall result }
    ensures moved { IsOfTape result }
    ensures counts { CountsStop (B.fault_count tape.old) (B.fault_count tape.new) result }
{
    let mut bytes = [0; MOST_BYTES];
    match read_next(tape, order.place, &mut bytes) {
        Err(fault) => Err(stop_of(fault)),
        Ok(Item::Mark { place }) => Ok(came_to(TapeEnd::Mark, place, 0, 0)),
        Ok(Item::EndOfMedium) => Ok(came_to(TapeEnd::Medium, order.place, 0, 0)),
        Ok(Item::LoadPoint) => Ok(came_to(TapeEnd::LoadPoint, 0, 0, 0)),
        Ok(
            Item::Block {
                length,
                flagged,
                taken: _,
                place,
            },
        ) => {
            let there = length.div_ceil(2);
            let words = there.min(u32::from(order.count)) as u16;
            put_block(memory, order.address, words, &bytes);
            Ok(Got::Tape(TapeGot {
                end: TapeEnd::Plain,
                place,
                words,
                passed: 0,
                odd: length % 2 == 1,
                flagged,
                lost: there > u32::from(order.count),
            }))
        }
    }
}

// Puts the first words of a block into memory, from an address on.
#[tactic(auto, unfolding(crate::specs::Tapes::block_put, crate::specs::Tapes::word_on_tape))]
fn put_block(memory: &mut Memory, address: u16, words: u16, bytes: &[u8; 8192])
    requires address { address < 2 ^ 15 }
    requires most { words ≤ 2 ^ 12 }
    ensures { memory.new ≡ block_put words address bytes.now memory.old }
{
    for n in 0..words {
        let place = 2 * usize::from(n);
        let word = tape_word(bytes[place], bytes[place + 1]);
        memory.write(Addr::of_word(Word(address + n)), Word(word));
    }
}

// Passes over blocks.
fn pass<B: Bytes>(order: TapeOrder, forward: bool, tape: &mut B) -> Result<Got, TapeStop>
    requires { order.place ≤ longest_list }
    ensures said { IsTrue B.tells → operated result
        ≡ space_answer (space_act (shown (B.content tape.old)) order.place order.count forward (failing_call (failure_of result))) }
    ensures same { B.content tape.new ≡ B.content tape.old }
    ensures behind { B.behind tape.new ≡ B.behind tape.old }
    ensures bound { IsOnImage result }
    ensures call { IsTapeCall result }
    ensures moved { IsOfTape result }
    ensures counts { CountsStop (B.fault_count tape.old) (B.fault_count tape.new) result }
{
    match space(tape, order.place, order.count, forward) {
        Err(fault) => Err(stop_of(fault)),
        Ok(spaced) => Ok(came_to(spaced.end, spaced.place, 0, spaced.passed)),
    }
}

// Writes words of memory as a block.
fn write<B: Bytes>(memory: &Memory, order: TapeOrder, tape: &mut B) -> Result<Got, TapeStop>
    requires place { order.place ≤ longest_list }
    requires address { order.address < 2 ^ 15 }
    requires some { 1 ≤ order.count }
    requires most { order.count ≤ 2 ^ 12 }
    requires writable { IsTrue (B.writable tape.old) }
    ensures said { operated result ≡ put_answer (writing_failure (block_written order.count) (failure_of result)) order
        (block_written order.count) ends.Plain order.count }
    ensures image { IsTrue B.tells → B.content tape.new
        ≡ item_written (writing_failure (block_written order.count) (failure_of result)) order.place
        (block_bytes (block_got order.count order.address memory.now)) (B.content tape.old) }
    ensures behind { B.behind tape.new ≡ B.behind tape.old }
    ensures bound { IsOnImage result }
    ensures call { IsTapeCall result }
    ensures moved { IsOfTape result }
    ensures counts { CountsStop (B.fault_count tape.old) (B.fault_count tape.new) result }
{
    let length = 2 * usize::from(order.count);
    if !fits(order, length as u64 + 8) {
        return Ok(came_to(TapeEnd::Medium, order.place, 0, 0));
    }
    let bytes = block_of(memory, order.address, order.count);
    match write_block(tape, order.place, &bytes[..length]) {
        Ok(place) => Ok(came_to(TapeEnd::Plain, place, order.count, 0)),
        Err(fault) => Err(TapeStop::Call(fault)),
    }
}

// The bytes of words of memory, from an address on, behind which zero bytes stand.
#[tactic(auto, unfolding(crate::specs::Tapes::block_got))]
fn block_of(memory: &Memory, address: u16, words: u16) -> [u8; 8192]
    requires address { address < 2 ^ 15 }
    requires most { words ≤ 2 ^ 12 }
    ensures { take (2 * words) result ≡ block_got words address memory.now }
{
    let mut bytes = [0; MOST_BYTES];
    for n in 0..words {
        let word = memory.read(Addr::of_word(Word(address + n)));
        let place = 2 * usize::from(n);
        let [high, low] = tape_bytes(word.0);
        bytes[place] = high;
        bytes[place + 1] = low;
    }
    bytes
}

// Writes a tape mark.
fn mark<B: Bytes>(order: TapeOrder, tape: &mut B) -> Result<Got, TapeStop>
    requires place { order.place ≤ longest_list }
    requires writable { IsTrue (B.writable tape.old) }
    ensures said { operated result ≡ put_answer (writing_failure mark_written (failure_of result)) order mark_written ends.Mark 0 }
    ensures image { IsTrue B.tells → B.content tape.new
        ≡ item_written (writing_failure mark_written (failure_of result)) order.place mark_bytes (B.content tape.old) }
    ensures behind { B.behind tape.new ≡ B.behind tape.old }
    ensures bound { IsOnImage result }
    ensures call { IsTapeCall result }
    ensures moved { IsOfTape result }
    ensures counts { CountsStop (B.fault_count tape.old) (B.fault_count tape.new) result }
{
    if !fits(order, 4) {
        return Ok(came_to(TapeEnd::Medium, order.place, 0, 0));
    }
    match write_mark(tape, order.place) {
        Ok(place) => Ok(came_to(TapeEnd::Mark, place, 0, 0)),
        Err(fault) => Err(TapeStop::Call(fault)),
    }
}

// Ends the tape where it stands.
fn erase<B: Bytes>(order: TapeOrder, tape: &mut B) -> Result<Got, TapeStop>
    requires place { order.place ≤ longest_list }
    requires writable { IsTrue (B.writable tape.old) }
    ensures said { operated result ≡ put_answer (erasing_failure (failure_of result)) order 0 ends.Plain 0 }
    ensures image { IsTrue B.tells → B.content tape.new
        ≡ item_written (erasing_failure (failure_of result)) order.place [] (B.content tape.old) }
    ensures behind { B.behind tape.new ≡ B.behind tape.old }
    ensures bound { IsOnImage result }
    ensures call { IsTapeCall result }
    ensures moved { IsOfTape result }
    ensures counts { CountsStop (B.fault_count tape.old) (B.fault_count tape.new) result }
{
    match erase_rest(tape, order.place) {
        Ok(()) => Ok(came_to(TapeEnd::Plain, order.place, 0, 0)),
        Err(fault) => Err(TapeStop::Call(fault)),
    }
}

// Whether so many bytes can be written where the tape stands.
fn fits(order: TapeOrder, size: u64) -> bool
    requires place { order.place ≤ longest_list }
    ensures { result ≡ nat_le (order.place + size) longest_list }
{
    size <= LAST_PLACE - order.place
}

// Why an item was not read, or blocks were not passed.
fn stop_of(fault: TapeFault) -> TapeStop
    ensures { result ≡ stop_of fault }
{
    match fault {
        TapeFault::BadImage(place) => TapeStop::Image(place),
        TapeFault::Failed(call) => TapeStop::Call(PutFault { call, done: 0 }),
    }
}
