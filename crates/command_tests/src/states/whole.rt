// States that are read, and written again.
use crate::checked::check;
use crate::states::texts::{
    BUSY, BUSY_DIGEST, FIRST, FIRST_DIGEST, FIRST1, FIRST1_DIGEST, FULL, FULL_DIGEST, both_of,
    equal,
};
use state_file::{Saved, SavedCpu, SavedEvent, SavedSend, StateFault, read_state, write_state};
use std::alloc::Global;
use std::process::Abort;
use std::test::Fail;

/// The length of what is written again, where that is what was read.
fn same_length(alloc: Global, bytes: &[u8]) -> Result<Option<usize>, StateFault> {
    let saved = read_state(alloc, bytes)?;
    let text = write_state(alloc, &saved)?;
    if text.as_slice() == bytes {
        Ok(Some(text.len()))
    } else {
        Ok(None)
    }
}

fn is_written_again(rt: &impl Abort, alloc: Global, bytes: &[u8], line: &str) {
    equal(rt, &same_length(alloc, bytes), &Ok(Some(bytes.len())), line);
}

#[test]
fn the_first_state_is_written_as_it_was_read(rt: HostRuntime) -> Result<(), Fail> {
    let bytes = both_of(rt.alloc(), FIRST, FIRST_DIGEST)?;
    equal(&rt, &bytes.len(), &65910, "the length");
    is_written_again(&rt, rt.alloc(), &bytes, "the first");
    Ok(())
}

#[test]
fn a_busy_state_is_written_as_it_was_read(rt: HostRuntime) -> Result<(), Fail> {
    let bytes = both_of(rt.alloc(), BUSY, BUSY_DIGEST)?;
    is_written_again(&rt, rt.alloc(), &bytes, "the busy one");
    Ok(())
}

/// The processor of the busy state.
fn has_its_cpu(rt: &impl Abort, cpu: &SavedCpu) {
    equal(rt, &cpu.size_k, &4, "size");
    check(rt, cpu.acs == [1, 2, 3, 65535], "accumulators");
    equal(rt, &cpu.pc, &0o100, "PC");
    equal(rt, &cpu.autobit, &1, "the flag of the auto-index rule");
    equal(rt, &cpu.time, &604, "time");
}

/// Its memory.
fn has_its_words(rt: &impl Abort, words: &[u16]) {
    equal(rt, &words.len(), &4096, "words");
    equal(rt, &words.first(), &Some(&0x1234), "the first word");
}

/// Its units, and its events.
fn has_its_units(rt: &impl Abort, saved: &Saved) {
    equal(rt, &saved.units.len(), &10, "units");
    let tape = SavedEvent {
        position: 1,
        unit: 7,
        remaining: 5,
    };
    equal(rt, &saved.agenda.get(2), &Some(&tape), "the third event");
}

/// The machine of the busy state.
fn has_its_machine(rt: &impl Abort, saved: &Saved) {
    has_its_cpu(rt, &saved.cpu);
    has_its_words(rt, saved.words.as_slice());
    has_its_units(rt, saved);
}

/// What the busy state has beside its machine.
fn has_its_lists(rt: &impl Abort, saved: &Saved) {
    equal(rt, &saved.attachments.len(), &5, "files");
    equal(rt, &saved.ports.tti1, &2323, "port");
    equal(rt, &saved.breaks.len(), &3, "breaks");
    equal(rt, &saved.expects.len(), &2, "texts");
}

/// What was printed last, and what is to be sent.
fn has_its_bytes(rt: &impl Abort, saved: &Saved) {
    check(rt, saved.tail.as_slice() == b"\r\n>".as_slice(), "the tail");
    let sent = SavedSend {
        time: 604,
        byte: b'Y',
    };
    equal(rt, &saved.sends.first(), &Some(&sent), "the first byte");
}

/// The third file of the busy state, and the actions of its second break.
fn has_its_texts(rt: &impl Abort, saved: &Saved) {
    match saved.attachments.get(2) {
        Some(file) => equal(rt, &file.name.as_str(), &"é.tap", "the name"),
        None => check(rt, false, "the third file"),
    }
    match saved.breaks.get(1) {
        Some(b) => check(
            rt,
            b.actions.as_slice() == b"E AC0".as_slice(),
            "the actions",
        ),
        None => check(rt, false, "the second break"),
    }
}

fn has_all(rt: &impl Abort, saved: &Saved) {
    has_its_machine(rt, saved);
    has_its_lists(rt, saved);
    has_its_bytes(rt, saved);
    has_its_texts(rt, saved);
}

#[test]
fn a_busy_state_says_what_it_holds(rt: HostRuntime) -> Result<(), Fail> {
    let bytes = both_of(rt.alloc(), BUSY, BUSY_DIGEST)?;
    match read_state(rt.alloc(), &bytes) {
        Ok(saved) => has_all(&rt, &saved),
        Err(_) => check(&rt, false, "it is read"),
    }
    Ok(())
}

#[test]
fn a_state_with_the_multiplexer_is_written_as_it_was_read(rt: HostRuntime) -> Result<(), Fail> {
    let bytes = both_of(rt.alloc(), FULL, FULL_DIGEST)?;
    is_written_again(&rt, rt.alloc(), &bytes, "the full one");
    Ok(())
}

/// The bytes of what is read, written again.
fn written_again(alloc: Global, bytes: &[u8]) -> Result<Vec<u8>, StateFault> {
    let saved = read_state(alloc, bytes)?;
    Ok(write_state(alloc, &saved)?)
}

#[test]
fn the_first_version_is_read_and_written_in_the_second(rt: HostRuntime) -> Result<(), Fail> {
    let old = both_of(rt.alloc(), FIRST1, FIRST1_DIGEST)?;
    let new = both_of(rt.alloc(), FIRST, FIRST_DIGEST)?;
    match written_again(rt.alloc(), &old) {
        Ok(bytes) => check(&rt, bytes.as_slice() == new.as_slice(), "the same state"),
        Err(_) => check(&rt, false, "it is read"),
    }
    Ok(())
}
