// State files that are cut, that go on behind their end, or of which one byte is another one.
use crate::checked::check;
use crate::states::faults::{fault_in, is_refused};
use crate::states::texts::{
    BUSY, BUSY_DIGEST, BUSY1, BUSY1_DIGEST, FIRST, FIRST_DIGEST, both_of, bytes_of, equal, number,
};
use state_file::StateFault;
use std::alloc::{AllocError, Global};
use std::process::Abort;
use std::test::Fail;

fn first(alloc: Global) -> Result<Vec<u8>, AllocError> {
    both_of(alloc, FIRST, FIRST_DIGEST)
}

/// The digest of a text.
fn digest_of(alloc: Global, digits: &str) -> Result<[u8; 32], AllocError> {
    let bytes = both_of(alloc, "", digits)?;
    let mut digest = [0; 32];
    for (to, from) in digest.iter_mut().zip(bytes.iter()) {
        *to = *from;
    }
    Ok(digest)
}

// The digest of the first state with byte 100 changed to 1.
const CHANGED_DIGEST: &str = "6B2D8D7203B6ED650BB65D06662CA660BF45CD5F90E23A06A31BCD11683B8404";

/// Sets a byte.
fn set(bytes: &mut Vec<u8>, place: usize, byte: u8) {
    if let Some(to) = bytes.as_mut_slice().get_mut(place) {
        *to = byte;
    }
}

fn changed_fault(alloc: Global) -> Result<StateFault, AllocError> {
    Ok(StateFault::BadDigest {
        kept: digest_of(alloc, FIRST_DIGEST)?,
        found: digest_of(alloc, CHANGED_DIGEST)?,
    })
}

fn has_a_fault_behind(
    rt: &impl Abort,
    alloc: Global,
    bytes: &mut Vec<u8>,
    wanted: StateFault,
) -> Result<(), AllocError> {
    bytes.push(0)?;
    is_refused(
        rt,
        alloc,
        bytes.as_slice(),
        wanted,
        "one byte behind the end",
    );
    Ok(())
}

#[test]
fn a_changed_word_has_another_digest(rt: HostRuntime) -> Result<(), Fail> {
    let wanted = changed_fault(rt.alloc())?;
    let mut bytes = first(rt.alloc())?;
    set(&mut bytes, 100, 1);
    is_refused(&rt, rt.alloc(), &bytes, wanted, "byte 100");
    has_a_fault_behind(&rt, rt.alloc(), &mut bytes, wanted)?;
    Ok(())
}

#[test]
fn a_byte_behind_the_end_is_a_field_too_many(rt: HostRuntime) -> Result<(), Fail> {
    let mut bytes = first(rt.alloc())?;
    equal(&rt, &bytes.len(), &65910, "the length");
    has_a_fault_behind(&rt, rt.alloc(), &mut bytes, StateFault::BadField(65910))?;
    Ok(())
}

fn is_cut_at(rt: &impl Abort, alloc: Global, bytes: &[u8], length: usize) {
    let front = &bytes[..length.min(bytes.len())];
    is_refused(rt, alloc, front, StateFault::Truncated, "a cut");
}

#[test]
fn the_first_state_is_cut(rt: HostRuntime) -> Result<(), Fail> {
    let bytes = first(rt.alloc())?;
    is_cut_at(&rt, rt.alloc(), &bytes, 0);
    is_cut_at(&rt, rt.alloc(), &bytes, 65909);
    is_cut_at(&rt, rt.alloc(), &bytes, 65878);
    Ok(())
}

#[test]
fn a_state_is_cut_at_its_first_lengths(rt: HostRuntime) -> Result<(), Fail> {
    let bytes = both_of(rt.alloc(), BUSY, BUSY_DIGEST)?;
    for length in 0..400usize {
        is_cut_at(&rt, rt.alloc(), &bytes, length);
    }
    Ok(())
}

#[test]
fn a_state_of_the_first_version_is_cut_at_its_first_lengths(rt: HostRuntime) -> Result<(), Fail> {
    let bytes = both_of(rt.alloc(), BUSY1, BUSY1_DIGEST)?;
    for length in 0..400usize {
        is_cut_at(&rt, rt.alloc(), &bytes, length);
    }
    Ok(())
}

// Where a field begins.
const EDGES: &str =
    "0 8 10 11 13 15 17 19 20 22 23 24 26 28 29 30 38 46 8238 8239 8240 8241 8245 8249 8253 8257 8261
8265 8269 8273 8274 8275 8279 8283 8287 8291 8295 8299 8303 8307 8311 8315 8319 8323 8327 8331
8335 8339 8343 8344 8345 8349 8353 8357 8361 8365 8369 8370 8371 8375 8379 8383 8387 8391 8395
8396 8397 8401 8405 8409 8413 8417 8421 8422 8423 8427 8431 8435 8436 8437 8441 8445 8449 8453
8454 8455 8459 8463 8467 8471 8472 8473 8477 8481 8485 8489 8490 8491 8495 8499 8503 8507 8509
8510 8511 8515 8516 8517 8521 8522 8523 8527 8528 8529 8533 8534 8535 8536 8537 8539 8547 8555
8587 8588 8589 8590 8592 8593 8601 8633 8634 8635 8636 8638 8644 8652 8684 8685 8686 8687 8689
8696 8704 8736 8737 8738 8739 8741 8743 8751 8783 8785 8787 8789 8791 8793 8797 8799 8801 8805
8807 8812 8814 8818 8820 8831 8832 8836 8837 8841 8843 8847 8848 8854 8856 8864 8868 8870 8878
8879 8887 8888 8896";

#[test]
fn a_state_is_cut_at_each_field(rt: HostRuntime) -> Result<(), Fail> {
    let bytes = both_of(rt.alloc(), BUSY, BUSY_DIGEST)?;
    for edge in EDGES.split_whitespace() {
        is_cut_at(&rt, rt.alloc(), &bytes, number(edge));
    }
    Ok(())
}

// Where one begins in the first version.
const FIRST_EDGES: &str =
    "0 8 10 11 13 15 17 19 20 22 23 24 26 28 29 37 45 8237 8238 8239 8240 8244 8248 8252 8256 8260
8264 8268 8272 8273 8274 8278 8282 8286 8290 8294 8298 8302 8306 8310 8314 8318 8322 8326 8330
8334 8338 8342 8343 8344 8348 8352 8356 8360 8364 8368 8369 8370 8374 8378 8382 8386 8390 8394
8395 8396 8400 8404 8408 8412 8416 8420 8421 8422 8426 8430 8434 8435 8436 8440 8444 8448 8452
8453 8454 8458 8462 8466 8470 8471 8472 8476 8480 8484 8488 8489 8490 8494 8498 8502 8506 8508
8509 8510 8514 8515 8516 8520 8521 8522 8526 8527 8528 8532 8533 8534 8535 8536 8538 8546 8554
8586 8587 8588 8589 8591 8592 8600 8632 8633 8634 8635 8637 8643 8651 8683 8684 8685 8686 8688
8695 8703 8735 8736 8737 8738 8740 8742 8750 8782 8784 8786 8788 8792 8794 8796 8800 8802 8807
8809 8813 8815 8826 8827 8831 8832 8836 8838 8842 8843 8849 8851 8859 8860 8863 8865 8873 8874
8882 8883 8891 8892";

#[test]
fn a_state_of_the_first_version_is_cut_at_each_field(rt: HostRuntime) -> Result<(), Fail> {
    let bytes = both_of(rt.alloc(), BUSY1, BUSY1_DIGEST)?;
    for edge in FIRST_EDGES.split_whitespace() {
        is_cut_at(&rt, rt.alloc(), &bytes, number(edge));
    }
    Ok(())
}

fn is_refused_with(
    rt: &impl Abort,
    alloc: Global,
    text: &str,
    digest: &str,
    place: usize,
) -> Result<(), AllocError> {
    let mut bytes = both_of(alloc, text, digest)?;
    let byte = *bytes.get(place).unwrap_or(&0);
    set(&mut bytes, place, byte.wrapping_add(1));
    check(
        rt,
        fault_in(alloc, &bytes).is_some(),
        "a byte that is one more",
    );
    Ok(())
}

#[test]
fn no_byte_of_the_fixed_part_can_be_one_more(rt: HostRuntime) -> Result<(), Fail> {
    for place in 0..47usize {
        is_refused_with(&rt, rt.alloc(), BUSY, BUSY_DIGEST, place)?;
    }
    Ok(())
}

#[test]
fn nor_can_one_of_the_first_version(rt: HostRuntime) -> Result<(), Fail> {
    for place in 0..46usize {
        is_refused_with(&rt, rt.alloc(), BUSY1, BUSY1_DIGEST, place)?;
    }
    Ok(())
}

/// The bytes of a text have that fault.
fn is_refused_with_fault(
    rt: &impl Abort,
    alloc: Global,
    text: &str,
    wanted: StateFault,
) -> Result<(), AllocError> {
    let bytes = bytes_of(alloc, text)?;
    is_refused(rt, alloc, &bytes, wanted, text);
    Ok(())
}

// A state of another first word, of another version, and of three bytes alone.
#[test]
fn what_begins_otherwise_is_no_state(rt: HostRuntime) -> Result<(), Fail> {
    let other = "4E4F564153544158 0001";
    is_refused_with_fault(&rt, rt.alloc(), other, StateFault::NotState)?;
    let later = "4E4F564153544154 0003";
    is_refused_with_fault(&rt, rt.alloc(), later, StateFault::Version(3))?;
    Ok(())
}

#[test]
fn three_bytes_of_the_first_are_too_few(rt: HostRuntime) -> Result<(), Fail> {
    is_refused_with_fault(&rt, rt.alloc(), "4E4F56", StateFault::Truncated)?;
    is_refused_with_fault(&rt, rt.alloc(), "4E4F57", StateFault::NotState)?;
    Ok(())
}
