// Keys files, as lines of text, in which a ~ stands for the end of a line, and what is read behind a bar.
use crate::checked::holds;
use crate::watched::texts::{count, cut, number, place};
use expect_actions::{Keys, KeysFault};
use std::alloc::{AllocError, Global};
use std::process::Abort;
use std::test::Fail;

fn bytes_of(alloc: Global, text: &str) -> Result<Vec<u8>, AllocError> {
    let mut bytes = Vec::new(alloc);
    for byte in text.as_bytes() {
        bytes.push(if *byte == b'~' { b'\n' } else { *byte })?;
    }
    Ok(bytes)
}

/// Whether a file is read as its line says: its keys, or the place of the first faulty line.
fn is_read(alloc: Global, line: &str) -> Result<bool, AllocError> {
    let (text, wanted) = line.split_once('|').unwrap_or((line, "no keys"));
    let bytes = bytes_of(alloc, text)?;
    Ok(match Keys::read_keys(alloc, bytes.as_slice()) {
        Ok(keys) => come(&keys, wanted),
        Err(KeysFault::Bad(found)) => wanted != "" && place(wanted) == Some(found),
        Err(_) => false,
    })
}

/// Whether the keys are these: each is due at its time and not before, and there are no more.
fn come(keys: &Keys, wanted: &str) -> bool {
    if wanted == "no keys" {
        return keys.due(0, u64::MAX).is_none();
    }
    let mut taken = 0;
    for key in wanted.split('|') {
        if !comes(keys, taken, key) || taken > 65536 {
            return false;
        }
        taken += 1;
    }
    keys.due(taken, u64::MAX).is_none()
}

fn comes(keys: &Keys, taken: u64, key: &str) -> bool {
    let (time, byte) = cut(key, ':');
    let time = number(time);
    let early = time > 0 && keys.due(taken, time - 1).is_some();
    !early && keys.due(taken, time).map(u32::from) == Some(count(byte))
}

fn all(rt: &impl Abort, alloc: Global, table: &str) -> Result<(), Fail> {
    for line in table.lines() {
        holds(rt, is_read(alloc, line)?, line);
    }
    Ok(())
}

const FILES: &str = "
0 \"\\005\"~|0:5
7 \"ab\"~7 \"\\r\"~|7:97|7:98|7:13
0007 \"a\"~07 \"b\"~|7:97|7:98
5 \"\"~
5 \"\"~6 \"x\"|6:120
1152921504606846976 \"z\"~|1152921504606846976:122
1 \"1 \\\"\\n\"~|1:49|1:32|1:34|1:10";

const FAULTS: &str = "~|0
0 \"a\"\r~|0
0 \"a\"~~|6
0 \"a\"~\r~|6
1152921504606846977 \"a\"~|0
6 \"a\"~5 \"b\"~4 \"c\"~|6
6 \"\"~5 \"b\"~|5
0 \"\\400\"~|0
0  \"a\"~|0
0\t\"a\"~|0
0 \"a\" ~|0
 0 \"a\"~|0
\"a\"~|0
0 \"a\"~1 \"b|6
0 \"a\"~1 \"b\"~2 \"c~\"~|12";

#[test]
fn keys_files_are_read(rt: HostRuntime) -> Result<(), Fail> {
    all(&rt, rt.alloc(), FILES)?;
    all(&rt, rt.alloc(), FAULTS)?;
    Ok(())
}

/// A line at time 0 with so many keys, and one behind it at time 1 with one key more.
fn two_lines(alloc: Global, count: usize) -> Result<Vec<u8>, AllocError> {
    let mut bytes = Vec::new(alloc);
    bytes.extend_from_slice(b"0 \"")?;
    for _ in 0..count {
        bytes.push(b'a')?;
    }
    bytes.extend_from_slice(b"\"\n1 \"b\"\n")?;
    Ok(bytes)
}

/// Whether the last of 65536 keys is the one at time 1.
fn just_fit(alloc: Global) -> Result<bool, AllocError> {
    let bytes = two_lines(alloc, 65535)?;
    Ok(match Keys::read_keys(alloc, bytes.as_slice()) {
        Ok(keys) => keys.due(65535, 1) == Some(b'b') && keys.due(65536, 1).is_none(),
        Err(_) => false,
    })
}

/// Whether that line is faulty with so many keys before it.
fn are_too_many(alloc: Global, count: usize, place: usize) -> Result<bool, AllocError> {
    let bytes = two_lines(alloc, count)?;
    Ok(match Keys::read_keys(alloc, bytes.as_slice()) {
        Err(KeysFault::Bad(found)) => found == place,
        _ => false,
    })
}

#[test]
fn a_file_has_at_most_65536_keys(rt: HostRuntime) -> Result<(), Fail> {
    holds(&rt, just_fit(rt.alloc())?, "65536 keys");
    holds(&rt, are_too_many(rt.alloc(), 65536, 65541)?, "65537 keys");
    holds(&rt, are_too_many(rt.alloc(), 65537, 0)?, "65538 keys");
    Ok(())
}

#[test]
fn without_a_file_no_key_is_due(rt: HostRuntime) {
    let keys = Keys::none(rt.alloc());
    holds(&rt, keys.due(0, u64::MAX).is_none(), "no keys");
}
