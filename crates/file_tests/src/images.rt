// Files in memory whose calls fail as a text says: `4:2` names call 4, which, where it is a write, writes two bytes.
use crate::texts::{holds, number, size, stand_for};
use host_files::{AddFault, MemFiles};
use std::alloc::{AllocError, Global};
use std::process::Abort;

/// A number of a call that is to fail, and how many bytes it writes.
pub fn failing(word: &str) -> Option<(u64, usize)> {
    let (call, done) = word.split_once(':')?;
    Some((number(call)?, size(done)?))
}

/// Files with room for so many bytes, one of which is there, as far as there is memory.
pub fn with_file(
    alloc: Global,
    room: u64,
    name: &str,
    bytes: &[u8],
    fails: &str,
) -> Option<MemFiles> {
    let mut files = MemFiles::with_room(alloc, room).ok()?;
    prepare(&mut files, name, bytes, fails).ok()?;
    Some(files)
}

fn prepare(files: &mut MemFiles, name: &str, bytes: &[u8], fails: &str) -> Result<(), AddFault> {
    files.add_file(name, bytes)?;
    match fail_named(files, fails) {
        Ok(()) => Ok(()),
        Err(AllocError) => Err(AddFault::OutOfMemory),
    }
}

/// Names the calls that are to fail.
pub fn fail_named(files: &mut MemFiles, fails: &str) -> Result<(), AllocError> {
    for call in fails.split_whitespace() {
        if let Some((number, done)) = failing(call) {
            files.fail_call(number, done)?;
        }
    }
    Ok(())
}

/// A file has the bytes of a text, or is not there where the text is `none`.
pub fn left(rt: &impl Abort, files: &MemFiles, name: &str, text: &str, line: &str) {
    let so = match files.file_bytes(name) {
        Some(bytes) => stand_for(bytes, text),
        None => text == "none",
    };
    holds(rt, so, line);
}
