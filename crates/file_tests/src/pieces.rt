// The disk over files that give at most two bytes at each reading, and that may end before their length says, as lines of
// text: how many bytes of 7 its image has, how many it lacks, what is called and what it answers, and how many bytes the
// image has then, of 1, and of 7.
use crate::disk::{image_left, plays_new};
use crate::images::with_file;
use crate::piecewise::Piecewise;
use crate::texts::{columns_of, holds, number, size};
use std::alloc::Global;
use std::process::Abort;

const IMAGE: [u8; 700] = [7; 700];

/// Plays a line, if there is memory for it.
fn plays_line(rt: &impl Abort, alloc: Global, line: &str) -> Option<()> {
    let row = columns_of(line);
    let length = size(row.first).unwrap_or(0).min(700);
    let mut files = Piecewise {
        files: with_file(alloc, 8192, "d", &IMAGE[..length], "none")?,
        mode: None,
        lacking: number(row.second).unwrap_or(0),
    };
    plays_new(rt, alloc, &mut files, row.third)?;
    image_left(rt, &files.files, row.fourth, line);
    Some(())
}

fn all(rt: &impl Abort, alloc: Global, table: &str) {
    for line in table.lines() {
        holds(rt, plays_line(rt, alloc, line).is_some(), line);
    }
}

const A_DISK_THAT_IS_READ_IN_PIECES_IS_READ_WHOLE: &str =
    "700 | 0 | attach=700 read@0=512 read@1=188 read@2=0 write@2=done flush=ok | 1536 512 700
1 | 0 | attach=1 read@0=1 same@0=done detach=ok | 512 0 1
700 | 0 | attach=700 digest=700:4ddb429793ba429905d200c6b142d8ed75cc85c01ea2e52fcc9112b5c36a82f9 | 700 0 700";

#[test]
fn a_disk_that_is_read_in_pieces_is_read_whole(rt: HostRuntime) {
    all(&rt, rt.alloc(), A_DISK_THAT_IS_READ_IN_PIECES_IS_READ_WHOLE);
}

// A copy that had zero bytes up to the length that was told would be written back with them.
const A_FILE_THAT_SHRANK_HAS_THE_BYTES_THAT_WERE_READ: &str =
    "100 | 512 | attach=612 read@0=100 read@1=0 write@0=done detach=ok | 512 512 0
100 | 512 | attach=612 same@0=done detach=ok | 512 0 100
0 | 700 | attach=700 read@0=0 same@0=done flush=ok | 512 0 0";

#[test]
fn a_file_that_shrank_has_the_bytes_that_were_read(rt: HostRuntime) {
    all(
        &rt,
        rt.alloc(),
        A_FILE_THAT_SHRANK_HAS_THE_BYTES_THAT_WERE_READ,
    );
}
