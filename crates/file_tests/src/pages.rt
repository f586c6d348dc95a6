// The disk's pages as lines of text: how many bytes of 7 its image has, the calls on files that fail, what is called and
// what it answers; and then how many writes there were, and of how many bytes, and how many bytes the image has, of 1, and
// of 7.
use crate::counting::Counting;
use crate::disk::{are, count_of, plays_new};
use crate::images::with_file;
use crate::texts::{columns_of, holds, size};
use host_files::MemFiles;
use std::alloc::Global;
use std::process::Abort;

/// An image of so many bytes of 7, of which some calls are to fail, as far as there is memory.
fn image(alloc: Global, length: usize, fails: &str) -> Option<MemFiles> {
    let bytes = Vec::from_elem(alloc, 7u8, length).ok()?;
    with_file(alloc, 4_194_304, "d", bytes.as_slice(), fails)
}

/// Plays a line, if there is memory for it.
fn plays_line(rt: &impl Abort, alloc: Global, line: &str) -> Option<()> {
    let row = columns_of(line);
    let length = size(row.first).unwrap_or(0).min(4_194_304);
    let mut files = Counting::new(image(alloc, length, row.second)?);
    plays_new(rt, alloc, &mut files, row.third)?;
    written(rt, &files, row.fourth, line);
    Some(())
}

/// What was written, and what the image has then.
fn written(rt: &impl Abort, files: &Counting, counts: &str, line: &str) {
    match files.files.file_bytes("d") {
        Some(bytes) => {
            let image = [bytes.len(), count_of(bytes, 1), count_of(bytes, 7)];
            let (calls, left) = counts.split_once(" : ").unwrap_or(("", counts));
            holds(rt, are(&[files.writes, files.bytes], calls), line);
            holds(rt, are(&image, left), line);
        }
        None => holds(rt, false, line),
    }
}

fn all(rt: &impl Abort, alloc: Global, table: &str) {
    for line in table.lines() {
        holds(rt, plays_line(rt, alloc, line).is_some(), line);
    }
}

// A page is written once, however many of its sectors were, and a gap with them. What was written back is not written again.
const EACH_MARKED_PAGE_IS_WRITTEN_ONCE: &str =
    "8192 | none | attach=8192 write@1=done write@2=done write@9=done detach=ok | 2 8192 : 8192 1536 6656
8192 | none | attach=8192 write@9=done detach=ok | 1 4096 : 8192 512 7680
8000 | none | attach=8000 write@14=done detach=ok | 1 3904 : 8000 512 7488
8000 | none | attach=8000 write@15=done detach=ok | 1 4096 : 8192 512 7680
0 | none | attach=0 write@100=done detach=ok | 13 51712 : 51712 512 0
4096 | none | attach=4096 write@24=done detach=ok | 3 8704 : 12800 512 4096
5000 | none | attach=5000 write@24=done detach=ok | 3 8704 : 12800 512 5000
8192 | none | attach=8192 write@1=done flush=ok flush=ok write@9=done flush=ok detach=ok | 2 8192 : 8192 1024 7168
8192 | 5:0 | attach=8192 write@1=done flush=ok flush=ok detach=Closing:0 | 1 4096 : 8192 512 7680";

#[test]
fn each_marked_page_is_written_once(rt: HostRuntime) {
    all(&rt, rt.alloc(), EACH_MARKED_PAGE_IS_WRITTEN_ONCE);
}

const ONE_SECTOR_OF_A_WHOLE_DISK_IS_ONE_PAGE: &str =
    "4194304 | none | attach=4194304 write@4096=done detach=ok | 1 4096 : 4194304 512 4193792";

// The opening, the length and two reads come first. The pages in front of the one whose write failed are written, and of
// that as much as the fault says beyond its place; the next flush writes all of them again.
const A_FAILED_PAGE_LEAVES_ALL_MARKS: &str =
    "8192 | 4:0 | attach=8192 write@0=done write@8=done write@16=done flush=Write:0 | 1 4096 : 8192 0 8192
8192 | 4:7 | attach=8192 write@0=done write@8=done write@16=done flush=Write:7 | 1 4096 : 8192 7 8185
8192 | 5:0 | attach=8192 write@0=done write@8=done write@16=done flush=Write:4096 | 2 8192 : 8192 512 7680
8192 | 5:7 | attach=8192 write@0=done write@8=done write@16=done flush=Write:4103 | 2 8192 : 8192 519 7673
8192 | 5:4096 | attach=8192 write@0=done write@8=done write@16=done flush=Write:8192 | 2 8192 : 8192 1024 7168
8192 | 6:0 | attach=8192 write@0=done write@8=done write@16=done flush=Write:8192 | 3 8704 : 8192 1024 7168
8192 | 6:9 | attach=8192 write@0=done write@8=done write@16=done flush=Write:8201 | 3 8704 : 8201 1033 7168
8192 | 6:9 | attach=8192 write@0=done write@8=done write@16=done detach=Write:8201 file=yes | 3 8704 : 8201 1033 7168
8192 | 5:7 | attach=8192 write@0=done write@8=done write@16=done flush=Write:4103 flush=ok flush=ok | 5 16896 : 8704 1536 7168
8192 | 5:7 7:3 | attach=8192 write@0=done write@8=done write@16=done flush=Write:4103 flush=Write:4099 detach=ok file=no | 7 25088 : 8704 1536 7168
12288 | 6:7 | attach=12288 write@16=done write@0=done flush=Write:8199 read@8=512 | 2 8192 : 12288 519 11769";

#[test]
fn pages_are_written_back(rt: HostRuntime) {
    all(&rt, rt.alloc(), ONE_SECTOR_OF_A_WHOLE_DISK_IS_ONE_PAGE);
    all(&rt, rt.alloc(), A_FAILED_PAGE_LEAVES_ALL_MARKS);
}

// Each page is read by itself, and a read that fails refuses the image.
const AN_IMAGE_IS_READ_PAGE_BY_PAGE: &str =
    "4096 | 3:0 | attach=4096 read@7=512 detach=Closing:0 | 0 0 : 4096 0 4096
4097 | 4:0 | attach=4097 read@8=1 detach=Closing:0 | 0 0 : 4097 0 4097
9000 | 2:0 | attach=Read:0 file=no | 0 0 : 9000 0 9000
9000 | 3:0 | attach=Read:0 file=no | 0 0 : 9000 0 9000
9000 | 4:0 | attach=Read:0 file=no | 0 0 : 9000 0 9000
9000 | 5:0 | attach=9000 read@7=512 read@8=512 read@17=296 read@18=0 detach=Closing:0 | 0 0 : 9000 0 9000";

#[test]
fn an_image_is_read_page_by_page(rt: HostRuntime) {
    all(&rt, rt.alloc(), AN_IMAGE_IS_READ_PAGE_BY_PAGE);
}
