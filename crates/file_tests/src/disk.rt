// The disk as lines of text: how many bytes of 7 its image has, the calls on files that fail, what is called and what it
// answers, and how many bytes the image has then, of 1, and of 7.
ghost use Rattle.std.specs.Prelude.{◌≡◌};
ghost use Rattle.unit_files.specs.Open.{AllOpen};

use crate::digests::digest_answer;
use crate::images::with_file;
use crate::texts::{Call, call_of, columns_of, equal, file_call, holds, number, size};
use host_files::{FileCall, FileId, Files, MemFiles};
use std::alloc::Global;
use std::process::Abort;
use unit_files::{
    AttachFault, AttachMode, Attached, DetachFault, SECTOR_BYTES, SectorAnswer, UnitFault,
};
use unit_trait::{Kind, UnitName};

pub const DISK: UnitName = UnitName {
    kind: Kind::Dsk,
    unit: 0,
};

const IMAGE: [u8; 700] = [7; 700];

/// A failed call on the disk's file, as `Write:512`.
fn fault_of(text: &str) -> Option<UnitFault> {
    let (call, done) = text.split_once(':')?;
    Some(UnitFault {
        unit: DISK,
        file: Some(FileId(0)),
        call: file_call(call)?,
        done: number(done)?,
    })
}

/// Plays the calls of a line.
fn plays<F: Files>(
    rt: &impl Abort,
    alloc: Global,
    attached: &mut Attached,
    files: &mut F,
    calls: &str,
)
    requires { AllOpen attached.old.slots (F.state files.old).opened }
{
    for word in calls.split_whitespace() {
        act(rt, alloc, attached, files, call_of(word));
    }
}

fn act<F: Files>(rt: &impl Abort, alloc: Global, attached: &mut Attached, files: &mut F, call: Call)
    requires { AllOpen attached.old.slots (F.state files.old).opened }
    ensures { AllOpen attached.new.slots (F.state files.new).opened }
{
    match call.verb {
        "attach" => attach(rt, alloc, attached, files, call),
        "flush" => flush(rt, attached, files, call),
        "detach" => detach(rt, attached, files, call),
        "digest" => digest(rt, attached, files, call),
        "file" => {
            let wanted = call.answer == "yes";
            holds(rt, attached.file_of(DISK).is_some() == wanted, call.word);
        }
        _ => sector(rt, attached, call),
    }
}

fn attach<F: Files>(
    rt: &impl Abort,
    alloc: Global,
    attached: &mut Attached,
    files: &mut F,
    call: Call,
)
    requires { AllOpen attached.old.slots (F.state files.old).opened }
    ensures { AllOpen attached.new.slots (F.state files.new).opened }
{
    let said = attached.attach(alloc, DISK, "d", mode_of(call.first), files);
    equal(rt, &said, &attach_answer(call.answer), call.word);
}

fn mode_of(name: &str) -> AttachMode {
    if name == "read" {
        AttachMode::ReadOnly
    } else {
        AttachMode::Any
    }
}

fn attach_answer(text: &str) -> Result<u64, AttachFault> {
    match (number(text), fault_of(text)) {
        (Some(length), _) => Ok(length),
        (None, Some(fault)) => Err(AttachFault::Failed(fault)),
        (None, None) => Err(AttachFault::TooLong),
    }
}

fn flush<F: Files>(rt: &impl Abort, attached: &mut Attached, files: &mut F, call: Call)
    requires { AllOpen attached.old.slots (F.state files.old).opened }
    ensures { AllOpen attached.new.slots (F.state files.new).opened }
{
    let said = attached.flush(DISK, files);
    equal(rt, &said, &flush_answer(call.answer), call.word);
}

fn flush_answer(text: &str) -> Result<(), DetachFault> {
    match fault_of(text) {
        Some(fault) => Err(DetachFault::Failed(fault)),
        None if text == "no_file" => Err(DetachFault::NotAttached),
        None => Ok(()),
    }
}

fn detach<F: Files>(rt: &impl Abort, attached: &mut Attached, files: &mut F, call: Call)
    requires { AllOpen attached.old.slots (F.state files.old).opened }
    ensures { AllOpen attached.new.slots (F.state files.new).opened }
{
    let said = attached.detach(DISK, files);
    equal(rt, &said, &detach_answer(call.answer), call.word);
}

/// A failed closing detaches, and a failed write does not.
fn detach_answer(text: &str) -> Result<Option<UnitFault>, DetachFault> {
    match fault_of(text) {
        Some(fault) if fault.call == FileCall::Write => Err(DetachFault::Failed(fault)),
        closing => Ok(closing),
    }
}

fn digest<F: Files>(rt: &impl Abort, attached: &mut Attached, files: &mut F, call: Call)
    requires { AllOpen attached.old.slots (F.state files.old).opened }
    ensures { AllOpen attached.new.slots (F.state files.new).opened }
{
    let said = attached.digest(DISK, files);
    let wanted = digest_answer(call.answer, fault_of(call.answer));
    equal(rt, &said, &wanted, call.word);
}

/// What is called with a sector: to read it, to write bytes of 1, or to write what it has.
fn sector(rt: &impl Abort, attached: &mut Attached, call: Call)
    ensures { attached.new.slots ≡ attached.old.slots }
{
    let number = (number(call.first).unwrap_or(0) % 8192) as u16;
    let mut bytes = [9; SECTOR_BYTES];
    let said = match call.verb {
        "read" => read(attached, number, &mut bytes),
        "write" => write(attached, number, &[1; SECTOR_BYTES]),
        _ => {
            read(attached, number, &mut bytes);
            write(attached, number, &bytes)
        }
    };
    equal(rt, &said, &sector_answer(call.answer), call.word);
    holds(
        rt,
        call.verb != "read" || begins(&bytes, call.answer),
        call.word,
    );
}

fn sector_answer(text: &str) -> SectorAnswer {
    match text {
        "no_file" => SectorAnswer::NoFile,
        "read_only" => SectorAnswer::ReadOnly,
        _ => SectorAnswer::Done,
    }
}

/// Reads the sector of that number, modulo the number of sectors.
#[tactic(auto, unfolding(unit_files::specs::Buffer::disk_sectors))]
pub fn read(attached: &Attached, sector: u16, into: &mut [u8; 512]) -> SectorAnswer {
    attached.read_sector(sector % 8192, into)
}

/// Writes it.
#[tactic(auto, unfolding(unit_files::specs::Buffer::disk_sectors))]
pub fn write(attached: &mut Attached, sector: u16, from: &[u8; 512]) -> SectorAnswer
    ensures { attached.new.slots ≡ attached.old.slots }
{
    attached.write_sector(sector % 8192, from)
}

/// Whether a sector that was read begins with so many bytes of 7, and the others are 0; without a file it is as it was.
fn begins(bytes: &[u8], answer: &str) -> bool {
    let (sevens, others) = match size(answer) {
        Some(sevens) => (sevens, 0),
        None => (0, 9),
    };
    for (place, byte) in bytes.iter().enumerate() {
        if *byte != if place < sevens { 7 } else { others } {
            return false;
        }
    }
    true
}

/// How many of the bytes are that one.
pub fn count_of(bytes: &[u8], wanted: u8) -> usize {
    bytes.iter().filter(|byte| **byte == wanted).count()
}

/// The image has so many bytes, so many of 1, and so many of 7.
pub fn image_left(rt: &impl Abort, files: &MemFiles, counts: &str, line: &str) {
    match files.file_bytes("d") {
        Some(bytes) => {
            let found = [bytes.len(), count_of(bytes, 1), count_of(bytes, 7)];
            holds(rt, are(&found, counts), line);
        }
        None => holds(rt, false, line),
    }
}

pub fn are(found: &[usize], counts: &str) -> bool {
    for (found, wanted) in found.iter().zip(counts.split_whitespace()) {
        if Some(*found) != size(wanted) {
            return false;
        }
    }
    true
}

/// Plays the calls of a line on a disk that has no file at first.
pub fn plays_new<F: Files>(
    rt: &impl Abort,
    alloc: Global,
    files: &mut F,
    calls: &str,
) -> Option<()> {
    let mut attached = Attached::new(alloc).ok()?;
    plays(rt, alloc, &mut attached, files, calls);
    Some(())
}

/// Plays a line, if there is memory for it.
fn plays_line(rt: &impl Abort, alloc: Global, line: &str) -> Option<()> {
    let row = columns_of(line);
    let length = size(row.first).unwrap_or(0).min(700);
    let mut files = with_file(alloc, 8192, "d", &IMAGE[..length], row.second)?;
    plays_new(rt, alloc, &mut files, row.third)?;
    image_left(rt, &files, row.fourth, line);
    Some(())
}

fn all(rt: &impl Abort, alloc: Global, table: &str) {
    for line in table.lines() {
        holds(rt, plays_line(rt, alloc, line).is_some(), line);
    }
}

const A_SECTOR_BEHIND_THE_END_IS_0: &str =
    "700 | none | attach=700 read@0=512 read@1=188 read@2=0 read@8191=0 | 700 0 700";

const A_DISK_WITHOUT_A_FILE_SAYS_SO: &str =
    "4 | none | read@0=no_file write@0=no_file flush=no_file attach@read=4 write@0=read_only read@0=4 detach=ok read@0=no_file | 4 0 4";

// The opening, the length and one read come first. A flush of nothing makes no call, so that the next call, which fails,
// is none of it, and the last that fails is the closing.
const A_SECTOR_IS_WRITTEN_BACK_ONCE: &str =
    "600 | 3:0 | attach=600 flush=ok write@2=done | 600 0 600
600 | 3:0 5:0 | attach=600 flush=ok write@2=done flush=Write:0 flush=ok | 1536 512 600
600 | 3:0 5:0 | attach=600 flush=ok write@2=done flush=Write:0 flush=ok flush=ok detach=Closing:0 file=no | 1536 512 600";

const A_FAILED_FLUSH_LEAVES_A_FIRST_PART: &str =
    "700 | 3:0 | attach=700 write@0=done same@1=done detach=Write:0 file=yes | 700 0 700
700 | 3:1 | attach=700 write@0=done same@1=done detach=Write:1 file=yes | 700 1 699
700 | 3:512 | attach=700 write@0=done same@1=done detach=Write:512 file=yes | 700 512 188
700 | 3:600 | attach=700 write@0=done same@1=done detach=Write:600 file=yes | 700 512 188
700 | 3:1024 | attach=700 write@0=done same@1=done detach=Write:1024 file=yes | 1024 512 188
700 | 3:0 | attach=700 write@0=done same@1=done detach=Write:0 detach=ok | 1024 512 188
700 | 3:1 | attach=700 write@0=done same@1=done detach=Write:1 detach=ok | 1024 512 188
700 | 3:512 | attach=700 write@0=done same@1=done detach=Write:512 detach=ok | 1024 512 188
700 | 3:600 | attach=700 write@0=done same@1=done detach=Write:600 detach=ok | 1024 512 188
700 | 3:1024 | attach=700 write@0=done same@1=done detach=Write:1024 detach=ok | 1024 512 188";

const A_FAILING_CALL_REFUSES_AN_IMAGE: &str = "700 | 1:0 | attach=Length:0 file=no | 700 0 700
700 | 2:0 | attach=Read:0 file=no | 700 0 700
700 | 3:0 | attach=700 file=yes | 700 0 700
0 | 2:0 | attach=0 file=yes | 0 0 0";

// The opening, the length and one read come first, and behind a sector that was written the write of the copy, the length
// and the reads. A failed length or read leaves nothing to be written back, so that a flush makes no call.
const A_DISK_IS_WRITTEN_BACK_AND_THEN_DIGESTED: &str =
    "600 | none | attach=600 write@2=done digest=1536:394d4bf460a0167ddc49de1c1a7ef2d3aec311d7f6b6838ec8c17b046288e841 | 1536 512 600
600 | none | digest=no_file attach=600 write@9=done digest=5120:098d6eacdb5a934d58c86da9bef1acdf7a4592305244c10c5e6e933d5e79d8fb | 5120 512 600
600 | 6:0 | attach=600 write@9=done digest=Read:0 file=yes | 5120 512 600
600 | 3:7 | attach=600 write@2=done digest=Write:7 digest=1536:394d4bf460a0167ddc49de1c1a7ef2d3aec311d7f6b6838ec8c17b046288e841 | 1536 512 600
600 | 3:7 | attach=600 write@2=done digest=Write:7 file=yes | 600 0 600
600 | 4:0 6:0 | attach=600 write@2=done digest=Length:0 flush=ok digest=Read:0 digest=1536:394d4bf460a0167ddc49de1c1a7ef2d3aec311d7f6b6838ec8c17b046288e841 | 1536 512 600";

#[test]
fn a_disk_is_read_written_and_written_back(rt: HostRuntime) {
    all(&rt, rt.alloc(), A_SECTOR_BEHIND_THE_END_IS_0);
    all(&rt, rt.alloc(), A_DISK_WITHOUT_A_FILE_SAYS_SO);
    all(&rt, rt.alloc(), A_SECTOR_IS_WRITTEN_BACK_ONCE);
    all(&rt, rt.alloc(), A_FAILED_FLUSH_LEAVES_A_FIRST_PART);
    all(&rt, rt.alloc(), A_FAILING_CALL_REFUSES_AN_IMAGE);
    all(&rt, rt.alloc(), A_DISK_IS_WRITTEN_BACK_AND_THEN_DIGESTED);
}
