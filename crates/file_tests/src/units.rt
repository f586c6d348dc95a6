// Files of units as lines of text: the calls on files that fail, what is called and what it answers, and the files then.
// Files have room for 16 bytes, and one is there, `tape`, with the bytes `hello`.
ghost use Rattle.std.specs.Prelude.{◌≤◌, ◌^◌, IsTrue};
ghost use Rattle.unit_files.specs.Attachments.{takes_attachment, is_paper};
ghost use Rattle.unit_files.specs.Open.{AllOpen};

use crate::digests::digest_answer;
use crate::images::{left, with_file};
use crate::texts::{Call, call_of, columns_of, equal, file_call, holds, number};
use host_files::{FileId, Files, MemFiles};
use std::alloc::Global;
use std::process::Abort;
use unit_files::{AttachFault, AttachMode, Attached, ByteAnswer, DetachFault, UnitFault};
use unit_trait::{Kind, UnitName};

/// The reader, the punch or the printer.
pub fn unit_of(name: &str) -> UnitName
    ensures paper { IsTrue (is_paper result.kind) }
    ensures takes { IsTrue (takes_attachment result) }
{
    match name {
        "PTR" => UnitName {
            kind: Kind::Ptr,
            unit: 0,
        },
        "PTP" => UnitName {
            kind: Kind::Ptp,
            unit: 0,
        },
        _ => UnitName {
            kind: Kind::Lpt,
            unit: 0,
        },
    }
}

pub fn mode_of(name: &str) -> AttachMode {
    match name {
        "any" => AttachMode::Any,
        "there" => AttachMode::MustExist,
        "new" => AttachMode::New,
        _ => AttachMode::ReadOnly,
    }
}

pub fn file_of(text: &str) -> Option<FileId> {
    text.parse().ok().map(FileId)
}

/// A failed call of a unit, as `Write:0:1`: the call, its file, and how many bytes it has written.
fn fault_of(unit: UnitName, text: &str) -> Option<UnitFault> {
    let (call, rest) = text.split_once(':')?;
    let (file, done) = rest.split_once(':')?;
    Some(UnitFault {
        unit,
        file: file_of(file),
        call: file_call(call)?,
        done: number(done)?,
    })
}

fn attach_answer(unit: UnitName, text: &str) -> Option<Result<u64, AttachFault>> {
    if let Some(length) = number(text) {
        return Some(Ok(length));
    }
    match text {
        "AlreadyAttached" => Some(Err(AttachFault::AlreadyAttached)),
        "ReadOnly" => Some(Err(AttachFault::ReadOnly)),
        "NoFile" => Some(Err(AttachFault::NoFile)),
        "TooLong" => Some(Err(AttachFault::TooLong)),
        _ => Some(Err(AttachFault::Failed(fault_of(unit, text)?))),
    }
}

/// What a detaching answers, of units that write nothing back.
pub fn detach_answer(unit: UnitName, text: &str) -> Result<Option<UnitFault>, DetachFault> {
    match text {
        "NotAttached" => Err(DetachFault::NotAttached),
        _ => Ok(fault_of(unit, text)),
    }
}

fn byte_answer(unit: UnitName, text: &str) -> Option<ByteAnswer> {
    match text {
        "written" => Some(ByteAnswer::Written),
        "end" => Some(ByteAnswer::End),
        "no_file" => Some(ByteAnswer::NoFile),
        _ => match fault_of(unit, text) {
            Some(fault) => Some(ByteAnswer::Failed(fault)),
            None => Some(ByteAnswer::Byte(text.bytes().next()?)),
        },
    }
}

/// Plays the calls of a line.
fn plays<F: Files>(
    rt: &impl Abort,
    alloc: Global,
    attached: &mut Attached,
    files: &mut F,
    calls: &str,
)
    requires { AllOpen attached.old.slots (F.state files.old).opened }
{
    for word in calls.split_whitespace() {
        act(rt, alloc, attached, files, call_of(word));
    }
}

fn act<F: Files>(rt: &impl Abort, alloc: Global, attached: &mut Attached, files: &mut F, call: Call)
    requires { AllOpen attached.old.slots (F.state files.old).opened }
    ensures { AllOpen attached.new.slots (F.state files.new).opened }
{
    match call.verb {
        "attach" => attach(rt, alloc, attached, files, call),
        "detach" => detach(rt, attached, files, call),
        "read" => read(rt, attached, files, call),
        "write" => write(rt, attached, files, call),
        "digest" => digest(rt, attached, files, call),
        "faults" | "openings" => counts(rt, files, call),
        _ => stands(rt, attached, call),
    }
}

fn attach<F: Files>(
    rt: &impl Abort,
    alloc: Global,
    attached: &mut Attached,
    files: &mut F,
    call: Call,
)
    requires { AllOpen attached.old.slots (F.state files.old).opened }
    ensures { AllOpen attached.new.slots (F.state files.new).opened }
{
    let unit = unit_of(call.first);
    let name = call.second;
    if name.is_empty() || name.len() > 255 {
        holds(rt, false, call.word);
        return;
    }
    let said = attached.attach(alloc, unit, name, mode_of(call.third), files);
    equal(
        rt,
        &Some(said),
        &attach_answer(unit, call.answer),
        call.word,
    );
}

fn detach<F: Files>(rt: &impl Abort, attached: &mut Attached, files: &mut F, call: Call)
    requires { AllOpen attached.old.slots (F.state files.old).opened }
    ensures { AllOpen attached.new.slots (F.state files.new).opened }
{
    let unit = unit_of(call.first);
    let said = attached.detach(unit, files);
    equal(rt, &said, &detach_answer(unit, call.answer), call.word);
}

/// A place that a unit may be asked for.
fn place_of(text: &str) -> u64
    ensures { result ≤ 8 ^ 8 }
{
    number(text).unwrap_or(0).min(16_777_216)
}

fn read<F: Files>(rt: &impl Abort, attached: &mut Attached, files: &mut F, call: Call)
    requires { AllOpen attached.old.slots (F.state files.old).opened }
    ensures { AllOpen attached.new.slots (F.state files.new).opened }
{
    let unit = unit_of(call.first);
    let said = attached.read_byte(unit, place_of(call.second), files);
    equal(rt, &Some(said), &byte_answer(unit, call.answer), call.word);
}

fn write<F: Files>(rt: &impl Abort, attached: &mut Attached, files: &mut F, call: Call)
    requires { AllOpen attached.old.slots (F.state files.old).opened }
    ensures { AllOpen attached.new.slots (F.state files.new).opened }
{
    let unit = unit_of(call.first);
    let byte = call.third.bytes().next().unwrap_or(0);
    if attached.is_read_only(unit) {
        holds(rt, false, call.word);
        return;
    }
    let said = attached.write_byte(unit, place_of(call.second), byte, files);
    equal(rt, &Some(said), &byte_answer(unit, call.answer), call.word);
}

fn digest<F: Files>(rt: &impl Abort, attached: &mut Attached, files: &mut F, call: Call)
    requires { AllOpen attached.old.slots (F.state files.old).opened }
    ensures { AllOpen attached.new.slots (F.state files.new).opened }
{
    let unit = unit_of(call.first);
    let said = attached.digest(unit, files);
    let wanted = digest_answer(call.answer, fault_of(unit, call.answer));
    equal(rt, &said, &wanted, call.word);
}

/// How often calls on a file have failed, or openings.
fn counts<F: Files>(rt: &impl Abort, files: &F, call: Call) {
    let count = match file_of(call.first) {
        Some(file) => files.faults(file),
        None => files.open_faults(),
    };
    equal(rt, &Some(count), &number(call.answer), call.word);
}

/// What stands of a unit.
fn stands(rt: &impl Abort, attached: &Attached, call: Call) {
    let unit = unit_of(call.first);
    match call.verb {
        "file" => equal(
            rt,
            &attached.file_of(unit),
            &file_of(call.answer),
            call.word,
        ),
        "name" => {
            let name = attached.name_of(unit).unwrap_or("none");
            holds(rt, name == call.answer, call.word);
        }
        _ => {
            let wanted = call.answer == "yes";
            holds(rt, attached.is_read_only(unit) == wanted, call.word);
        }
    }
}

/// Plays the calls of a line on units that have no file at first.
fn plays_new<F: Files>(rt: &impl Abort, alloc: Global, files: &mut F, calls: &str) -> Option<()> {
    let mut attached = Attached::new(alloc).ok()?;
    plays(rt, alloc, &mut attached, files, calls);
    Some(())
}

/// Plays a line, if there is memory for it.
fn plays_line(rt: &impl Abort, alloc: Global, line: &str) -> Option<()> {
    let row = columns_of(line);
    let mut files = with_file(alloc, 16, "tape", b"hello", row.first)?;
    plays_new(rt, alloc, &mut files, row.second)?;
    all_left(rt, &files, row.third);
    Some(())
}

/// The files of a line, `other=none` where there is none.
pub fn all_left(rt: &impl Abort, files: &MemFiles, words: &str) {
    for word in words.split_whitespace() {
        let call = call_of(word);
        left(rt, files, call.verb, call.answer, word);
    }
}

fn all(rt: &impl Abort, alloc: Global, table: &str) {
    for line in table.lines() {
        holds(rt, plays_line(rt, alloc, line).is_some(), line);
    }
}

const A_FILE_THAT_IS_THERE_IS_ATTACHED_IN_EACH_MODE: &str =
    "none | attach@PTR:tape:any=5 read_only@PTR=no file@PTR=0 | tape=hello
none | attach@PTR:tape:there=5 read_only@PTR=no file@PTR=0 | tape=hello
none | attach@PTR:tape:read=5 read_only@PTR=yes file@PTR=0 | tape=hello
none | attach@PTR:tape:new=0 read_only@PTR=no file@PTR=0 | tape=";

const A_FILE_THAT_IS_MISSING_IS_MADE_OR_REFUSED: &str =
    "none | attach@PTR:other:any=0 file@PTR=0 | other=
none | attach@PTR:other:new=0 file@PTR=0 | other=
none | attach@PTR:other:there=NoFile file@PTR=none | other=none
none | attach@PTR:other:read=NoFile file@PTR=none | other=none";

const AN_ATTACHED_UNIT_IS_REFUSED_BEFORE_ITS_MODE: &str =
    "none | attach@PTP:tape:read=ReadOnly attach@PTP:tape:any=5 attach@PTP:none:read=AlreadyAttached attach@LPT:none:read=ReadOnly";

const A_FILE_IS_ATTACHED_UNDER_ITS_NAME: &str =
    "none | attach@PTR:tape:any=5 name@PTR=tape name@PTP=none file@PTP=none read_only@PTP=no";

const A_FAILED_OPENING_IS_SAID_OF_THE_UNIT: &str =
    "0:0 | attach@PTR:tape:any=Opening:none:0 openings=1 file@PTR=none | other=none
0:0 | attach@PTR:other:any=Opening:none:0 openings=1 file@PTR=none | other=none
1:0 | attach@PTR:other:any=Opening:none:0 openings=1 file@PTR=none | other=none";

const A_FILE_WHOSE_LENGTH_IS_NOT_GIVEN_IS_CLOSED_AGAIN: &str =
    "1:0 | attach@PTR:tape:new=Length:0:0 faults@0=1 | tape=
1:0 | attach@PTR:tape:new=Length:0:0 faults@0=1 attach@PTR:tape:any=0 file@PTR=1";

const A_CLOSING_THAT_FAILS_ON_A_REFUSAL_IS_NOT_TOLD: &str =
    "1:0 2:0 | attach@PTR:tape:any=Length:0:0 faults@0=2";

const A_DETACHED_UNIT_CAN_HAVE_ANOTHER_FILE: &str =
    "none | detach@PTR=NotAttached attach@PTR:tape:any=5 detach@PTR=ok file@PTR=none attach@PTR:other:new=0 file@PTR=1";

const A_FAILED_CLOSING_DETACHES: &str =
    "2:0 | attach@PTR:tape:any=5 detach@PTR=Closing:0:0 faults@0=1 detach@PTR=NotAttached";

const UNITS_HAVE_THEIR_FILES_APART: &str =
    "none | attach@PTR:tape:read=5 attach@PTP:tape:any=5 attach@LPT:list:any=0 detach@PTP=ok file@PTR=0 read_only@PTR=yes file@PTP=none file@LPT=2";

const BYTES_ARE_READ_UP_TO_THE_END: &str =
    "none | read@PTR:0=no_file attach@PTR:tape:read=5 read@PTR:0=h read@PTR:4=o read@PTR:5=end read@PTR:6=end read@PTR:16777216=end read@PTP:0=no_file";

const A_FAILED_READ_IS_SAID_OF_THE_UNIT_AND_ITS_FILE: &str =
    "2:0 | attach@PTR:tape:any=5 read@PTR:0=Read:0:0 read@PTR:0=h";

const BYTES_ARE_WRITTEN_BEHIND_A_GAP_OF_ZERO_BYTES: &str =
    "none | write@PTP:0:a=no_file attach@PTP:tape:any=5 write@PTP:1:a=written write@PTP:7:!=written write@PTP:16777216:?=end | tape=hallo..!";

const A_FAILED_WRITE_SAYS_WHETHER_ITS_BYTE_WAS_WRITTEN: &str =
    "2:0 | attach@PTP:tape:any=5 write@PTP:1:a=Write:0:0 | tape=hello
2:1 | attach@PTP:tape:any=5 write@PTP:1:a=Write:0:1 | tape=hallo";

const WHAT_ONE_UNIT_WRITES_ANOTHER_READS: &str =
    "none | attach@PTR:tape:read=5 attach@PTP:tape:any=5 write@PTP:5:!=written read@PTR:5=! | tape=hello!";

const A_FILE_IS_DIGESTED_AS_IT_STANDS_THERE: &str =
    "none | digest@PTR=NotAttached attach@PTR:tape:read=5 digest@PTR=5:2cf24dba5fb0a30e26e83b2ac5b9e29e1b161e5c1fa7425e73043362938b9824 read@PTR:0=h | tape=hello
none | attach@PTP:tape:any=5 write@PTP:1:a=written digest@PTP=5:d3751d33f9cd5049c4af2b462735457e4d3baf130bcbb87f389e349fbaeb20b9 | tape=hallo
none | attach@LPT:other:any=0 digest@LPT=0:e3b0c44298fc1c149afbf4c8996fb92427ae41e4649b934ca495991b7852b855 detach@LPT=ok | other=";

// The opening and the length come first. Of a file without bytes nothing is read.
const A_FAILED_CALL_OF_A_DIGEST_IS_SAID_OF_THE_UNIT: &str =
    "2:0 | attach@PTR:tape:any=5 digest@PTR=Length:0:0 faults@0=1 file@PTR=0 digest@PTR=5:2cf24dba5fb0a30e26e83b2ac5b9e29e1b161e5c1fa7425e73043362938b9824
3:0 | attach@PTR:tape:any=5 digest@PTR=Read:0:0 faults@0=1 file@PTR=0 digest@PTR=5:2cf24dba5fb0a30e26e83b2ac5b9e29e1b161e5c1fa7425e73043362938b9824
3:0 | attach@PTR:tape:new=0 digest@PTR=0:e3b0c44298fc1c149afbf4c8996fb92427ae41e4649b934ca495991b7852b855 faults@0=0 digest@PTR=Length:0:0";

#[test]
fn units_have_their_files(rt: HostRuntime) {
    all(
        &rt,
        rt.alloc(),
        A_FILE_THAT_IS_THERE_IS_ATTACHED_IN_EACH_MODE,
    );
    all(&rt, rt.alloc(), A_FILE_THAT_IS_MISSING_IS_MADE_OR_REFUSED);
    all(&rt, rt.alloc(), AN_ATTACHED_UNIT_IS_REFUSED_BEFORE_ITS_MODE);
    all(&rt, rt.alloc(), A_FILE_IS_ATTACHED_UNDER_ITS_NAME);
    all(&rt, rt.alloc(), A_FAILED_OPENING_IS_SAID_OF_THE_UNIT);
    all(
        &rt,
        rt.alloc(),
        A_FILE_WHOSE_LENGTH_IS_NOT_GIVEN_IS_CLOSED_AGAIN,
    );
    all(
        &rt,
        rt.alloc(),
        A_CLOSING_THAT_FAILS_ON_A_REFUSAL_IS_NOT_TOLD,
    );
    all(&rt, rt.alloc(), A_DETACHED_UNIT_CAN_HAVE_ANOTHER_FILE);
    all(&rt, rt.alloc(), A_FAILED_CLOSING_DETACHES);
    all(&rt, rt.alloc(), UNITS_HAVE_THEIR_FILES_APART);
    all(&rt, rt.alloc(), BYTES_ARE_READ_UP_TO_THE_END);
    all(
        &rt,
        rt.alloc(),
        A_FAILED_READ_IS_SAID_OF_THE_UNIT_AND_ITS_FILE,
    );
    all(
        &rt,
        rt.alloc(),
        BYTES_ARE_WRITTEN_BEHIND_A_GAP_OF_ZERO_BYTES,
    );
    all(
        &rt,
        rt.alloc(),
        A_FAILED_WRITE_SAYS_WHETHER_ITS_BYTE_WAS_WRITTEN,
    );
    all(&rt, rt.alloc(), WHAT_ONE_UNIT_WRITES_ANOTHER_READS);
    all(&rt, rt.alloc(), A_FILE_IS_DIGESTED_AS_IT_STANDS_THERE);
    all(
        &rt,
        rt.alloc(),
        A_FAILED_CALL_OF_A_DIGEST_IS_SAID_OF_THE_UNIT,
    );
}
