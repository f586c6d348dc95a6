// A text by a small layout: five letters, a version, and up to three marks behind their number, each from 0 to 1000, and in
// the first version from 0 to 9.
ghost use Rattle.std.specs.Prelude.{◌≡◌, ◌++◌, ◌<◌, ◌^◌, ◌==◌, ℕ, List, [], OnOk, nat_le, codes, length, map, refl, if◌then◌else◌};
ghost use Rattle.byte_layouts.specs.Readers.{Reads, number, tested, is_version_to};
ghost use Rattle.byte_layouts.specs.Layout.{One, Two, Head, Version, Number, ◌&◌, text, reading, Fits};

use crate::checked::holds;
use byte_layouts::{
    Cursor, Elements, FieldFault, Format, Known, ListFormat, Reading, Telling, Tells, Writes,
    put_u8, put_u16, read_whole, write_list,
};
use std::alloc::{AllocError, Global};
use std::test::Fail;

struct StartFormat;

impl Tells for StartFormat {
    type Item = ((), u16);

    ghost Value = { Unit {0} × ℕ };

    ghost view = { λ v. v };

    ghost layout = { λ known. Head (codes "MARKS") & Version (is_version_to 2) };

    ghost tells = { λ known v. record { version = v.1; count = 0 } };

    fn read(_alloc: Global, cursor: &mut Cursor, _known: Known) -> Result<((), u16), FieldFault> {
        cursor.head(b"MARKS")?;
        Ok(((), cursor.version_to(2)?))
    }

    fn tell(_known: Known, start: &((), u16)) -> Known {
        Known {
            version: start.1,
            count: 0,
        }
    }
}

// The largest mark of a version.
fn most(version: u16) -> u16
    ensures { result ≡ (if version == 1 then 9 else 1000) }
{
    if version == 1 { 9 } else { 1000 }
}

struct MarkFormat;

impl Format for MarkFormat {
    type Item = u16;

    ghost Value = { ℕ };

    ghost view = { λ n. n };

    ghost layout = { λ known before. Number Two (λ n. nat_le n (if known.version == 1 then 9 else 1000)) };

    fn read(
        _alloc: Global,
        cursor: &mut Cursor,
        known: Known,
        _before: &[u16],
    ) -> Result<u16, FieldFault> {
        cursor.u16_to(most(known.version))
    }
}

impl Writes for MarkFormat {
    fn write(mark: &u16, _known: Known, out: &mut Vec<u8>) -> Result<(), AllocError> {
        put_u16(out, *mark)
    }

    ghost same_text = { λ known before x. refl };

    ghost same_fits = { λ known before x fits. fits };
}

impl ListFormat for MarkFormat {
    ghost size = { One };

    ghost few = { λ known n. nat_le n 3 };

    fn count(cursor: &mut Cursor, _known: Known) -> Result<u32, FieldFault> {
        Ok(u32::from(cursor.u8_to(3)?))
    }

    fn write_count(count: usize, out: &mut Vec<u8>) -> Result<(), AllocError> {
        put_u8(out, count as u8)
    }
}

type Marks = Telling<StartFormat, Elements<MarkFormat>>;

fn written(alloc: Global) -> Result<Vec<u8>, AllocError> {
    let mut out = Vec::new(alloc);
    out.extend_from_slice(b"MARKS")?;
    put_u16(&mut out, 2)?;
    let known = Known {
        version: 2,
        count: 0,
    };
    write_list::<MarkFormat>(&[1000, 7], known, &mut out)?;
    Ok(out)
}

fn whole(alloc: Global, bytes: &[u8]) -> Result<Vec<u16>, FieldFault> {
    let (_, marks) = read_whole::<Marks>(alloc, bytes)?;
    Ok(marks)
}

fn by_bytes(alloc: Global, bytes: &[u8]) -> Result<Vec<u16>, FieldFault> {
    let mut reading = Reading::<Marks>::new(alloc, 1)?;
    for byte in bytes {
        reading.feed(&[*byte])?;
    }
    let (_, marks) = reading.finish_whole()?;
    Ok(marks)
}

fn is(found: Result<Vec<u16>, FieldFault>, expected: Result<&[u16], FieldFault>) -> bool {
    match found {
        Ok(marks) => expected == Ok(marks.as_slice()),
        Err(fault) => expected == Err(fault),
    }
}

/// Whether bytes come to that, in one piece and in pieces of one byte.
fn says(alloc: Global, bytes: &[u8], expected: Result<&[u16], FieldFault>) -> bool {
    is(whole(alloc, bytes), expected) && is(by_bytes(alloc, bytes), expected)
}

// The letters; 0 and 2 are the version, then how many marks stand behind it, and each mark has two bytes.
const TEXT: &[u8] = b"MARKS\x00\x02\x02\x03\xe8\x00\x07";

#[test]
fn a_text_is_written_and_read(rt: HostRuntime) -> Result<(), Fail> {
    let out = written(rt.alloc())?;
    holds(&rt, out.as_slice() == TEXT, "written");
    holds(&rt, says(rt.alloc(), TEXT, Ok(&[1000, 7])), "read");
    Ok(())
}

#[test]
fn a_text_that_is_cut_is_cut_short(rt: HostRuntime) {
    for size in 0..TEXT.len() {
        let so = says(rt.alloc(), &TEXT[..size], Err(FieldFault::Truncated));
        holds(&rt, so, "cut");
    }
}

/// What is wrong with bytes, these, and their first fault from the left.
const FAULTS: [(&str, &[u8], FieldFault); 10] = [
    (
        "a byte behind two marks",
        b"MARKS\x00\x02\x02\x03\xe8\x00\x07\x00",
        FieldFault::BadField(12),
    ),
    (
        "a byte behind none",
        b"MARKS\x00\x02\x00\x00",
        FieldFault::BadField(8),
    ),
    (
        "the last mark",
        b"MARKS\x00\x02\x02\x03\xe8\x03\xe9",
        FieldFault::BadField(10),
    ),
    (
        "the first mark, and it is cut",
        b"MARKS\x00\x02\x02\x03\xe9",
        FieldFault::BadField(8),
    ),
    (
        "how many marks",
        b"MARKS\x00\x02\x04",
        FieldFault::BadField(7),
    ),
    (
        "a later version, and how many",
        b"MARKS\x00\x03\x04",
        FieldFault::Version(3),
    ),
    (
        "no version, and how many",
        b"MARKS\x00\x00\x04",
        FieldFault::Version(0),
    ),
    (
        "a mark of the second version in the first one",
        b"MARKS\x00\x01\x02\x00\x09\x00\x0a",
        FieldFault::BadField(10),
    ),
    (
        "a letter, and the version",
        b"MARKs\x03\x01",
        FieldFault::NotHead,
    ),
    ("the one letter", b"m", FieldFault::NotHead),
];

#[test]
fn the_first_fault_is_told(rt: HostRuntime) {
    for row in FAULTS.iter() {
        holds(&rt, says(rt.alloc(), row.1, Err(row.2)), row.0);
    }
}
