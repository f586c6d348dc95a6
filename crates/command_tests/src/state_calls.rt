// SAVE and RESTORE of a session with three files, a call on which fails.
ghost use Rattle.std.specs.Prelude.{map};
ghost use Rattle.unit_files.specs.Open.{AllOpen};
ghost use Rattle.command_words.specs.Standard.{IsStandard};
ghost use Rattle.state_transfer.specs.SavedValid.{AreStandard};

use crate::answers::first_unit;
use crate::checked::check;
use crate::rows::{Row, all, does};
use crate::sessions::opened;
use crate::units::standard_units;
use file_commands::{FaultNote, Subject};
use host_files::{FileCall, FileId, Files, MemFiles};
use scp_commands::Session;
use std::alloc::{AllocError, Global};
use std::process::Abort;
use std::test::Fail;
use unit_trait::{Kind, Unit};

/// The tape that is there before: a block of two bytes.
const TAPE: &[u8] = b"\x02\0\0\0ab\x02\0\0\0";

/// What the punch's file has before.
const PUNCHED: &[u8] = b"ab";

/// What stands in the place of the state file before.
const OLD: &[u8] = b"old";

/// How the sector begins that the disk writes.
const SECTOR: &[u8] = b"AR\0\0";

/// How a state file begins.
const HEAD: &[u8] = b"NOVASTAT\0\x02";

/// Rows before a command in two tables, the line of the command, and rows behind it.
#[derive(Clone, Copy)]
struct Tables<'a> {
    first: &'a str,
    before: &'a str,
    line: &'a str,
    behind: &'a str,
}

/// The calls that fail, each with how many bytes it writes; the note of the first of them, if one is kept: its subject,
/// its call, its file and how many bytes were written; what the command answers; and how many bytes the disk's file and
/// the state file have behind all rows, `old` where it is as before.
#[derive(Clone, Copy)]
struct Case<'a> {
    line: &'a str,
    fails: &'a str,
    note: &'a str,
    answer: &'a str,
    disk: &'a str,
    state: &'a str,
}

fn case_of(line: &str) -> Case<'_> {
    let (fails, rest) = line.split_once(" | ").unwrap_or((line, ""));
    let (note, rest) = rest.split_once(" | ").unwrap_or((rest, ""));
    let (answer, rest) = rest.split_once(" | ").unwrap_or((rest, ""));
    let (disk, state) = rest.split_once(' ').unwrap_or((rest, ""));
    Case {
        line,
        fails,
        note,
        answer,
        disk,
        state,
    }
}

fn decimal(digits: &str) -> usize {
    digits.parse().unwrap_or(0)
}

/// Plays each case in a session of its own.
fn each(rt: &impl Abort, alloc: Global, tables: Tables, cases: &str) -> Result<(), AllocError> {
    for line in cases.lines() {
        fails(rt, alloc, tables, case_of(line))?;
    }
    Ok(())
}

fn fails(rt: &impl Abort, alloc: Global, tables: Tables, case: Case) -> Result<(), AllocError> {
    let mut files = MemFiles::with_room(alloc, 70000)?;
    prepare(rt, &mut files, case);
    play(rt, alloc, &mut files, tables, case)?;
    left(rt, &files, case);
    Ok(())
}

/// The files that are there before, and the calls that are to fail.
fn prepare(rt: &impl Abort, files: &mut MemFiles, case: Case) {
    check(rt, files.add_file("t", TAPE).is_ok(), "t");
    check(rt, files.add_file("p", PUNCHED).is_ok(), "p");
    check(rt, files.add_file("s", OLD).is_ok(), "s");
    for call in case.fails.split_whitespace() {
        let (number, done) = call.split_once(':').unwrap_or((call, "0"));
        let failing = files.fail_call(decimal(number) as u64, decimal(done));
        check(rt, failing.is_ok(), call);
    }
}

/// The disk's file has so many bytes of its sector, and the state file so many of a state. No other file has changed.
fn left(rt: &impl Abort, files: &MemFiles, case: Case) {
    check(rt, has(files.file_bytes("d"), SECTOR, case.disk), case.line);
    check(rt, has(files.file_bytes("s"), HEAD, case.state), case.line);
    check(rt, files.file_bytes("t") == Some(TAPE), case.line);
    check(rt, files.file_bytes("p") == Some(PUNCHED), case.line);
}

/// Whether a file has so many bytes that begin so, or the old ones.
fn has(found: Option<&[u8]>, head: &[u8], wanted: &str) -> bool {
    match found {
        Some(bytes) if wanted == "old" => bytes == OLD,
        Some(bytes) => bytes.len() == decimal(wanted) && begins(bytes, head),
        None => false,
    }
}

/// Whether bytes begin so, as far as they go.
fn begins(bytes: &[u8], head: &[u8]) -> bool {
    for (byte, wanted) in bytes.iter().zip(head.iter()) {
        if *byte != *wanted {
            return false;
        }
    }
    true
}

fn play<F: Files>(
    rt: &impl Abort,
    alloc: Global,
    files: &mut F,
    tables: Tables,
    case: Case,
) -> Result<(), AllocError> {
    let units = standard_units(alloc)?;
    play_with(rt, alloc, units, files, tables, case)
}

fn play_with<U: Unit, F: Files>(
    rt: &impl Abort,
    alloc: Global,
    units: Vec<U>,
    files: &mut F,
    tables: Tables,
    case: Case,
) -> Result<(), AllocError>
    requires { IsStandard (map U.unit_state units.items) }
{
    let mut session = opened(alloc, units)?;
    plays(rt, alloc, &mut session, files, tables, case)
}

fn plays<U: Unit, F: Files>(
    rt: &impl Abort,
    alloc: Global,
    session: &mut Session<U>,
    files: &mut F,
    tables: Tables,
    case: Case,
) -> Result<(), AllocError>
    requires open { AllOpen session.old.machine.slots (F.state files.old).opened }
    requires standard { AreStandard session.old.machine.units }
{
    session.command = 7;
    all(rt, alloc, session, files, tables.first)?;
    all(rt, alloc, session, files, tables.before)?;
    does(rt, alloc, session, files, row_of(tables.line, case))?;
    all(rt, alloc, session, files, tables.behind)?;
    noted(rt, session.notes.as_slice(), case);
    Ok(())
}

/// The row of the command, which prints nothing.
fn row_of<'a>(line: &'a str, case: Case<'a>) -> Row<'a> {
    Row {
        line,
        room: 0,
        answer: case.answer,
        text: "",
    }
}

fn noted(rt: &impl Abort, kept: &[FaultNote], case: Case) {
    let wanted = usize::from(case.note != "none");
    check(rt, kept.len() == wanted, case.line);
    for note in kept.iter() {
        check(rt, is_note(note, case.note), case.line);
    }
}

/// Whether that note was kept, for the command with the number 7, at the end of the run.
fn is_note(kept: &FaultNote, wanted: &str) -> bool {
    let mut words = wanted.split_whitespace();
    subject_named(words.next().unwrap_or("")) == Some(kept.subject)
        && call_named(words.next().unwrap_or("")) == Some(kept.call)
        && file_named(words.next().unwrap_or("")) == kept.file
        && kept.done == decimal(words.next().unwrap_or("0")) as u64
        && kept.command == 7
        && kept.time == 203
}

fn subject_named(word: &str) -> Option<Subject> {
    match word {
        "DSK" => Some(first_unit(Kind::Dsk)),
        "MTA0" => Some(first_unit(Kind::Mta)),
        "PTP" => Some(first_unit(Kind::Ptp)),
        "State" => Some(Subject::State),
        _ => None,
    }
}

fn call_named(word: &str) -> Option<FileCall> {
    match word {
        "Opening" => Some(FileCall::Opening),
        "Length" => Some(FileCall::Length),
        "Read" => Some(FileCall::Read),
        "Write" => Some(FileCall::Write),
        "Closing" => Some(FileCall::Closing),
        _ => None,
    }
}

/// The number of a file; none where it was to be opened.
fn file_named(word: &str) -> Option<FileId> {
    match word.parse::<u32>() {
        Ok(number) => Some(FileId(number)),
        Err(_) => None,
    }
}

/// A sector is written, and nothing of it is in the disk's file yet. The files are 0 to 2, and the calls so far 0 to 5.
const WRITTEN: &str = "ATTACH -N DSK d|0 Go|
ATTACH MTA0 t|0 Go|
ATTACH PTP p|0 Go|
D 200 51101|0 Go|
D DSK MA 200|0 Go|
D 100 60320|0 Go|
D 101 63620|0 Go|
D 102 777|0 Go|
D 103 63077|0 Go|
GO 100|100 Halt|$HALT instruction, PC: 00104 (000000)$";

/// The files and the machine stay as they were.
const STANDS: &str = "SHOW DSK|100 Go|DSK, attached to d$
SHOW MTA0|100 Go|MTA0, attached to t$
SHOW PTP|100 Go|PTP, attached to p$
E 200,PC|100 Go|00200:\t051101$PC:\t00104$
E DSK MA|100 Go|MA:\t00600$
SHOW TIME|100 Go|Time: 203$";

const SAVES: &str = "6:0 | DSK Write 0 0 | DiskFailed | 0 old
6:3 | DSK Write 0 3 | DiskFailed | 3 old
6:512 | DSK Write 0 512 | DiskFailed | 512 old
7 | DSK Length 0 | DiskFailed | 512 old
8 | DSK Read 0 | DiskFailed | 512 old
9 | MTA0 Length 1 | TapeFailed | 512 old
10 | MTA0 Read 1 | TapeFailed | 512 old
11 | PTP Length 2 | PunchFailed | 512 old
12 | PTP Read 2 | PunchFailed | 512 old
13 | State Opening - | StateFailed | 512 old
14:0 | State Write 3 0 | StateFailed | 512 0
14:5 | State Write 3 5 | StateFailed | 512 5
14:66000 | State Write 3 66000 | StateFailed | 512 66000
14:70000 | State Write 3 66048 | StateFailed | 512 66048
15 | State Closing 3 | Go | 512 66048
16 | none | Go | 512 66048";

#[test]
fn each_call_of_a_save_fails_in_turn(rt: HostRuntime) -> Result<(), Fail> {
    let tables = Tables {
        first: WRITTEN,
        before: "",
        line: "SAVE s",
        behind: STANDS,
    };
    each(&rt, rt.alloc(), tables, SAVES)?;
    Ok(())
}

/// The session is saved, and put back where its files are as they were then.
const SAVED_AGAIN: &str = "SAVE s|0 Go|
DETACH ALL|0 Go|
D 200 7|0 Go|
RESTORE s|0 Go|
SHOW DSK|100 Go|DSK, attached to d$
SHOW PTP|100 Go|PTP, attached to p$
E 200|100 Go|00200:\t051101$";

const SAVED_LATER: &str = "6:3 | DSK Write 0 3 | DiskFailed | 512 66048
8 | DSK Read 0 | DiskFailed | 512 66048
12 | PTP Read 2 | PunchFailed | 512 66048
14:5 | State Write 3 5 | StateFailed | 512 66048";

#[test]
fn a_save_that_failed_is_said_again(rt: HostRuntime) -> Result<(), Fail> {
    let tables = Tables {
        first: WRITTEN,
        before: "",
        line: "SAVE s",
        behind: SAVED_AGAIN,
    };
    each(&rt, rt.alloc(), tables, SAVED_LATER)?;
    Ok(())
}

/// The session was saved, and then detached and changed. The state file was 3, and the calls so far are 0 to 18.
const SAVED: &str = "SAVE s|0 Go|
DETACH ALL|0 Go|
D 200,PC 7|0 Go|
D DSK MA 0|0 Go|
BREAK 7|0 Go|";

/// Nothing is attached, and the machine is as it was. Then the session is put back after all.
const REFUSED: &str = "SHOW DSK|100 Go|DSK, not attached$
SHOW MTA0|100 Go|MTA0, not attached$
SHOW PTP|100 Go|PTP, not attached$
E 200,PC|100 Go|00200:\t000007$PC:\t00007$
E DSK MA|100 Go|MA:\t00000$
SHOW BREAK|100 Go|00007:\t[1]$
RESTORE s|0 Go|
SHOW DSK|100 Go|DSK, attached to d$
E 200|100 Go|00200:\t051101$
SHOW BREAK|0 Go|";

/// The state file is opened, its length is asked, it is read in 17 pieces and closed: these are the calls 19 to 38.
const RESTORES: &str = "19 | State Opening - | StateFailed | 512 66048
20 | State Length 4 | StateFailed | 512 66048
21 | State Read 4 | StateFailed | 512 66048
29 | State Read 4 | StateFailed | 512 66048
37 | State Read 4 | StateFailed | 512 66048
39 | DSK Opening - | DiskFailed | 512 66048
40 | DSK Length 5 | DiskFailed | 512 66048
41 | DSK Read 5 | DiskFailed | 512 66048
42 | DSK Length 5 | DiskFailed | 512 66048
43 | DSK Read 5 | DiskFailed | 512 66048
44 | MTA0 Opening - | TapeFailed | 512 66048
45 | MTA0 Length 6 | TapeFailed | 512 66048
46 | MTA0 Length 6 | TapeFailed | 512 66048
47 | MTA0 Read 6 | TapeFailed | 512 66048
48 | PTP Opening - | PunchFailed | 512 66048
49 | PTP Length 7 | PunchFailed | 512 66048
50 | PTP Length 7 | PunchFailed | 512 66048
51 | PTP Read 7 | PunchFailed | 512 66048
51 52 53 54 | PTP Read 7 | PunchFailed | 512 66048";

#[test]
fn each_call_of_a_restore_fails_in_turn(rt: HostRuntime) -> Result<(), Fail> {
    let tables = Tables {
        first: WRITTEN,
        before: SAVED,
        line: "RESTORE s",
        behind: REFUSED,
    };
    each(&rt, rt.alloc(), tables, RESTORES)?;
    Ok(())
}

/// Without the calls that compare.
const FORCED: &str = "19 | State Opening - | StateFailed | 512 66048
39 | DSK Opening - | DiskFailed | 512 66048
40 | DSK Length 5 | DiskFailed | 512 66048
41 | DSK Read 5 | DiskFailed | 512 66048
42 | MTA0 Opening - | TapeFailed | 512 66048
43 | MTA0 Length 6 | TapeFailed | 512 66048
44 | PTP Opening - | PunchFailed | 512 66048
45 | PTP Length 7 | PunchFailed | 512 66048";

#[test]
fn each_call_of_a_forced_restore_fails_in_turn(rt: HostRuntime) -> Result<(), Fail> {
    let tables = Tables {
        first: WRITTEN,
        before: SAVED,
        line: "RESTORE -F s",
        behind: REFUSED,
    };
    each(&rt, rt.alloc(), tables, FORCED)?;
    Ok(())
}

/// The session is put back.
const RESTORED: &str = "SHOW DSK|100 Go|DSK, attached to d$
SHOW MTA0|100 Go|MTA0, attached to t$
SHOW PTP|100 Go|PTP, attached to p$
E 200,PC|100 Go|00200:\t051101$PC:\t00104$
E DSK MA|100 Go|MA:\t00600$
SHOW BREAK|0 Go|
SHOW TIME|100 Go|Time: 203$";

const CLOSED: &str = "38 | State Closing 4 | Go | 512 66048
52 | none | Go | 512 66048";

#[test]
fn a_failed_closing_of_the_state_file_refuses_nothing(rt: HostRuntime) -> Result<(), Fail> {
    let tables = Tables {
        first: WRITTEN,
        before: SAVED,
        line: "RESTORE s",
        behind: RESTORED,
    };
    each(&rt, rt.alloc(), tables, CLOSED)?;
    Ok(())
}

/// The session has a port too, which is asked for behind the last call on a file.
const LISTENING: &str = "ATTACH TTI1 4000|0 Go|
ATTACH -N DSK d|0 Go|
ATTACH MTA0 t|0 Go|
ATTACH PTP p|0 Go|";

/// Where the port is refused, no unit has a file. The port may be there the next time.
const UNHEARD: &str = "SHOW DSK|100 Go|DSK, not attached$
SHOW MTA0|100 Go|MTA0, not attached$
SHOW PTP|100 Go|PTP, not attached$
SHOW TTI1|100 Go|TTI1, not attached$
E 200,PC|100 Go|00200:\t000007$PC:\t00007$
SHOW BREAK|100 Go|00007:\t[1]$
RESTORE s|0 Go|
SHOW PTP|100 Go|PTP, attached to p$
SHOW TTI1|100 Go|TTI1, listening on port 4000$
E 200,PC|100 Go|00200:\t000000$PC:\t00000$";

#[test]
fn a_restore_whose_port_is_refused_attaches_nothing(rt: HostRuntime) -> Result<(), Fail> {
    let tables = Tables {
        first: LISTENING,
        before: SAVED,
        line: "RESTORE s",
        behind: UNHEARD,
    };
    each(&rt, rt.alloc(), tables, " | none | PortFailed | 0 66048")?;
    Ok(())
}
