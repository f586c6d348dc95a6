// Files of the system, over real files and over a system that does what a test writes down.
mod jobs;
mod scripted;

use crate::texts::holds;
use host_adapters::RealFiles;
use host_files::{FileId, OpenFault, OpenMode};
use jobs::{Job, is_done};
use scripted::{Scripted, Step};
use std::io::ErrorKind;
use std::path::PathBuf;
use std::test::Fail;
use std::{env, fs, process};

/// A path in the system's folder for files of a while, of this process alone.
fn path_of(rt: &HostRuntime, name: &str) -> Result<String, Fail> {
    let folder: PathBuf = env::temp_dir(rt)?;
    let number = process::id(rt.process());
    Ok(format!(in rt.alloc(); "{}/adapter_tests_{number}_{name}", folder.display())?)
}

/// Whether the file of a path has that text.
fn has_text(rt: &HostRuntime, path: &str, wanted: &str) -> bool {
    match fs::read_to_string(rt, path) {
        Ok(text) => text.as_str() == wanted,
        Err(_) => false,
    }
}

fn is_there(rt: &HostRuntime, path: &str) -> bool {
    matches!(fs::exists(rt, path), Ok(true))
}

fn is_filled(rt: &HostRuntime, path: &str, text: &str) -> bool {
    fs::write(rt, path, text).is_ok()
}

fn is_removed(rt: &HostRuntime, path: &str) -> bool {
    fs::remove_file(rt, path).is_ok()
}

/// Whether a job is done on a file of the system.
fn works(rt: &HostRuntime, path: &str, job: Job) -> bool {
    let mut files = RealFiles::new(rt.alloc(), rt);
    is_done(rt.alloc(), &mut files, path, job)
}

/// Whether a job is done on a file of a system that does what a test writes down.
fn works_on(rt: &HostRuntime, system: Scripted, job: Job) -> bool {
    let mut files = RealFiles::new(rt.alloc(), system);
    is_done(rt.alloc(), &mut files, "tape", job)
}

#[test]
fn a_file_of_the_system_is_made_written_and_read(rt: HostRuntime) -> Result<(), Fail> {
    let path = path_of(&rt, "written")?;
    let well = works(&rt, path.as_str(), Job::Make) && has_text(&rt, path.as_str(), "oldtape");
    holds(&rt, well && is_removed(&rt, path.as_str()), path.as_str());
    Ok(())
}

#[test]
fn a_gap_and_a_new_length_are_zero_bytes(rt: HostRuntime) -> Result<(), Fail> {
    let path = path_of(&rt, "cut")?;
    let well = is_filled(&rt, path.as_str(), "abcdef") && works(&rt, path.as_str(), Job::Cut);
    holds(&rt, well && is_removed(&rt, path.as_str()), path.as_str());
    Ok(())
}

/// Whether the opening of a path is answered so, behind which so many openings have failed.
fn opens(
    rt: &HostRuntime,
    path: &str,
    mode: OpenMode,
    wanted: Result<FileId, OpenFault>,
    faults: u64,
) -> bool {
    works(rt, path, Job::Open(mode, wanted, faults))
}

fn is_missing(rt: &HostRuntime, path: &str) -> bool {
    opens(rt, path, OpenMode::Read, Err(OpenFault::NoFile), 1)
        && opens(rt, path, OpenMode::Update, Err(OpenFault::NoFile), 1)
        && !is_there(rt, path)
}

fn is_opened(rt: &HostRuntime, path: &str, mode: OpenMode) -> bool {
    opens(rt, path, mode, Ok(FileId(0)), 0)
}

#[test]
fn each_mode_opens_as_it_says(rt: HostRuntime) -> Result<(), Fail> {
    let path = path_of(&rt, "modes")?;
    let name = path.as_str();
    let missing = is_missing(&rt, name) && is_opened(&rt, name, OpenMode::Create);
    let kept = is_filled(&rt, name, "old")
        && is_opened(&rt, name, OpenMode::Read)
        && is_opened(&rt, name, OpenMode::Update)
        && has_text(&rt, name, "old");
    let emptied = is_opened(&rt, name, OpenMode::Create) && has_text(&rt, name, "");
    holds(
        &rt,
        missing && kept && emptied && is_removed(&rt, name),
        name,
    );
    Ok(())
}

fn is_refused(rt: &HostRuntime, path: &str, mode: OpenMode) -> bool {
    opens(rt, path, mode, Err(OpenFault::Failed), 1)
}

#[test]
fn a_folder_is_not_opened(rt: HostRuntime) {
    holds(&rt, is_refused(&rt, "/", OpenMode::Read), "to be read");
    holds(&rt, is_refused(&rt, "/", OpenMode::Update), "to be updated");
    holds(&rt, is_refused(&rt, "/", OpenMode::Create), "to be made");
    holds(
        &rt,
        is_refused(&rt, "/a\0b", OpenMode::Create),
        "a name with a byte of 0",
    );
}

fn is_no_file(rt: &HostRuntime, path: &str) -> bool {
    works(rt, path, Job::Measure(OpenMode::Read, None))
        && works(rt, path, Job::Measure(OpenMode::Update, Some(0)))
}

#[test]
fn a_device_that_is_only_read_has_no_length(rt: HostRuntime) {
    holds(&rt, is_no_file(&rt, "/dev/null"), "/dev/null");
    holds(&rt, is_no_file(&rt, "/dev/zero"), "/dev/zero");
}

const END: Step = Step::End;

/// A system whose file of 5 bytes takes and gives nothing.
const PLAIN: Scripted = Scripted {
    opening: None,
    is_folder: false,
    length: Some(5),
    steps: [END, END, END],
};

/// How an opening fails, if it does, and whether it opens a folder; the answer, and how many have failed then.
const OPENINGS: [(Option<ErrorKind>, bool, Result<FileId, OpenFault>, u64); 5] = [
    (None, false, Ok(FileId(0)), 0),
    (None, true, Err(OpenFault::Failed), 1),
    (Some(ErrorKind::NotFound), false, Err(OpenFault::NoFile), 1),
    (
        Some(ErrorKind::PermissionDenied),
        false,
        Err(OpenFault::Failed),
        1,
    ),
    (Some(ErrorKind::Other), false, Err(OpenFault::Failed), 1),
];

fn is_counted(
    rt: &HostRuntime,
    row: &(Option<ErrorKind>, bool, Result<FileId, OpenFault>, u64),
) -> bool {
    let system = Scripted {
        opening: row.0,
        is_folder: row.1,
        ..PLAIN
    };
    works_on(rt, system, Job::Open(OpenMode::Read, row.2, row.3))
}

#[test]
fn an_opening_that_fails_is_counted(rt: HostRuntime) {
    for row in OPENINGS.iter() {
        holds(&rt, is_counted(&rt, row), "an opening");
    }
}

/// What a read of four bytes at place 5 answers where the file does these steps, and the bytes; the file's faults then.
fn reads(rt: &HostRuntime, steps: [Step; 3], wanted: Option<usize>, bytes: [u8; 4]) -> bool {
    works_on(rt, Scripted { steps, ..PLAIN }, Job::Read(wanted, bytes))
}

const INTERRUPTED: ErrorKind = ErrorKind::Interrupted;

const READS: [([Step; 3], usize, [u8; 4]); 6] = [
    ([END, END, END], 0, [0, 0, 0, 0]),
    ([Step::Give(5, 6), END, END], 4, [5, 6, 7, 8]),
    (
        [Step::Give(5, 2), Step::Give(7, 1), Step::Give(8, 1)],
        4,
        [5, 6, 7, 8],
    ),
    ([Step::Give(5, 2), END, Step::Give(7, 2)], 2, [5, 6, 0, 0]),
    (
        [
            Step::Give(5, 2),
            Step::Fail(7, INTERRUPTED, 64),
            Step::Give(7, 2),
        ],
        4,
        [5, 6, 7, 8],
    ),
    (
        [Step::Fail(5, INTERRUPTED, 64), Step::Give(5, 1), END],
        1,
        [5, 0, 0, 0],
    ),
];

#[test]
fn a_read_goes_on_until_the_buffer_is_full_or_the_file_ends(rt: HostRuntime) {
    for row in READS.iter() {
        holds(&rt, reads(&rt, row.0, Some(row.1), row.2), "a read");
    }
}

const FAILED_READS: [[Step; 3]; 4] = [
    [Step::Fail(5, ErrorKind::Other, 1), Step::Give(5, 4), END],
    [
        Step::Give(5, 2),
        Step::Fail(7, ErrorKind::WouldBlock, 1),
        Step::Give(7, 2),
    ],
    [Step::Fail(5, INTERRUPTED, 65), Step::Give(5, 4), END],
    [Step::Give(6, 4), END, END],
];

#[test]
fn a_read_that_fails_is_counted_once(rt: HostRuntime) {
    for steps in FAILED_READS.iter() {
        holds(&rt, reads(&rt, *steps, None, [0; 4]), "a read that fails");
    }
}

/// What a write of four bytes at place 5 has written where the file does these steps: all, or so many with a fault.
fn writes(rt: &HostRuntime, steps: [Step; 3], failed: Option<usize>) -> bool {
    works_on(rt, Scripted { steps, ..PLAIN }, Job::Write(failed))
}

const WRITES: [[Step; 3]; 3] = [
    [Step::Take(5, 4), END, END],
    [Step::Take(5, 1), Step::Take(6, 2), Step::Take(8, 1)],
    [
        Step::Fail(5, INTERRUPTED, 64),
        Step::Take(5, 3),
        Step::Take(8, 9),
    ],
];

#[test]
fn a_write_goes_on_until_all_is_taken(rt: HostRuntime) {
    for steps in WRITES.iter() {
        holds(&rt, writes(&rt, *steps, None), "a write");
    }
}

const FAILED_WRITES: [([Step; 3], usize); 4] = [
    ([END, Step::Take(5, 4), END], 0),
    ([Step::Take(5, 3), END, Step::Take(8, 1)], 3),
    (
        [
            Step::Take(5, 2),
            Step::Fail(7, ErrorKind::StorageFull, 1),
            Step::Take(7, 2),
        ],
        2,
    ),
    ([Step::Fail(5, INTERRUPTED, 65), Step::Take(5, 4), END], 0),
];

#[test]
fn a_write_that_fails_says_how_much_was_taken(rt: HostRuntime) {
    for row in FAILED_WRITES.iter() {
        holds(&rt, writes(&rt, row.0, Some(row.1)), "a write that fails");
    }
}

fn are_lengths_counted(rt: &HostRuntime) -> bool {
    let system = Scripted {
        length: None,
        steps: [Step::Take(9, 0), Step::Fail(8, ErrorKind::Other, 1), END],
        ..PLAIN
    };
    works_on(rt, system, Job::Resize)
}

#[test]
fn a_length_that_is_not_told_or_not_set_is_counted(rt: HostRuntime) {
    holds(&rt, are_lengths_counted(&rt), "lengths");
}
