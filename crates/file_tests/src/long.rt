// The longest files that units take.
ghost use Rattle.std.specs.Prelude.{IsTrue};
ghost use Rattle.unit_files.specs.Attachments.{takes_attachment};

use crate::texts::{equal, holds};
use host_files::{Files, MemFiles, OpenMode};
use std::alloc::Global;
use std::process::Abort;
use unit_files::{AttachFault, AttachMode, Attached};
use unit_trait::{Kind, UnitName};

const READER: UnitName = UnitName {
    kind: Kind::Ptr,
    unit: 0,
};

const DRIVE: UnitName = UnitName {
    kind: Kind::Mta,
    unit: 7,
};

const DISK: UnitName = UnitName {
    kind: Kind::Dsk,
    unit: 0,
};

/// Makes a file of that many zero bytes, and answers whether it could.
fn makes<F: Files>(alloc: Global, length: u64, files: &mut F) -> bool {
    match files.open_file(alloc, "long", OpenMode::Create) {
        Ok(file) => files.set_length(file, length).is_ok() && files.close_file(file).is_ok(),
        Err(_) => false,
    }
}

/// What the attaching of the file answers, if there is memory for it.
fn attaches<F: Files>(
    rt: &impl Abort,
    alloc: Global,
    unit: UnitName,
    files: &mut F,
    wanted: Result<u64, AttachFault>,
) -> Option<()>
    requires { IsTrue (takes_attachment unit) }
{
    let mut attached = Attached::new(alloc).ok()?;
    let answer = attached.attach(alloc, unit, "long", AttachMode::Any, files);
    equal(rt, &answer, &wanted, "the length");
    let so = attached.file_of(unit).is_some() == wanted.is_ok();
    holds(rt, so, "the file");
    Some(())
}

/// What the attaching of a file of that length answers.
fn takes(
    rt: &impl Abort,
    alloc: Global,
    unit: UnitName,
    length: u64,
    wanted: Result<u64, AttachFault>,
)
    requires { IsTrue (takes_attachment unit) }
{
    match MemFiles::with_room(alloc, length) {
        Ok(mut files) => {
            holds(rt, makes(alloc, length, &mut files), "the file is made");
            let so = attaches(rt, alloc, unit, &mut files, wanted).is_some();
            holds(rt, so, "the memory");
        }
        Err(_) => holds(rt, false, "the memory"),
    }
}

#[test]
fn a_file_of_8_octal_digits_of_bytes_is_the_longest(rt: HostRuntime) {
    takes(&rt, rt.alloc(), READER, 16_777_216, Ok(16_777_216));
    takes(
        &rt,
        rt.alloc(),
        READER,
        16_777_217,
        Err(AttachFault::TooLong),
    );
    takes(&rt, rt.alloc(), DRIVE, 16_777_217, Ok(16_777_217));
}

#[test]
fn an_image_has_4_mebibytes_at_most(rt: HostRuntime) {
    takes(&rt, rt.alloc(), DISK, 4_194_304, Ok(4_194_304));
    takes(&rt, rt.alloc(), DISK, 4_194_305, Err(AttachFault::TooLong));
}
