// The files of units as they are saved.
ghost use Rattle.std.specs.Prelude.{◌≡◌, ◌≤◌, ◌++◌, IsTrue, OnOk, IfOk, IfErr, length, map};
ghost use Rattle.std.specs.List.{AllByRecursion};
ghost use Rattle.unit_files.specs.Acts.{flush_said, flush_files, buffer_flushed};
ghost use Rattle.unit_files.specs.Attachments.{attachments_of, attachment_at, file_units};
ghost use Rattle.unit_files.specs.Buffer.{disk_unit};
ghost use Rattle.unit_files.specs.InStep.{InStep, marks_flushed};
ghost use Rattle.unit_files.specs.Digests.{IsReadingCall};
ghost use Rattle.unit_files.specs.Open.{AllOpen};
ghost use Rattle.saved_session.specs.Parts.{file_in};
ghost use Rattle.saved_files.specs.Putting.{files_in, unit_of, IsUnitOf};
ghost use Rattle.saved_files.specs.PuttingOne.{AreApart};
ghost use Rattle.saved_files.specs.Taking.{unit_at, file_places, saved_files, first_unsaved, files_flushed};
ghost use Rattle.saved_files.specs.Taking.{disk_flushed, copy_flushed, save_claim, UnlessNoMemory, IfNoMemory, SaveCause};
ghost use Rattle.saved_files.specs.TakingOne.{unread_at, unread_files, AreNamed, names_of, CanDigest, Digests};
ghost use Rattle.saved_files.specs.TakingOne.{UnitCause, failure_of_write, FlushSays, DigestsOne};

use crate::file_faults::SaveFault;
use crate::putting::unit_of;
use crate::unit_digest::digest_unit;
use file_traits::Files;
use saved_session::{SavedFile, kind_at};
use std::alloc::{AllocError, Global};
use unit_files::{Attached, DetachFault, UnitFault};
use unit_trait::{Kind, UnitName};

/// Where a unit is: the position of its kind in bus order, and its number.
#[derive(Clone, Copy)]
pub struct UnitPlace {
    pub position: u8,
    pub unit: u8,
}

/// The places of the units that can have a file, in bus order.
const FILE_PLACES: [UnitPlace; 12] = [
    UnitPlace {
        position: 0,
        unit: 0,
    },
    UnitPlace {
        position: 1,
        unit: 0,
    },
    UnitPlace {
        position: 1,
        unit: 1,
    },
    UnitPlace {
        position: 1,
        unit: 2,
    },
    UnitPlace {
        position: 1,
        unit: 3,
    },
    UnitPlace {
        position: 1,
        unit: 4,
    },
    UnitPlace {
        position: 1,
        unit: 5,
    },
    UnitPlace {
        position: 1,
        unit: 6,
    },
    UnitPlace {
        position: 1,
        unit: 7,
    },
    UnitPlace {
        position: 2,
        unit: 0,
    },
    UnitPlace {
        position: 3,
        unit: 0,
    },
    UnitPlace {
        position: 4,
        unit: 0,
    },
];

/// The disk.
const DISK: UnitName = UnitName {
    kind: Kind::Dsk,
    unit: 0,
};

// The unit at a place.
fn unit_at(place: UnitPlace) -> UnitName
    ensures { result ≡ unit_at place }
{
    UnitName {
        kind: kind_at(place.position),
        unit: place.unit,
    }
}

// Adds the file of the unit at a place, if it has one, with its name and not yet read.
fn add_unread(
    alloc: Global,
    attached: &Attached,
    place: UnitPlace,
    found: &mut Vec<SavedFile>,
) -> Result<(), AllocError>
    ensures added { OnOk result (files_in found.new.items ≡ files_in found.old.items
        ++ unread_at place (attachment_at (attachments_of attached.now.slots) (unit_at place))) }
    ensures named { AreNamed (files_in found.old.items) → OnOk result (AreNamed (files_in found.new.items)) }
{
    let unit = unit_at(place);
    match attached.name_of(unit) {
        None => Ok(()),
        Some(name) => {
            let name = String::from_str(alloc, name)?;
            found.push(SavedFile {
                position: place.position,
                unit: place.unit,
                read_only: u8::from(attached.is_read_only(unit)),
                name,
                length: 0,
                digest: [0; 32],
            })?;
            Ok(())
        }
    }
}

// The files of the units at these places that have one, with their names and not yet read.
fn unread_files(
    alloc: Global,
    attached: &Attached,
    places: &[UnitPlace],
) -> Result<Vec<SavedFile>, AllocError>
    ensures files { IfOk result (λ v. files_in v.items ≡ unread_files (attachments_of attached.now.slots) places.now) }
    ensures named { IfOk result (λ v. AreNamed (files_in v.items)) }
{
    let mut found = Vec::new(alloc);
    for place in places {
        add_unread(alloc, attached, *place, &mut found)?;
    }
    Ok(found)
}

// Those of all units.
#[tactic(auto, unfolding(crate::specs::Taking::file_places))]
fn all_unread(alloc: Global, attached: &Attached) -> Result<Vec<SavedFile>, AllocError>
    ensures files { IfOk result (λ v. files_in v.items ≡ unread_files (attachments_of attached.now.slots) file_places) }
    ensures named { IfOk result (λ v. AreNamed (files_in v.items)) }
{
    unread_files(alloc, attached, &FILE_PLACES)
}

// Writes back what the disk holds of its file, if it has one.
fn write_back<F: Files>(attached: &mut Attached, files: &mut F) -> Result<(), UnitFault>
    requires open { AllOpen attached.old.slots (F.state files.old).opened }
    ensures said { FlushSays result (attachment_at (attachments_of attached.old.slots) disk_unit) attached.old.disk }
    ensures slots { attached.new.slots ≡ attached.old.slots }
    ensures disk { attached.new.disk ≡ buffer_flushed (flush_said (failure_of_write result) disk_unit
        (attachment_at (attachments_of attached.old.slots) disk_unit) attached.old.disk) disk_unit attached.old.disk }
    ensures marks { attached.new.aside ≡ marks_flushed (flush_said (failure_of_write result) disk_unit
        (attachment_at (attachments_of attached.old.slots) disk_unit) attached.old.disk) disk_unit attached.old.aside }
    ensures files { InStep attached.old (F.state files.old).files → (F.state files.new).files
        ≡ flush_files (failure_of_write result) disk_unit (attachment_at (attachments_of attached.old.slots) disk_unit)
        attached.old.disk (F.state files.old).files }
    ensures step { InStep attached.old (F.state files.old).files → InStep attached.new (F.state files.new).files }
    ensures opened { (F.state files.new).opened ≡ (F.state files.old).opened }
    ensures cause { UnitCause result attached.old.slots (F.state files.old) (F.state files.new) }
{
    match attached.flush(DISK, files) {
        Ok(()) => Ok(()),
        Err(DetachFault::NotAttached) => Ok(()),
        Err(DetachFault::Failed(fault)) => Err(fault),
    }
}

// Reads the file of a unit: its length and its digest.
fn digest_one<F: Files>(
    file: &mut SavedFile,
    attached: &mut Attached,
    files: &mut F,
) -> Result<(), UnitFault>
    requires can { CanDigest attached.old (file_in file.old) }
    requires open { AllOpen attached.old.slots (F.state files.old).opened }
    ensures told { IsTrue F.tells → DigestsOne (F.state files.old).files (file_in file.old) result (file_in file.new) }
    ensures name { (file_in file.new).name ≡ (file_in file.old).name }
    ensures unit { IfErr result (λ f. f.unit ≡ unit_of (file_in file.old)) }
    ensures calls { IfErr result IsReadingCall }
    ensures kept { attached.new ≡ attached.old }
    ensures files { (F.state files.new).files ≡ (F.state files.old).files }
    ensures opened { (F.state files.new).opened ≡ (F.state files.old).opened }
    ensures cause { UnitCause result attached.old.slots (F.state files.old) (F.state files.new) }
{
    match digest_unit(attached, unit_of(file), files) {
        Ok(found) => {
            let digest = found.digest;
            file.length = found.length;
            file.digest = digest;
            Ok(())
        }
        Err(fault) => Err(fault),
    }
}

// Reads the files of these units, one behind another.
fn digest_each<F: Files>(
    saved: &mut [SavedFile],
    attached: &mut Attached,
    files: &mut F,
) -> Result<(), UnitFault>
    requires can { AllByRecursion (CanDigest attached.old) (files_in saved.old) }
    requires apart { AreApart (files_in saved.old) }
    requires open { AllOpen attached.old.slots (F.state files.old).opened }
    ensures told { IsTrue F.tells → Digests (F.state files.old).files (files_in saved.old) result (files_in saved.new) }
    ensures names { names_of (files_in saved.new) ≡ names_of (files_in saved.old) }
    ensures these { IfErr result (λ f. IsUnitOf (files_in saved.old) f.unit) }
    ensures calls { IfErr result IsReadingCall }
    ensures kept { attached.new ≡ attached.old }
    ensures files { (F.state files.new).files ≡ (F.state files.old).files }
    ensures opened { (F.state files.new).opened ≡ (F.state files.old).opened }
    ensures cause { UnitCause result attached.old.slots (F.state files.old) (F.state files.new) }
{
    match saved.split_first_mut() {
        None => Ok(()),
        Some((first, others)) => match digest_one(first, attached, files) {
            Ok(()) => digest_each(others, attached, files),
            Err(fault) => Err(fault),
        },
    }
}

/// What is saved of the files that are attached, in bus order: their names, lengths and digests. They are 12 at the
/// most, with names of 1 to 255 bytes. What the disk holds of its file is written back first, as `flush` does it; then
/// each file is read. All memory is taken before that, so after `OutOfMemory` all is as it was. After `Failed` of that
/// write the disk's file is as `flush` leaves it, and its copy is still to be written back; after `Failed` of a length
/// or a read the copy is written back. The units keep their files.
pub fn digest_all<F: Files>(
    alloc: Global,
    attached: &mut Attached,
    files: &mut F,
) -> Result<Vec<SavedFile>, SaveFault>
    requires open { AllOpen attached.old.slots (F.state files.old).opened }
    ensures told { IsTrue F.tells → IfOk result (λ v. files_in v.items
        ≡ saved_files (F.state files.new).files (attachments_of attached.old.slots) file_places) }
    ensures few { IfOk result (λ v. length (files_in v.items) ≤ file_units) }
    ensures named { IfOk result (λ v. AreNamed (files_in v.items)) }
    ensures first { IsTrue F.tells → InStep attached.old (F.state files.old).files → UnlessNoMemory result (first_unsaved (save_claim result)
        (attachments_of attached.old.slots) attached.old.disk (F.state files.old).files ≡ save_claim result) }
    ensures slots { attached.new.slots ≡ attached.old.slots }
    ensures disk { UnlessNoMemory result (attached.new.disk
        ≡ copy_flushed (save_claim result) (attachments_of attached.old.slots) attached.old.disk) }
    ensures marks { UnlessNoMemory result (attached.new.aside ≡ marks_flushed (disk_flushed (save_claim result)
        (attachments_of attached.old.slots) attached.old.disk) disk_unit attached.old.aside) }
    ensures files { InStep attached.old (F.state files.old).files → UnlessNoMemory result ((F.state files.new).files
        ≡ files_flushed (save_claim result) (attachments_of attached.old.slots) attached.old.disk
        (F.state files.old).files) }
    ensures step { InStep attached.old (F.state files.old).files → InStep attached.new (F.state files.new).files }
    ensures no_memory { IfNoMemory result ((attached.new ≡ attached.old) × (F.state files.new ≡ F.state files.old)) }
    ensures opened { (F.state files.new).opened ≡ (F.state files.old).opened }
    ensures cause { SaveCause result attached.old.slots (F.state files.old) (F.state files.new) }
{
    let mut saved = match all_unread(alloc, attached) {
        Ok(saved) => saved,
        Err(AllocError) => return Err(SaveFault::OutOfMemory),
    };
    match write_back(attached, files) {
        Ok(()) => {}
        Err(fault) => return Err(SaveFault::Failed(fault)),
    }
    match digest_each(saved.as_mut_slice(), attached, files) {
        Ok(()) => Ok(saved),
        Err(fault) => Err(SaveFault::Failed(fault)),
    }
}
