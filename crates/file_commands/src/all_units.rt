ghost use Rattle.std.specs.Prelude.{◌≡◌, ◌+◌, ◌≤◌, List, All, IsTrue, IfErr, IsOk, OnErr, length, vec_len, vec_capacity};
ghost use Rattle.file_traits.specs.State.{Opened};
ghost use Rattle.unit_files.specs.Attachments.{takes_attachment, is_disk};
ghost use Rattle.unit_files.specs.InStep.{InStep};
ghost use Rattle.unit_files.specs.Open.{AllOpen, Around};
ghost use Rattle.file_commands.specs.OwnFiles.{AreOwn};
ghost use Rattle.file_commands.specs.AllUnits.{AreApart, AreNoDisk, IsDiskFirst, attachable, Empties, IsUnwritten, keeper, filed_of, flush_fault};

use crate::FaultNote;
use crate::one_unit::detach_unit;
use crate::stamp::Stamp;
use file_traits::Files;
use unit_files::{Attached, DetachFault, UnitFault};
use unit_trait::{Kind, UnitName};

/// The units whose files are attached, in bus order.
pub const ATTACHABLE: [UnitName; 12] = [
    UnitName {
        kind: Kind::Dsk,
        unit: 0,
    },
    UnitName {
        kind: Kind::Mta,
        unit: 0,
    },
    UnitName {
        kind: Kind::Mta,
        unit: 1,
    },
    UnitName {
        kind: Kind::Mta,
        unit: 2,
    },
    UnitName {
        kind: Kind::Mta,
        unit: 3,
    },
    UnitName {
        kind: Kind::Mta,
        unit: 4,
    },
    UnitName {
        kind: Kind::Mta,
        unit: 5,
    },
    UnitName {
        kind: Kind::Mta,
        unit: 6,
    },
    UnitName {
        kind: Kind::Mta,
        unit: 7,
    },
    UnitName {
        kind: Kind::Lpt,
        unit: 0,
    },
    UnitName {
        kind: Kind::Ptr,
        unit: 0,
    },
    UnitName {
        kind: Kind::Ptp,
        unit: 0,
    },
];

/// Takes the files of all units away, one behind another, in bus order. What the disk holds is written back first;
/// where that fails, it is noted and answered, and all units keep their files. A closing that fails is noted, and the
/// others follow.
pub fn detach_all<F: Files>(
    attached: &mut Attached,
    files: &mut F,
    notes: &mut Vec<FaultNote>,
    stamp: Stamp,
) -> Result<(), UnitFault>
    requires open { AllOpen attached.old.slots (F.state files.old).opened }
    requires room { vec_len notes.old + 12 ≤ vec_capacity notes.old }
    ensures empties { Empties (InStep attached.old (F.state files.old).files) stamp.command stamp.time attachable (filed_of attached.old (F.state files.old).files)
        (filed_of attached.new (F.state files.new).files) (keeper result) notes.old.items notes.new.items
        (F.state files.old) (F.state files.new) }
    ensures step { InStep attached.old (F.state files.old).files → InStep attached.new (F.state files.new).files }
    ensures refused { OnErr result (attached.new ≡ attached.old) }
    ensures disk { IfErr result (λ f. IsTrue (is_disk f.unit.kind)) }
    ensures cause { OnErr result (IsUnwritten attached.new.slots notes.new.items (F.state files.old) (F.state files.new)) }
    ensures whose { AreOwn attached.old.slots attached.new.slots notes.old.items notes.new.items (F.state files.old)
        (F.state files.new) }
    ensures capacity { vec_capacity notes.old ≤ vec_capacity notes.new }
    ensures open { AllOpen attached.new.slots (F.state files.new).opened }
    ensures around { (base : List Opened) → Around attached.old.slots base (F.state files.old).opened
        → Around attached.new.slots base (F.state files.new).opened }
{
    detach_each(attached, &ATTACHABLE, files, notes, stamp)
}

/// Takes the files of these units away, one behind another, up to one that could not be written back. A closing that
/// fails is noted, and the others follow.
fn detach_each<F: Files>(
    attached: &mut Attached,
    units: &[UnitName],
    files: &mut F,
    notes: &mut Vec<FaultNote>,
    stamp: Stamp,
) -> Result<(), UnitFault>
    requires units { All (λ (u : UnitName). IsTrue (takes_attachment u)) units.now }
    requires apart { AreApart units.now }
    requires first { IsDiskFirst units.now }
    requires open { AllOpen attached.old.slots (F.state files.old).opened }
    requires room { vec_len notes.old + length units.now ≤ vec_capacity notes.old }
    ensures empties { Empties (InStep attached.old (F.state files.old).files) stamp.command stamp.time units.now (filed_of attached.old (F.state files.old).files)
        (filed_of attached.new (F.state files.new).files) (keeper result) notes.old.items notes.new.items
        (F.state files.old) (F.state files.new) }
    ensures never { AreNoDisk units.now → IsOk result }
    ensures step { InStep attached.old (F.state files.old).files → InStep attached.new (F.state files.new).files }
    ensures refused { OnErr result (attached.new ≡ attached.old) }
    ensures disk { IfErr result (λ f. IsTrue (is_disk f.unit.kind)) }
    ensures cause { OnErr result (IsUnwritten attached.new.slots notes.new.items (F.state files.old) (F.state files.new)) }
    ensures whose { AreOwn attached.old.slots attached.new.slots notes.old.items notes.new.items (F.state files.old)
        (F.state files.new) }
    ensures capacity { vec_capacity notes.old ≤ vec_capacity notes.new }
    ensures open { AllOpen attached.new.slots (F.state files.new).opened }
    ensures around { (base : List Opened) → Around attached.old.slots base (F.state files.old).opened
        → Around attached.new.slots base (F.state files.new).opened }
{
    match units.split_first() {
        None => Ok(()),
        Some((unit, others)) => {
            let result = detach_unit(attached, *unit, files, notes, stamp);
            match flush_fault(result) {
                Some(fault) => Err(fault),
                None => detach_each(attached, others, files, notes, stamp),
            }
        }
    }
}

// The write for which a unit has kept its file.
fn flush_fault(said: Result<Option<UnitFault>, DetachFault>) -> Option<UnitFault>
    ensures { result ≡ flush_fault said }
{
    match said {
        Err(DetachFault::Failed(fault)) => Some(fault),
        Ok(_) | Err(DetachFault::NotAttached) => None,
    }
}
