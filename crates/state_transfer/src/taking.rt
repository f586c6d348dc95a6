// A whole session is taken as a state file has it.
ghost use Rattle.std.specs.Prelude.{◌≡◌, ℕ, List, map, IsTrue, IfOk};
ghost use Rattle.host_lines.specs.Traffic.{Answer};
ghost use Rattle.host_lines.specs.State.{LineState};
ghost use Rattle.telnet_lines.specs.Joined.{seen_line};
ghost use Rattle.unit_files.specs.Open.{AllOpen};
ghost use Rattle.unit_files.specs.Buffer.{disk_unit};
ghost use Rattle.unit_files.specs.InStep.{InStep, marks_flushed};
ghost use Rattle.nova_machine.specs.Machine.{attached_files};
ghost use Rattle.nova_machine.specs.Seen.{beside, seen, attached_in};
ghost use Rattle.saved_session.specs.Parts.{state_in};
ghost use Rattle.saved_files.specs.Taking.{first_unsaved, disk_flushed, files_flushed, copy_flushed, save_claim, UnlessNoMemory, IfNoMemory, SaveCause};
ghost use Rattle.state_transfer.specs.SavedValid.{AreStandard};
ghost use Rattle.saved_session.specs.Valid.{Fits};
ghost use Rattle.state_transfer.specs.Session.{saved, saved_machine, saved_ports};
ghost use Rattle.saved_session.specs.SavedWatch.{saved_watch};

use crate::taking_machine::{taken_machine, taken_ports};
use expect_actions::Watch;
use file_traits::Files;
use nova_machine::Machine;
use saved_files::{SaveFault, digest_all};
use saved_session::{Saved, joined, taken_watch};
use std::alloc::{AllocError, Global};
use unit_trait::Unit;

/// What a state file has of a session: its machine, of the ten standard kinds of units or of these and the
/// multiplexer, its watch tables, the files that are attached, and the ports of its lines. What the disk holds of its
/// file is written back first, and then each file is read, in bus order. All memory is taken before that, so after
/// `OutOfMemory` all is as it was. After `Failed` of that write the disk's file is as it leaves it, and its copy is
/// still to be written back; after `Failed` of a length or a read the copy is written back. Nothing else of the session
/// changes. Whatever files tell, the answer has a text, which `write_state` writes.
pub fn take_state<U: Unit, F: Files>(
    alloc: Global,
    machine: &mut Machine<U>,
    watch: &Watch,
    files: &mut F,
) -> Result<Saved, SaveFault>
    requires units { AreStandard machine.old.units }
    requires open { AllOpen machine.old.slots (F.state files.old).opened }
    ensures told { IsTrue F.tells → IfOk result (λ v. (keys : List (ℕ × ℕ)) (lines : LineState) (whole : List Answer)
        → state_in v ≡ saved (seen (beside watch.now keys (F.state files.new).files lines) whole machine.new)) }
    ensures fits { IfOk result (λ v. Fits (state_in v)) }
    ensures machine_part { IfOk result (λ v. (state_in v).machine ≡ saved_machine machine.old) }
    ensures watch_part { IfOk result (λ v. (state_in v).watch ≡ saved_watch watch.now) }
    ensures ports_part { IfOk result (λ v. (lines : LineState)
        → (state_in v).ports ≡ saved_ports (map (seen_line lines) machine.old.lines)) }
    ensures first { IsTrue F.tells → InStep (attached_files machine.old) (F.state files.old).files
        → UnlessNoMemory result (first_unsaved (save_claim result) (attached_in machine.old) machine.old.disk
        (F.state files.old).files ≡ save_claim result) }
    ensures machine { UnlessNoMemory result (machine.new ≡ record machine.old {
      disk = copy_flushed (save_claim result) (attached_in machine.old) machine.old.disk;
      aside = marks_flushed (disk_flushed (save_claim result) (attached_in machine.old) machine.old.disk) disk_unit
          machine.old.aside;
    }) }
    ensures files { InStep (attached_files machine.old) (F.state files.old).files → UnlessNoMemory result
        ((F.state files.new).files ≡ files_flushed (save_claim result) (attached_in machine.old) machine.old.disk
        (F.state files.old).files) }
    ensures step { InStep (attached_files machine.old) (F.state files.old).files
        → InStep (attached_files machine.new) (F.state files.new).files }
    ensures no_memory { IfNoMemory result ((machine.new ≡ machine.old) × (F.state files.new ≡ F.state files.old)) }
    ensures slots { machine.new.slots ≡ machine.old.slots }
    ensures opened { (F.state files.new).opened ≡ (F.state files.old).opened }
    ensures cause { SaveCause result machine.old.slots (F.state files.old) (F.state files.new) }
{
    let parts = match taken_machine(alloc, machine) {
        Ok(parts) => parts,
        Err(AllocError) => return Err(SaveFault::OutOfMemory),
    };
    let tables = match taken_watch(alloc, watch) {
        Ok(tables) => tables,
        Err(AllocError) => return Err(SaveFault::OutOfMemory),
    };
    let ports = taken_ports(machine);
    match digest_all(alloc, machine.attached_mut(), files) {
        Ok(attachments) => Ok(joined(parts, attachments, ports, tables)),
        Err(fault) => Err(fault),
    }
}
