// A saved session is put back.
ghost use Rattle.std.specs.Prelude.{◌≡◌, ℕ, IsTrue, OnOk, OnErr, IfErr, Bool, true, false, List, length};
ghost use Rattle.unit_files.specs.Attachments.{attachments_of, attachment_at, no_attachments};
ghost use Rattle.unit_files.specs.Buffer.{nothing_attached, disk_unit};
ghost use Rattle.unit_files.specs.Causes.{AreFrom, OnlyNewCounts};
ghost use Rattle.unit_files.specs.InStep.{InStep};
ghost use Rattle.unit_files.specs.Open.{AllOpen, Around};
ghost use Rattle.terminal_ports.specs.Rows.{with_ports};
ghost use Rattle.nova_machine.specs.Machine.{attached_files, with_attached_files};
ghost use Rattle.nova_machine.specs.Seen.{beside, erased};
ghost use Rattle.state_transfer.specs.Listening.{IsPortFault, LeavesLines};
ghost use Rattle.state_transfer.specs.Ports.{assigned, ports_wanted};
ghost use Rattle.saved_session.specs.Parts.{state_in};
ghost use Rattle.state_transfer.specs.PutBack.{misses_unit, machine_from};
ghost use Rattle.saved_session.specs.SavedWatch.{watch_from};
ghost use Rattle.state_transfer.specs.Putting.{IsPutBack, SaysMissing, with_machine_of};
ghost use Rattle.saved_files.specs.PuttingCauses.{ClosesOnce, IsCompared, OpensEach, SessionCause};
ghost use Rattle.saved_files.specs.Putting.{claim_in, copy_of, first_refused, with_all, IsOfSession, SaysFirst};
ghost use Rattle.state_transfer.specs.SavedValid.{AreStandard};
ghost use Rattle.saved_session.specs.Valid.{IsMachine, AreFiles, ArePorts, Valid};

use crate::putting::put_machine;
use crate::putting_ports::put_ports;
use expect_actions::Watch;
use file_traits::Files;
use host_lines::Lines;
use nova_machine::Machine;
use saved_files::{RestoreFault, attach_all, give_back_all};
use saved_session::{Saved, watch_from};
use std::alloc::Global;
use unit_trait::{Kind, Unit};

/// Attaches the files of a saved session, and then listens on its ports: all that the outside can refuse. A refusal
/// leaves the machine as it was, and closes what was opened; a closing that fails is told by the count of its file
/// alone.
pub fn put_outside<U: Unit, F: Files, L: Lines>(
    alloc: Global,
    saved: &Saved,
    force: bool,
    machine: &mut Machine<U>,
    files: &mut F,
    lines: &mut L,
) -> Result<(), RestoreFault>
    requires valid { AreFiles (state_in saved.now).files }
    requires range { (listed : Bool) × ArePorts listed saved.now.ports }
    requires nothing { attached_files machine.old ≡ nothing_attached }
    ensures found { SaysMissing result false }
    ensures told { IsTrue F.tells → SaysFirst result (first_refused (claim_in result) force (state_in saved.now).files
        no_attachments (F.state files.old).files) }
    ensures these { IfErr result (IsOfSession (state_in saved.now).files) }
    ensures machine { OnOk result (machine.new ≡ record (with_attached_files machine.old (attached_files machine.new)) {
      lines = with_ports (assigned saved.now.ports machine.old.lines) machine.old.lines;
    }) }
    ensures attached { OnOk result (attachments_of machine.new.slots ≡ with_all no_attachments (state_in saved.now).files) }
    ensures copy { IsTrue F.tells → OnOk result (machine.new.disk
        ≡ copy_of (attachment_at (with_all no_attachments (state_in saved.now).files) disk_unit) (F.state files.old).files) }
    ensures step { IsTrue F.tells → OnOk result (InStep (attached_files machine.new) (F.state files.new).files) }
    ensures refused { OnErr result (machine.new ≡ machine.old) }
    ensures closed { OnErr result ((F.state files.new).opened ≡ (F.state files.old).opened) }
    ensures files { IsTrue F.tells → (F.state files.new).files ≡ (F.state files.old).files }
    ensures open { AllOpen machine.new.slots (F.state files.new).opened }
    ensures around { Around machine.new.slots (F.state files.old).opened (F.state files.new).opened }
    ensures from { AreFrom machine.old.slots machine.new.slots (F.state files.old) (F.state files.new) }
    ensures counts { OnlyNewCounts (F.state files.old) (F.state files.new) }
    ensures cause { SessionCause F.tells result (F.state files.old) (F.state files.new) }
    ensures exact { OpensEach F.tells (length (state_in saved.now).files) result (F.state files.old) (F.state files.new) }
    ensures once { ClosesOnce result (F.state files.old) (F.state files.new) }
    ensures compared { IsCompared force result }
    ensures unasked { IfErr result (λ fault. (IsPortFault fault → ⊥) → lines.new ≡ lines.old) }
    ensures lines { LeavesLines L.tells (ports_wanted saved.now.ports machine.old.lines) result
        (L.state lines.old) (L.state lines.new) }
{
    attach_all(
        alloc,
        &saved.attachments,
        force,
        machine.attached_mut(),
        files,
    )?;
    match put_ports(alloc, machine, saved.ports, lines) {
        Ok(()) => Ok(()),
        Err(fault) => {
            give_back_all(&saved.attachments, machine.attached_mut(), files);
            Err(fault)
        }
    }
}

// Whether a saved session has a unit that the machine lacks.
fn lacks_unit<U: Unit>(saved: &Saved, machine: &Machine<U>) -> bool
    requires { IsMachine (state_in saved.now).machine }
    ensures { result ≡ misses_unit (state_in saved.now).machine machine.now.units }
{
    saved.units.as_slice().len() == 11 && !machine.has_unit(Kind::Qty)
}

/// Puts a saved session back into a machine of the ten standard kinds, or of these and the multiplexer, to which
/// nothing is attached, and into its watch tables. `MissingUnit` comes first, exactly where the session has the
/// multiplexer and the machine has not. Then the tables are built aside; then each file is attached in bus order, only
/// to be read where it was and else to be changed, and, unless that is forced, compared in length and digest before the
/// next; then the ports of the second teletype, of the multiplexer and of the console are listened on. The refusals
/// come in this order, `OutOfMemory` in front of each but the first. Where the machine alone has the multiplexer, this
/// is as it is at first, and has no event. Behind a refusal the machine and the tables are as they were, and each file
/// that was opened is closed; a closing that fails is told by the count of its file alone.
#[tactic(auto, using(saved_files::proofs::PuttingOpenings::opens_nothing))]
pub fn set_state<U: Unit, F: Files, L: Lines>(
    alloc: Global,
    saved: &Saved,
    force: bool,
    machine: &mut Machine<U>,
    watch: &mut Watch,
    files: &mut F,
    lines: &mut L,
) -> Result<(), RestoreFault>
    requires valid { Valid (state_in saved.now) }
    requires standard { AreStandard machine.old.units }
    requires nothing { attached_files machine.old ≡ nothing_attached }
    ensures missing { SaysMissing result (misses_unit (state_in saved.now).machine machine.old.units) }
    ensures untouched { misses_unit (state_in saved.now).machine machine.old.units ≡ true → files.new ≡ files.old }
    ensures told { IsTrue F.tells → SaysFirst result (first_refused (claim_in result) force (state_in saved.now).files
        no_attachments (F.state files.old).files) }
    ensures these { IfErr result (IsOfSession (state_in saved.now).files) }
    ensures machine { IsTrue F.tells → OnOk result (erased machine.new ≡ machine_from (state_in saved.now).machine
        machine.old.units (with_all no_attachments (state_in saved.now).files) (F.state files.old).files) }
    ensures back { IsTrue F.tells → (keys : List (ℕ × ℕ)) → OnOk result (IsPutBack (state_in saved.now)
        (beside watch.old keys (F.state files.old).files (L.state lines.old)) machine.old
        (beside watch.new keys (F.state files.new).files (L.state lines.new)) machine.new) }
    ensures rest { OnOk result (machine.new ≡ record (with_machine_of machine.old (state_in saved.now).machine) {
      slots = machine.new.slots;
      disk = machine.new.disk;
      aside = machine.new.aside;
      lines = machine.new.lines;
    }) }
    ensures attached { OnOk result (attachments_of machine.new.slots ≡ with_all no_attachments (state_in saved.now).files) }
    ensures step { IsTrue F.tells → OnOk result (InStep (attached_files machine.new) (F.state files.new).files) }
    ensures standard { AreStandard machine.new.units }
    ensures ports { OnOk result (machine.new.lines ≡ with_ports (assigned saved.now.ports machine.old.lines) machine.old.lines) }
    ensures watch { OnOk result (watch.new ≡ watch_from (state_in saved.now).watch) }
    ensures refused { OnErr result (machine.new ≡ machine.old) }
    ensures unwatched { OnErr result (watch.new ≡ watch.old) }
    ensures closed { OnErr result ((F.state files.new).opened ≡ (F.state files.old).opened) }
    ensures files { IsTrue F.tells → (F.state files.new).files ≡ (F.state files.old).files }
    ensures open { AllOpen machine.new.slots (F.state files.new).opened }
    ensures around { Around machine.new.slots (F.state files.old).opened (F.state files.new).opened }
    ensures from { AreFrom machine.old.slots machine.new.slots (F.state files.old) (F.state files.new) }
    ensures counts { OnlyNewCounts (F.state files.old) (F.state files.new) }
    ensures cause { SessionCause F.tells result (F.state files.old) (F.state files.new) }
    ensures exact { OpensEach F.tells (length (state_in saved.now).files) result (F.state files.old) (F.state files.new) }
    ensures once { ClosesOnce result (F.state files.old) (F.state files.new) }
    ensures compared { IsCompared force result }
    ensures unasked { IfErr result (λ fault. (IsPortFault fault → ⊥) → lines.new ≡ lines.old) }
    ensures lines { LeavesLines L.tells (ports_wanted saved.now.ports machine.old.lines) result
        (L.state lines.old) (L.state lines.new) }
{
    if lacks_unit(saved, machine) {
        return Err(RestoreFault::MissingUnit);
    }
    let Ok(tables) = watch_from(alloc, saved) else {
        return Err(RestoreFault::OutOfMemory);
    };
    put_outside(alloc, saved, force, machine, files, lines)?;
    put_machine(machine, saved);
    *watch = tables;
    Ok(())
}
