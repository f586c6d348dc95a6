ghost use Rattle.std.specs.Prelude.{◌≡◌, IsTrue, OnErr, None};
ghost use Rattle.fault_counts.specs.Faults.{CountsFault};
ghost use Rattle.file_traits.specs.Streams.{Puts};
ghost use Rattle.scp_examine.specs.Effect.{ConsoleCause, Examines, FaultIs, examine_fault, examined};

use crate::check::{condition_fault, items_fault};
use crate::fault::ExamineFault;
use crate::show::show_items;
use file_traits::{Failed, Sink};
use nova_machine::Machine;
use operand_forms::Listing;
use unit_trait::Unit;

/// EXAMINE: prints a line for each place of a list, in order (SIMH Users' Guide, "Examining and Changing State").
///
/// The line of a word of memory is its address in five octal digits, a colon, a tab, and the word in six octal digits
/// or as symbolic text; that of a register, of the processor or of a device, is its name, a colon, a tab, and its value
/// with as many octal digits as its largest value has. A condition leaves out the words of memory that do not meet it,
/// and no register.
///
/// A list with a fault prints nothing: the first one is answered, that of the condition first and then those of the
/// items from the left. `Console` means that the console refused a byte: what comes before it was printed, and nothing
/// else. The machine is only read, and no memory is taken.
pub fn examine<U: Unit, S: Sink>(
    machine: &Machine<U>,
    what: &Listing,
    out: &mut S,
) -> Result<(), ExamineFault>
    ensures told { IsTrue S.tells → Examines machine.now what.now result (S.written out.old) (S.written out.new) }
    ensures faults { FaultIs (examine_fault machine.now what.now) result }
    ensures cause { ConsoleCause (S.fault_count out.old) (S.fault_count out.new) result }
{
    match first_fault(machine, what) {
        Some(fault) => Err(fault),
        None => show_listing(machine, what, out),
    }
}

// The first fault of a list: that of its condition, and then those of its items.
#[tactic(auto, unfolding(crate::specs::Effect::examine_fault))]
fn first_fault<U: Unit>(machine: &Machine<U>, what: &Listing) -> Option<ExamineFault>
    ensures { result ≡ examine_fault machine.now what.now }
{
    match condition_fault(what.condition) {
        Some(fault) => Some(fault),
        None => items_fault(machine, what.device, what.items.as_slice()),
    }
}

// Puts the lines of a list that has no fault.
#[tactic(auto, unfolding(crate::specs::Effect::examined, crate::specs::Effect::examine_fault))]
fn show_listing<U: Unit, S: Sink>(
    machine: &Machine<U>,
    what: &Listing,
    out: &mut S,
) -> Result<(), ExamineFault>
    requires { examine_fault machine.now what.now ≡ None }
    ensures told { IsTrue S.tells → Puts
        (S.written out.old)
        (examined machine.now what.now)
        result
        (S.written out.new) }
    ensures fault { OnErr result (result ≡ Err ExamineFault.Console) }
    ensures counts { CountsFault (S.fault_count out.old) (S.fault_count out.new) result }
{
    let items = what.items.as_slice();
    match show_items(
        machine,
        what.symbolic,
        what.condition,
        what.device,
        items,
        out,
    ) {
        Ok(()) => Ok(()),
        Err(Failed) => Err(ExamineFault::Console),
    }
}
