ghost use Rattle.std.specs.Prelude.{◌≡◌, None, Some, OnOk, IfErr};
ghost use Rattle.scp_examine.specs.Effect.{deposited, fault_of_deposit};

use crate::check::deposits_fault;
use crate::fault::ExamineFault;
use crate::fill::fill_items;
use nova_machine::Machine;
use operand_forms::Listing;
use unit_trait::Unit;

/// DEPOSIT: puts a value into each place of a list, in order (SIMH Users' Guide, "Examining and Changing State").
///
/// A list with a fault changes nothing: the first one is answered, from the left. That of an item is first that of what
/// it names, and then that of the value for its places: `ReadOnlyName` at `Size`, whatever the value is, and
/// `OutOfRange` where the value is above the largest of a place, or below its least, which is 1 at the TIME of a device
/// and else 0. It takes no time and no memory, it looks at no condition, and no event of a unit comes or goes.
#[tactic(auto, unfolding(crate::specs::Effect::fault_of_deposit, crate::specs::Effect::deposited))]
pub fn deposit<U: Unit>(
    machine: &mut Machine<U>,
    what: &Listing,
    value: u32,
) -> Result<(), ExamineFault>
    ensures done { OnOk result
        ((fault_of_deposit machine.old what.now value ≡ None) × (machine.new ≡ deposited machine.old what.now value)) }
    ensures refused { IfErr result
        (λ fault. (fault_of_deposit machine.old what.now value ≡ Some fault) × (machine.new ≡ machine.old)) }
{
    let items = what.items.as_slice();
    match deposits_fault(machine, what.device, value, items) {
        Some(fault) => Err(fault),
        None => {
            fill_items(machine, what.device, items, value);
            Ok(())
        }
    }
}
