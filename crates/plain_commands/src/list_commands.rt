// EXAMINE and DEPOSIT.
ghost use Rattle.std.specs.Prelude.{◌≡◌, Bool, []};
ghost use Rattle.host_lines.specs.Told.{Heard};
ghost use Rattle.unit_list.specs.Bus.{kinds_of};
ghost use Rattle.nova_machine.specs.Machine.{attached_files};
ghost use Rattle.nova_machine.specs.Comes.{Output, output};
ghost use Rattle.command_session.specs.Live.{standing, live_in, Beyond};
ghost use Rattle.plain_commands.specs.ListEffects.{lacks_device, examine_reply, handed, deposit_reply};
ghost use Rattle.command_session.specs.Doing.{Does, ConsoleCounts, IsShown, IsPlain, IsExitAnswer, IsRefused};

use crate::list_faults::fault_of_list;
use command_session::{CommandFault, Next, Session};
use file_traits::Sink;
use nova_machine::Machine;
use scp_examine::{deposit, examine};
use scp_parser::{Listing, Name};
use unit_trait::Unit;

/// EXAMINE prints its list.
#[tactic(auto, unfolding(crate::specs::ListEffects::examine_reply))]
pub fn examine_list<U: Unit, S: Sink>(
    session: &Session<U>,
    listing: &Listing,
    out: &mut S,
) -> Result<Next, CommandFault>
    ensures told { (files : Beyond) (heard : Heard)
        → Does (examine_reply (live_in session.now files) listing.now) result (standing 0 (live_in session.now files))
        S.tells (output (S.written out.old) heard) (output (S.written out.new) heard) }
    ensures counts { ConsoleCounts result (S.fault_count out.old) (S.fault_count out.new) }
    ensures own { IsShown result }
    ensures exit { IsExitAnswer result }
{
    if lacks_device(&session.machine, listing.device) {
        return Err(CommandFault::NoSuchName);
    }
    match examine(&session.machine, listing, out) {
        Ok(()) => Ok(Next::Go),
        Err(fault) => Err(fault_of_list(fault)),
    }
}

/// DEPOSIT puts its value into its list. It prints nothing.
pub fn deposit_list<U: Unit>(
    session: &mut Session<U>,
    listing: &Listing,
    value: u64,
) -> Result<Next, CommandFault>
    ensures refused { IsRefused result
        → (session.new.machine ≡ session.old.machine) × (session.new.watch ≡ session.old.watch) }
    ensures told { (files : Beyond) (tells : Bool) (text : Output)
        → Does (deposit_reply (live_in session.old files) listing.now value) result
        (standing 0 (live_in session.new files)) tells text text }
    ensures own { IsPlain result }
    ensures exit { IsExitAnswer result }
    ensures rest { session.new ≡ record session.old { machine = session.new.machine } }
    ensures kinds { kinds_of session.new.machine.units ≡ kinds_of session.old.machine.units }
    ensures attached { attached_files session.new.machine ≡ attached_files session.old.machine }
    ensures time { session.new.machine.time ≡ session.old.machine.time }
    ensures terminals { session.new.machine.lines ≡ session.old.machine.lines }
{
    fill_list(session, listing, value)
}

#[tactic(auto, unfolding(crate::specs::ListEffects::deposit_reply))]
fn fill_list<U: Unit>(
    session: &mut Session<U>,
    listing: &Listing,
    value: u64,
) -> Result<Next, CommandFault>
    ensures answer { (files : Beyond)
        → result ≡ (deposit_reply (live_in session.old files) listing.now value).answer }
    ensures after { (files : Beyond) → standing 0 (live_in session.new files)
        ≡ (deposit_reply (live_in session.old files) listing.now value).after }
    ensures exit { IsExitAnswer result }
    ensures refused { IsRefused result
        → (session.new.machine ≡ session.old.machine) × (session.new.watch ≡ session.old.watch) }
    ensures silent { (files : Beyond)
        → (deposit_reply (live_in session.old files) listing.now value).made ≡ [] }
    ensures rest { session.new ≡ record session.old { machine = session.new.machine } }
    ensures kinds { kinds_of session.new.machine.units ≡ kinds_of session.old.machine.units }
    ensures attached { attached_files session.new.machine ≡ attached_files session.old.machine }
    ensures time { session.new.machine.time ≡ session.old.machine.time }
    ensures terminals { session.new.machine.lines ≡ session.old.machine.lines }
{
    if lacks_device(&session.machine, listing.device) {
        return Err(CommandFault::NoSuchName);
    }
    match deposit(&mut session.machine, listing, handed(value)) {
        Ok(()) => Ok(Next::Go),
        Err(fault) => Err(fault_of_list(fault)),
    }
}

/// Whether a list or a test is of the registers of a device that the machine has no unit of.
pub fn lacks_device<U: Unit>(machine: &Machine<U>, name: Name) -> bool
    ensures { result ≡ lacks_device machine.now name }
{
    match name {
        Name::Cpu => false,
        Name::Device(kind) => !machine.has_unit(kind),
    }
}

// A value as it is handed on: in 32 bits.
fn handed(value: u64) -> u32
    ensures { result ≡ handed value }
{
    value.min(u64::from(u32::MAX)) as u32
}
