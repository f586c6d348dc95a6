ghost use Rattle.std.specs.Prelude.{◌≡◌, ◌≤◌, ◌<◌, [], IsTrue, is_some};
ghost use Rattle.unit_trait.specs.Kinds.{code_of, units_of};
ghost use Rattle.event_queue.specs.EventList.{activated};
ghost use Rattle.unit_list.specs.Bus.{unit_at};
ghost use Rattle.nova_machine.specs.Registers.{with_cpu};
ghost use Rattle.nova_machine.specs.Run.{last_time};

use crate::machine::Machine;
use nova_word::Word;
use unit_trait::{Unit, UnitName};

impl<U: Unit> Machine<U> {
    /// Sets AC0 to AC3.
    pub fn set_accumulators(&mut self, words: [Word; 4])
        ensures { self.new ≡ with_cpu self.old (record self.old.processor.cpu { accumulators = words }) }
    {
        self.processor.cpu.accumulators = words;
    }

    /// Sets how many instructions were executed since the session began, at most 2^60, and how many of the timed keys
    /// were taken. Each event that waits stays as far ahead as it was.
    pub fn set_clock(&mut self, time: u64, taken: u64)
        requires { time ≤ last_time }
        ensures { self.new ≡ record self.old { time = time; taken = taken } }
    {
        self.time = time;
        self.taken = taken;
    }

    /// Takes out all events, so that none waits.
    pub fn clear_events(&mut self)
        ensures { self.new ≡ record self.old { events = [] } }
    {
        self.events.clear();
    }

    /// Asks for an event of a unit after so many instructions, behind those that are due no later. Nothing changes for
    /// a unit that waits already.
    pub fn activate(&mut self, unit: UnitName, remaining: u32)
        requires number { unit.unit < units_of unit.kind }
        requires there { IsTrue (is_some (unit_at (code_of unit.kind) self.old.units)) }
        ensures { self.new ≡ record self.old { events = activated unit remaining self.old.events } }
    {
        self.events.activate(unit, remaining);
    }
}
