ghost use Rattle.std.specs.Prelude.{◌≡◌, ◌≤◌, ◌<◌, ◌^◌, ◌↔◌, List, [], ◌∷◌, map, replicate, false, None, IfOk, IsOk, OnOk, OnErr};
ghost use Rattle.event_queue.specs.EventList.{due};
ghost use Rattle.unit_list.specs.Bus.{AllFit, kinds_of};
ghost use Rattle.unit_list.specs.Places.{places_in};
ghost use Rattle.unit_list.specs.Reset.{reset_units, reset_events};
ghost use Rattle.file_traits.specs.State.{Opened};
ghost use Rattle.unit_files.specs.Open.{AllOpen, Around};
ghost use Rattle.nova_interrupts.specs.Interrupts.{no_interrupts};
ghost use Rattle.nova_machine.specs.Core.{AreListed};
ghost use Rattle.telnet_lines.specs.Line.{unconnected};
ghost use Rattle.nova_machine.specs.Machine.{terminal_lines_for, line_count, HasItsLines};
ghost use Rattle.nova_machine.specs.Run.{last_time};

use event_queue::Events;
use nova_interrupts::Ints;
use nova_memory::Memory;
use nova_processor::Processor;
use nova_word::{Addr, Word};
use std::alloc::{AllocError, Global};
use std::marker::Model;
use telnet_lines::Line;
use unit_files::{Attached, UnitFault};
use unit_list::{Places, all_fit, has_unit, reset_all};
use unit_trait::{CpuReg, Kind, RegFault, Unit, UnitName, code_of};

/// Why a run ended.
#[derive(Clone, Copy, PartialEq, Eq)]
pub enum Stop {
    /// HALT, or another output to register C of device 77, was executed.
    Halt,
    /// The 16th word of an indirect chain still had bit 0 set. The instruction was not executed, or the interrupt not
    /// entered, and the words that the chain changed stay so.
    ChainLimit,
    /// The word at PC is for a device that is not there, and STOP_DEV is 1. It was not executed.
    UnknownDevice,
    /// The break with that place, from 0 in rising address, was tested at PC, and its count is 0. The instruction there
    /// was not executed.
    Break(usize),
    /// The console's printer has printed the last byte of a text that is waited for: that of the entry with that place,
    /// from 0. The entry is gone, and the printer is done.
    Expect(usize),
    /// The count of a STEP was reached.
    Stepped,
    /// The limit of instructions was reached, or the end of time.
    Limit,
    /// The file of that unit is at its end, and its STOP_IOE is 1.
    UnitEnd(UnitName),
    /// That unit has no file, and its STOP_IOE is 1.
    UnitNone(UnitName),
    /// The tape image of that drive is bad at that place, in bytes. The unit is as it was when it was asked, and its
    /// event is gone.
    BadImage(UnitName, u64),
    /// The key that stops a run was taken: control E, 005.
    Wru,
    /// A call on the file of a unit failed. The unit is as it was when it was asked, and its event is gone.
    FileFault(UnitFault),
    /// The console refused a byte that a unit printed. The unit is as it was when the byte was to be printed, and its
    /// event is gone.
    ConsoleFault,
}

/// What a turn came to.
#[derive(Clone, Copy)]
pub enum Turn {
    Executed,
    Stopped(Stop),
}

/// How many instructions a run executes at the most, and whether it is called a step where it has.
#[derive(Clone, Copy)]
pub struct RunLimit {
    pub count: u64,
    pub step: bool,
}

/// A Nova: its processor with the memory, its switches, its units with their events, and its time in instructions since
/// the session began, at most 2^60. It is the same machine over whichever units are handed in: they may be boxes.
#[derive(Drop)]
pub struct Machine<U: Unit> {
    pub(crate) processor: Processor,
    pub(crate) ints: Ints,
    /// The switch register.
    pub(crate) sr: Word,
    /// Whether a word to a device that is not there stops the machine.
    pub(crate) stop_dev: bool,
    pub(crate) time: u64,
    /// In bus order.
    pub(crate) units: Vec<U>,
    /// Where the unit with each code stands among them.
    pub(crate) places: Places,
    pub(crate) events: Events,
    /// Where it is true, no interrupt can come.
    pub(crate) quiet: bool,
    /// How many keys were taken.
    pub(crate) taken: u64,
    /// The files of its units.
    pub(crate) attached: Attached,
    /// The console line.
    pub(crate) console: Line,
    /// Its terminal lines, line 0 first.
    pub(crate) lines: Vec<Line>,
}

impl<U: Unit> Model for Machine<U> {
    ghost use Rattle.std.specs.Prelude.{◌≡◌, ◌≤◌, ◌∷◌, map};
    ghost use Rattle.unit_list.specs.Bus.{AllFit, kinds_of};
    ghost use Rattle.unit_list.specs.Places.{places_in};
    ghost use Rattle.nova_machine.specs.Core.{AreListed};
    ghost use Rattle.nova_machine.specs.Machine.{MachineState, HasItsLines};
    ghost use Rattle.nova_machine.specs.Quiet.{IsQuiet};
    ghost use Rattle.nova_machine.specs.Run.{last_time};

    ghost Value = { MachineState };

    ghost view = { λ m. record {
      processor = m.processor;
      ints = m.ints;
      sr = m.sr;
      stop_dev = m.stop_dev;
      units = map U.unit_state m.units.items;
      events = m.events;
      time = m.time;
      taken = m.taken;
      slots = m.attached.slots;
      disk = m.attached.disk;
      aside = m.attached.aside;
      lines = m.console ∷ m.lines.items;
    } };

    ghost invariant = { λ m. (m.time ≤ last_time) × IsQuiet m.quiet m.ints (map U.unit_state m.units.items)
        × AllFit (map U.unit_state m.units.items) × AreListed (kinds_of (map U.unit_state m.units.items)) m.events
        × (m.places ≡ places_in (kinds_of (map U.unit_state m.units.items)))
        × HasItsLines (kinds_of (map U.unit_state m.units.items)) m.lines.items };
}

impl<U: Unit> Machine<U> {
    ghost use Rattle.nova_machine.specs.Machine.{new_machine, attached_files, reset_devices, reset_machine};
    ghost use Rattle.unit_list.specs.BusOrder.{IsBusOrder};
    ghost use Rattle.nova_machine.specs.Core.{IsCore};
    ghost use Rattle.unit_trait.specs.Processor.{largest_of, CanHold};
    ghost use Rattle.nova_machine.specs.Registers.{register_of, with_register};

    /// A machine of 32768 words with those units, at time 0, as a reset leaves it. Memory is 0, and so is every
    /// register of the processor but `Size`. No key is taken, no file attached, and no line has a port: the console
    /// line is there, line 0 where a unit of the second teletype is, and line 0 with lines 1 to 64 where the
    /// multiplexer is.
    #[tactic(auto, unfolding(crate::specs::Machine::new_machine))]
    pub fn new(alloc: Global, units: Vec<U>) -> Result<Machine<U>, AllocError>
        requires { IsBusOrder (map U.unit_state units.items) }
        ensures machine { IfOk result (λ m. m ≡ new_machine (map U.unit_state units.items)) }
        ensures open { IfOk result (λ m. (opened : List Opened) → AllOpen m.slots opened) }
        ensures around { IfOk result (λ m. (opened : List Opened) → Around m.slots opened opened) }
    {
        let places = Places::new(units.as_slice());
        let lines = lines_of(alloc, &places, units.as_slice())?;
        let console = Line::new(alloc)?;
        let processor = Processor::new(alloc)?;
        let events = Events::new(alloc)?;
        let attached = Attached::new(alloc)?;
        let mut machine = Machine::assembled(
            processor, units, places, events, attached, console, lines,
        );
        machine.reset();
        Ok(machine)
    }

    /// A machine of those parts at time 0, of which nothing was reset yet.
    fn assembled(
        processor: Processor,
        units: Vec<U>,
        places: Places,
        events: Events,
        attached: Attached,
        console: Line,
        lines: Vec<Line>,
    ) -> Machine<U>
        requires places { places ≡ places_in (kinds_of (map U.unit_state units.items)) }
        requires events { events ≡ [] }
        requires lines { HasItsLines (kinds_of (map U.unit_state units.items)) lines.items }
        ensures { result ≡ record {
          processor = processor;
          ints = no_interrupts;
          sr = 0;
          stop_dev = false;
          units = map U.unit_state units.items;
          events = events;
          time = 0;
          taken = 0;
          slots = attached.slots;
          disk = attached.disk;
          aside = attached.aside;
          lines = console ∷ lines.items;
        } }
    {
        all_fit(units.as_slice());
        Machine {
            processor,
            ints: Ints::new(),
            sr: Word(0),
            stop_dev: false,
            time: 0,
            units,
            places,
            events,
            quiet: false,
            taken: 0,
            attached,
            console,
            lines,
        }
    }

    /// How many instructions were executed since the session began.
    pub fn time(&self) -> u64
        ensures time { result ≡ self.now.time }
        ensures last { result ≤ last_time }
    {
        self.time
    }

    /// How many of the timed keys were taken.
    pub fn keys_taken(&self) -> u64
        ensures { result ≡ self.now.taken }
    {
        self.taken
    }

    /// The files of its units.
    pub fn attached(&self) -> &Attached
        ensures { result.now ≡ attached_files self.now }
    {
        &self.attached
    }

    /// What holds of every machine: its units' registers are within their limits, and its events are those of units
    /// that it has, one a unit, in the order of their times, none of which has passed.
    #[tactic(auto, using(crate::proofs::Listed::times_later))]
    pub fn core(&self)
        ensures { IsCore self.now }
    {
        self.events.sound();
    }

    /// The machine's memory.
    pub fn memory(&self) -> &Memory
        ensures { result.now ≡ self.now.processor.memory }
    {
        &self.processor.memory
    }

    /// The address of the next instruction.
    pub fn pc(&self) -> Addr
        ensures { result ≡ self.now.processor.cpu.pc }
    {
        self.processor.cpu.pc
    }

    /// The events of its units that wait.
    pub fn events(&self) -> &Events
        ensures { result.now ≡ self.now.events }
    {
        &self.events
    }

    /// The value of a register.
    pub fn cpu_reg(&self, register: CpuReg) -> u32
        ensures value { result ≡ register_of self.now register }
        ensures range { result ≤ largest_of register }
    {
        u32::from(self.register(register))
    }

    /// Sets a register. A value above its largest is refused, and so is every value for `Size`; nothing has changed
    /// then.
    pub fn set_cpu_reg(&mut self, register: CpuReg, value: u32) -> Result<(), RegFault>
        ensures set { OnOk result (self.new ≡ with_register self.old register value) }
        ensures fits { IsOk result ↔ CanHold register value }
        ensures refused { OnErr result (self.new ≡ self.old) }
    {
        if !register.can_hold(value) {
            return Err(RegFault::OutOfRange);
        }
        self.set_register(register, value as u16);
        Ok(())
    }

    /// Resets the machine: interrupts go off and wait for no instruction, the interrupt mask is cleared, no event
    /// waits, and each unit is reset, in bus order, which brings the events that a reset wishes. PC, the accumulators,
    /// carry, the switch register, STOP_DEV, memory, time, the files of its units and its lines stay.
    #[tactic(auto, unfolding(crate::specs::Machine::reset_machine))]
    pub fn reset(&mut self)
        ensures machine { self.new ≡ reset_machine self.old }
        ensures slots { self.new.slots ≡ self.old.slots }
        ensures lines { self.new.lines ≡ self.old.lines }
    {
        self.reset_devices();
        self.ints.reset();
    }

    /// Clears the mask and all events, and resets each unit.
    #[tactic(auto, unfolding(crate::specs::Machine::reset_devices))]
    pub(crate) fn reset_devices(&mut self)
        ensures machine { self.new ≡ reset_devices self.old }
        ensures none { due self.new.events ≡ None }
        ensures time { self.new.time ≡ self.old.time }
        ensures slots { self.new.slots ≡ self.old.slots }
        ensures lines { self.new.lines ≡ self.old.lines }
    {
        self.quiet = false;
        self.ints.mask_out(0);
        restart(self.units.as_mut_slice(), &mut self.events);
    }
}

/// The terminal lines of a machine with those units.
#[tactic(auto, using(crate::proofs::LinesThere::own_lines))]
fn lines_of<U: Unit>(alloc: Global, places: &Places, units: &[U]) -> Result<Vec<Line>, AllocError>
    requires { places.now ≡ places_in (kinds_of (map U.unit_state units.now)) }
    ensures lines { IfOk result (λ lines. lines.items ≡ terminal_lines_for (map U.unit_state units.now)) }
    ensures own { IfOk result (λ lines. HasItsLines (kinds_of (map U.unit_state units.now)) lines.items) }
{
    new_lines(alloc, line_count(places, units))
}

/// How many terminal lines a machine with those units has: line 0 for the second teletype, and behind it lines 1 to 64
/// for the multiplexer.
fn line_count<U: Unit>(places: &Places, units: &[U]) -> usize
    requires { places.now ≡ places_in (kinds_of (map U.unit_state units.now)) }
    ensures { result ≡ line_count (map U.unit_state units.now) }
{
    if has_unit(places, units, code_of(Kind::Qty)) {
        return 65;
    }
    let terminal = has_unit(places, units, code_of(Kind::Tti1))
        || has_unit(places, units, code_of(Kind::Tto1));
    if terminal { 1 } else { 0 }
}

/// So many lines without a port.
fn new_lines(alloc: Global, count: usize) -> Result<Vec<Line>, AllocError>
    ensures { IfOk result (λ lines. lines.items ≡ replicate count (unconnected None)) }
{
    let mut lines = Vec::new(alloc);
    while lines.len() < count {
        lines.push(Line::new(alloc)?)?;
    }
    Ok(lines)
}

/// No event waits, and each unit is reset, in bus order, which may bring an event of it.
fn restart<U: Unit>(units: &mut [U], events: &mut Events)
    ensures units { map U.unit_state units.new ≡ reset_units (map U.unit_state units.old) }
    ensures events { events.new ≡ reset_events (map U.unit_state units.old) [] }
    ensures none { due events.new ≡ None }
    ensures fits { AllFit (map U.unit_state units.old) → AllFit (map U.unit_state units.new) }
    ensures listed { AreListed (kinds_of (map U.unit_state units.new)) events.new }
    ensures kinds { kinds_of (map U.unit_state units.new) ≡ kinds_of (map U.unit_state units.old) }
{
    events.clear();
    reset_all(units, events);
}
