// Loops that wait for a flag of a unit, a skip and a JMP back to it: they pass at once, up to the next event.
ghost use Rattle.std.specs.Prelude.{ℕ, List, ◌≡◌, ◌+◌, ◌≤◌, ◌||◌, true};
ghost use Rattle.expect_actions.specs.Breaks.{has_break};
ghost use Rattle.nova_processor.specs.Instruction.{following};
ghost use Rattle.nova_machine.specs.Machine.{on_processor};
ghost use Rattle.nova_machine.specs.Waits.{IsTest, AreUnbroken, halfway};
ghost use Rattle.nova_machine.specs.Looks.{IsLooking, AreNext};
ghost use Rattle.nova_processor.specs.declared.burst.BurstEnd.TheVariants.{Transfer};

use crate::idle::Looks;
use crate::machine::Machine;
use crate::run::LAST_TIME;
use expect_actions::{Breaks, Keys, Watch};
use nova_memory::indexed;
use nova_processor::{Cpu, flag_skips};
use unit_list::flags_at;
use unit_trait::Unit;

impl<U: Unit> Machine<U> {
    ghost use Rattle.nova_machine.specs.Machine.{attached_files};
    ghost use Rattle.nova_machine.specs.Bursts.{Bursts};
    ghost use Rattle.nova_machine.specs.Waits.{IsUntaken, IsWaiting};
    ghost use Rattle.nova_word.specs.Bits.{bits};

    /// Where the machine is at a loop that waits for a flag, lets it go on up to the next event, and answers how many
    /// instructions that were, as many as that at the most. All but the time is as it was then, and PC where they are
    /// odd, which is at the JMP.
    pub(crate) fn wait(&mut self, most: u64, watch: &Watch, keys: &Keys) -> u64
        ensures few { result ≤ most }
        ensures told { Bursts watch.now keys.now most result Transfer self.old self.new }
        ensures slots { self.new.slots ≡ self.old.slots }
        ensures attached { attached_files self.new ≡ attached_files self.old }
        ensures lines { self.new.lines ≡ self.old.lines }
        ensures later { self.old.time ≤ self.new.time }
        ensures time { self.new.time ≡ self.old.time + result }
        ensures taken { self.new.taken ≡ self.old.taken }
        ensures units { self.new.units ≡ self.old.units }
    {
        if self.meets_break(&watch.breaks) || !self.is_waiting() {
            return 0;
        }
        if self.polls_next() {
            return self.pass_rounds(most, watch);
        }
        match self.looks() {
            None => self.pass_rounds(most, watch),
            Some(looks) => self.pass_rounds_and_looks(most, looks, watch, keys),
        }
    }

    /// Whether no look can pass: the second event comes with the first, and the second teletype's line has a port.
    fn polls_next(&self) -> bool {
        !self.is_closed() && self.events.others_later() <= self.events.clear_for()
    }

    /// Lets such a loop go on, as long as no event comes.
    fn pass_rounds(&mut self, most: u64, watch: &Watch) -> u64
        requires unbroken { AreUnbroken watch.now self.old }
        requires waiting { IsWaiting self.old }
        ensures few { result ≤ most }
        ensures told { (keys : List (ℕ × ℕ)) → Bursts watch.now keys most result Transfer self.old self.new }
        ensures slots { self.new.slots ≡ self.old.slots }
        ensures attached { attached_files self.new ≡ attached_files self.old }
        ensures lines { self.new.lines ≡ self.old.lines }
        ensures later { self.old.time ≤ self.new.time }
        ensures time { self.new.time ≡ self.old.time + result }
        ensures taken { self.new.taken ≡ self.old.taken }
        ensures units { self.new.units ≡ self.old.units }
    {
        let budget = most.min(LAST_TIME - self.time).min(self.calm());
        self.go_round(budget);
        self.pass_time(budget as u32);
        budget
    }

    /// Lets such a loop go on, and looks of the keyboards pass for which no key comes.
    fn pass_rounds_and_looks(&mut self, most: u64, looks: Looks, watch: &Watch, keys: &Keys) -> u64
        requires unbroken { AreUnbroken watch.now self.old }
        requires waiting { IsWaiting self.old }
        requires looks { IsLooking looks.others looks.period self.old }
        requires next { AreNext looks.both looks.others self.old.events }
        ensures few { result ≤ most }
        ensures told { Bursts watch.now keys.now most result Transfer self.old self.new }
        ensures slots { self.new.slots ≡ self.old.slots }
        ensures attached { attached_files self.new ≡ attached_files self.old }
        ensures lines { self.new.lines ≡ self.old.lines }
        ensures later { self.old.time ≤ self.new.time }
        ensures time { self.new.time ≡ self.old.time + result }
        ensures taken { self.new.taken ≡ self.old.taken }
        ensures units { self.new.units ≡ self.old.units }
    {
        let budget = self.idle_budget(most, looks, watch, keys);
        self.go_round(budget);
        self.pass_looks(budget as u32, looks);
        budget
    }

    /// Stands where so many instructions of such a loop lead from its skip: behind it, at the JMP, where they are odd.
    fn go_round(&mut self, count: u64)
        ensures { self.new ≡ on_processor (halfway count) self.old }
    {
        if count % 2 == 1 {
            self.processor.cpu.pc = self.processor.cpu.pc.plus(1);
        }
    }

    /// Whether a break is at one of the two instructions of such a loop.
    fn meets_break(&self, breaks: &Breaks) -> bool
        ensures { result ≡ (has_break self.now.processor.cpu.pc breaks.now.list
            || has_break (following self.now.processor.cpu.pc) breaks.now.list) }
    {
        let pc = self.processor.cpu.pc;
        breaks.has(pc) || breaks.has(pc.plus(1))
    }

    /// Whether a skip that is not taken is next, and behind it a JMP back to it.
    fn is_waiting(&self) -> bool
        ensures { result ≡ true → IsWaiting self.now }
    {
        let Cpu {
            accumulators,
            pc,
            ..
        } = self.processor.cpu;
        let next = pc.plus(1);
        let jump = self.processor.memory.read(next);
        if jump.0 >= 0o2000 || indexed(jump, next, &accumulators) != pc {
            return false;
        }
        let word = self.processor.memory.read(pc).0;
        is_test(word) && self.is_untaken(word)
    }

    /// Whether the unit that a skip names is there, and the skip is not taken.
    fn is_untaken(&self, word: u16) -> bool
        ensures { result ≡ true → IsUntaken (bits 10 15 word) (bits 8 9 word) self.now }
    {
        match flags_at(&self.places, self.units.as_slice(), (word % 64) as u8) {
            None => false,
            Some(flags) => !flag_skips((word >> 6) % 4, flags.busy, flags.done),
        }
    }
}

/// Whether a word is a skip on the flags of a device, and not of the processor or the multiply and divide unit.
fn is_test(word: u16) -> bool
    ensures { result ≡ true → IsTest word }
{
    let code = word % 64;
    word >= 0o60000 && word < 0o100000 && (word >> 8) % 8 == 7 && code != 1 && code != 0o77
}
