// Bursts of the processor, as turns of the machine.
ghost use Rattle.std.specs.Prelude.{ℕ, List, ◌≡◌, ◌+◌, ◌≤◌, ◌<◌, ◌^◌};
ghost use Rattle.event_queue.specs.EventList.{IsClear};
ghost use Rattle.nova_machine.specs.Run.{last_time};

use crate::machine::Machine;
use crate::run::LAST_TIME;
use expect_actions::{Breaks, Keys, Watch};
use nova_processor::{Burst, BurstEnd, Nowhere, Stops};
use nova_word::Addr;
use unit_trait::Unit;

/// The addresses at which breaks are.
#[derive(Clone, Copy)]
struct AtBreaks<'a>(&'a Breaks);

impl<'a> Stops for AtBreaks<'a> {
    ghost use Rattle.expect_actions.specs.Breaks.{has_break};

    ghost stops = { λ s a. has_break a s.0.now.list };

    #[inline(always)]
    fn is_at(&self, address: Addr) -> bool {
        self.0.has(address)
    }
}

impl<U: Unit> Machine<U> {
    ghost use Rattle.nova_machine.specs.Machine.{attached_files};
    ghost use Rattle.nova_processor.specs.Burst.{IsBurst};
    ghost use Rattle.expect_actions.specs.Breaks.{has_break};
    ghost use Rattle.nova_machine.specs.Bursts.{Bursts, IsCalm, passed_by};
    ghost use Rattle.nova_machine.specs.StopCauses.{BurstCause};

    /// Makes turns, as many at the most, while nothing but an instruction of the processor alone can come, or looks of
    /// the keyboards for which no key does. Where a word of input and output is next and begins a loop that waits for a
    /// flag, the rounds of the loop pass too.
    pub(crate) fn burst(&mut self, most: u64, watch: &Watch, keys: &Keys) -> Burst
        ensures few { result.done ≤ most }
        ensures told { Bursts watch.now keys.now most result.done result.end self.old self.new }
        ensures slots { self.new.slots ≡ self.old.slots }
        ensures attached { attached_files self.new ≡ attached_files self.old }
        ensures lines { self.new.lines ≡ self.old.lines }
        ensures later { self.old.time ≤ self.new.time }
        ensures time { self.new.time ≡ self.old.time + result.done }
        ensures taken { self.new.taken ≡ self.old.taken }
        ensures units { self.new.units ≡ self.old.units }
        ensures cause { BurstCause result.end most result.done self.new }
    {
        let burst = self.work(most, watch);
        match burst.end {
            BurstEnd::ChainLimit | BurstEnd::AtStop => burst,
            BurstEnd::Spent => {
                let idled = self.idle(most - burst.done, watch, keys);
                Burst {
                    done: burst.done + idled.done,
                    end: idled.end,
                }
            }
            BurstEnd::Transfer => {
                let waited = self.wait(most - burst.done, watch, keys);
                Burst {
                    done: burst.done + waited,
                    end: BurstEnd::Transfer,
                }
            }
        }
    }

    /// Makes turns, as many at the most, of instructions of the processor alone.
    fn work(&mut self, most: u64, watch: &Watch) -> Burst
        ensures few { result.done ≤ most }
        ensures told { (keys : List (ℕ × ℕ)) → Bursts watch.now keys most result.done result.end self.old self.new }
        ensures slots { self.new.slots ≡ self.old.slots }
        ensures attached { attached_files self.new ≡ attached_files self.old }
        ensures lines { self.new.lines ≡ self.old.lines }
        ensures later { self.old.time ≤ self.new.time }
        ensures time { self.new.time ≡ self.old.time + result.done }
        ensures taken { self.new.taken ≡ self.old.taken }
        ensures units { self.new.units ≡ self.old.units }
        ensures cause { BurstCause result.end most result.done self.new }
    {
        let budget = most.min(LAST_TIME - self.time).min(self.calm());
        let burst = self.step_to_break(budget, &watch.breaks);
        self.pass_time(burst.done as u32);
        burst
    }

    /// Executes instructions of the processor alone, as many at the most, up to a break. Time does not pass.
    pub(crate) fn step_to_break(&mut self, budget: u64, breaks: &Breaks) -> Burst
        ensures few { result.done ≤ budget }
        ensures told { IsBurst (λ address. has_break address breaks.now.list) self.old.processor budget result.done result.end
            self.new.processor }
        ensures rest { self.new ≡ record self.old { processor = self.new.processor } }
    {
        if breaks.is_empty() {
            self.processor.burst(budget, &Nowhere)
        } else {
            self.processor.burst(budget, &AtBreaks(breaks))
        }
    }

    /// For how many instructions no event is due and no interrupt can come, at least.
    #[inline]
    pub(crate) fn calm(&self) -> u64
        ensures calm { IsCalm result self.now }
        ensures range { result < 2 ^ 32 }
    {
        if self.quiet {
            u64::from(self.events.clear_for())
        } else {
            0
        }
    }

    /// Lets so many instructions pass.
    #[inline]
    #[tactic(auto, using(crate::proofs::Listed::listings), unfolding(crate::specs::Bursts::passed_by))]
    pub(crate) fn pass_time(&mut self, count: u32)
        requires clear { IsClear count self.old.events }
        requires time { self.old.time + count ≤ last_time }
        ensures { self.new ≡ passed_by count self.old }
    {
        if count > 0 {
            self.ints.release();
        }
        self.time += u64::from(count);
        self.events.pass(count);
    }
}
