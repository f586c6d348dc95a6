// Looks of the keyboards for which no key comes, as long as their lines have no port, the console line and that of the
// second teletype: they pass between the instructions of a burst, up to the next event of another unit or the next key.
ghost use Rattle.std.specs.Prelude.{◌≡◌, ◌≤◌, ◌<◌, ◌+◌, ◌^◌, ◌&&◌, ℕ, List, true, false, None, Some, slice_get, option_map, map, IfSome};
ghost use Rattle.unit_trait.specs.declared.calls.Queue.TheVariants.{After};
ghost use Rattle.unit_list.specs.Bus.{kinds_of};
ghost use Rattle.unit_list.specs.Places.{places_in};
ghost use Rattle.event_queue.specs.Idle.{AreTwins, idled};
ghost use Rattle.nova_interrupts.specs.Requests.{requested};
ghost use Rattle.telnet_lines.specs.Line.{unconnected};
ghost use Rattle.nova_machine.specs.Machine.{console_place, place_of};
ghost use Rattle.nova_machine.specs.Run.{last_time};
ghost use Rattle.nova_machine.specs.Looks.{IsKeyless, IsKeyed, IsUnheard, IsLooking, LooksAt, AreNext, IsIdle, keyless_wish, idled_by, looked_at, idle_end};

use crate::machine::Machine;
use crate::run::LAST_TIME;
use event_queue::Events;
use expect_actions::{Keys, Watch};
use nova_processor::{Burst, BurstEnd};
use unit_list::{Places, got_at};
use unit_trait::{Got, Kind, Queue, Unit, UnitName};

/// How the keyboards look for keys whose events come first.
#[derive(Clone, Copy)]
pub(crate) struct Looks {
    /// A look asks for the next one after so many instructions.
    pub(crate) period: u32,
    /// No other event is due within so many.
    pub(crate) others: u32,
    /// They are two, which look together.
    pub(crate) both: bool,
}

impl<U: Unit> Machine<U> {
    ghost use Rattle.nova_machine.specs.Machine.{attached_files};
    ghost use Rattle.nova_machine.specs.Bursts.{Bursts};
    ghost use Rattle.nova_machine.specs.StopCauses.{BurstCause};

    /// Makes turns, as many at the most, of instructions of the processor alone and of looks for which no key comes;
    /// none, where anything else can come.
    pub(crate) fn idle(&mut self, most: u64, watch: &Watch, keys: &Keys) -> Burst
        ensures few { result.done ≤ most }
        ensures told { Bursts watch.now keys.now most result.done result.end self.old self.new }
        ensures slots { self.new.slots ≡ self.old.slots }
        ensures attached { attached_files self.new ≡ attached_files self.old }
        ensures lines { self.new.lines ≡ self.old.lines }
        ensures later { self.old.time ≤ self.new.time }
        ensures time { self.new.time ≡ self.old.time + result.done }
        ensures taken { self.new.taken ≡ self.old.taken }
        ensures units { self.new.units ≡ self.old.units }
        ensures cause { BurstCause result.end most result.done self.new }
    {
        // Where a second event comes at once, and the second teletype's line has a port, there are none.
        if !self.is_closed() && self.events.others_later() == 0 {
            return Burst {
                done: 0,
                end: BurstEnd::Spent,
            };
        }
        match self.looks() {
            None => Burst {
                done: 0,
                end: BurstEnd::Spent,
            },
            Some(looks) => self.work_on(most, looks, watch, keys),
        }
    }

    /// Makes such turns, where the next events are such looks.
    fn work_on(&mut self, most: u64, looks: Looks, watch: &Watch, keys: &Keys) -> Burst
        requires looks { IsLooking looks.others looks.period self.old }
        requires next { AreNext looks.both looks.others self.old.events }
        ensures few { result.done ≤ most }
        ensures told { Bursts watch.now keys.now most result.done result.end self.old self.new }
        ensures slots { self.new.slots ≡ self.old.slots }
        ensures attached { attached_files self.new ≡ attached_files self.old }
        ensures lines { self.new.lines ≡ self.old.lines }
        ensures later { self.old.time ≤ self.new.time }
        ensures time { self.new.time ≡ self.old.time + result.done }
        ensures taken { self.new.taken ≡ self.old.taken }
        ensures units { self.new.units ≡ self.old.units }
        ensures cause { BurstCause result.end most result.done self.new }
    {
        let budget = self.idle_budget(most, looks, watch, keys);
        let burst = self.step_to_break(budget, &watch.breaks);
        self.pass_looks(burst.done as u32, looks);
        self.end_looks(burst.end, looks.period);
        burst
    }

    /// For how many instructions, as many at the most, nothing can come but such looks.
    #[tactic(auto, using(crate::proofs::Idling::idles))]
    pub(crate) fn idle_budget(&self, most: u64, looks: Looks, watch: &Watch, keys: &Keys) -> u64
        requires looks { IsLooking looks.others looks.period self.now }
        ensures few { result ≤ most }
        ensures within { result ≤ looks.others }
        ensures end { self.now.time + result ≤ last_time }
        ensures idle { IsIdle result looks.period self.now watch.now.sends keys.now }
        ensures range { result < 2 ^ 32 }
    {
        let until = self.keyless_until(watch, keys);
        most.min(LAST_TIME - self.time)
            .min(u64::from(looks.others))
            .min(until.saturating_sub(self.time))
    }

    /// How the keyboards look for keys, where no interrupt can come and their looks are the next events.
    pub(crate) fn looks(&mut self) -> Option<Looks>
        ensures looks { IfSome result (λ l. IsLooking l.others l.period self.old) }
        ensures next { IfSome result (λ l. AreNext l.both l.others self.old.events) }
        ensures same { self.new ≡ self.old }
    {
        if !self.quiet {
            return None;
        }
        let first = self.events.first_unit();
        match self.period(first) {
            None => None,
            Some(period) => Some(self.looks_each(period)),
        }
    }

    /// The same, where the unit of the first event looks each so many instructions.
    fn looks_each(&mut self, period: u32) -> Looks
        requires quiet { (self.old.ints.on && requested self.old.ints.mask self.old.units) ≡ false }
        requires some { 1 ≤ period }
        requires first { LooksAt period self.old (option_map (λ e. e.unit) (slice_get self.old.events 0)) }
        ensures looks { IsLooking result.others result.period self.old }
        ensures next { AreNext result.both result.others self.old.events }
        ensures same { self.new ≡ self.old }
    {
        if self.twin_looks(period) {
            return Looks {
                period,
                others: self.events.later_than_two(),
                both: true,
            };
        }
        Looks {
            period,
            others: self.events.others_later(),
            both: false,
        }
    }

    /// Whether the unit of the second event looks together with that of the first.
    fn twin_looks(&mut self, period: u32) -> bool
        ensures looks { result ≡ true → LooksAt period self.old (option_map (λ e. e.unit) (slice_get self.old.events 1)) }
        ensures twins { result ≡ true → AreTwins self.old.events }
        ensures same { self.new ≡ self.old }
    {
        let twin = self.events.twin();
        match self.period(twin) {
            None => false,
            Some(other) => other == period,
        }
    }

    /// After how many instructions a unit looks again, where it is a keyboard and no key comes.
    fn period(&mut self, unit: Option<UnitName>) -> Option<u32>
        ensures looks { IfSome result (λ period. LooksAt period self.old unit) }
        ensures some { IfSome result (λ period. 1 ≤ period) }
        ensures same { self.new ≡ self.old }
    {
        match unit {
            None => None,
            Some(unit) => {
                if self.is_unheard(unit) {
                    period_of(&self.places, self.units.as_mut_slice(), unit)
                } else {
                    None
                }
            }
        }
    }

    /// Whether a unit is a keyboard for which no key comes that is not sent or typed.
    fn is_unheard(&self, unit: UnitName) -> bool
        ensures unheard { result ≡ true → IsUnheard unit.kind self.now.lines }
        ensures number { result ≡ true → unit.unit ≡ 0 }
        ensures keyed { result ≡ true → IsKeyed unit.kind }
    {
        match unit {
            UnitName {
                kind: Kind::Tti,
                unit: 0,
            } => self.is_console_closed(),
            UnitName {
                kind: Kind::Tti1,
                unit: 0,
            } => self.is_closed(),
            _ => false,
        }
    }

    /// Whether line 0, the second teletype's, is there and has no port.
    pub(crate) fn is_closed(&self) -> bool
        ensures { result ≡ true → slice_get self.now.lines (place_of 0) ≡ Some (unconnected None) }
    {
        match self.line_at(0) {
            None => false,
            Some(line) => line.is_closed(),
        }
    }

    /// Whether the console line has no port.
    pub(crate) fn is_console_closed(&self) -> bool
        ensures { result ≡ true → slice_get self.now.lines console_place ≡ Some (unconnected None) }
    {
        self.console.is_closed()
    }

    /// A time before which no key comes.
    pub(crate) fn keyless_until(&self, watch: &Watch, keys: &Keys) -> u64
        ensures { IsKeyless result self.now.taken watch.now.sends keys.now }
    {
        let sent = match watch.sends.in_order(0) {
            None => u64::MAX,
            Some(send) => send.0,
        };
        let typed = match keys.time_of(self.taken) {
            None => u64::MAX,
            Some(time) => time,
        };
        sent.min(typed)
    }

    /// Lets so many instructions pass, and the looks before them.
    #[tactic(auto, using(crate::proofs::Listed::listings), unfolding(crate::specs::Looks::idled_by))]
    pub(crate) fn pass_looks(&mut self, count: u32, looks: Looks)
        requires next { AreNext looks.both looks.others self.old.events }
        requires within { count ≤ looks.others }
        requires period { 1 ≤ looks.period }
        requires time { self.old.time + count ≤ last_time }
        ensures { self.new ≡ idled_by looks.period count self.old }
    {
        if count > 0 {
            self.ints.release();
        }
        self.time += u64::from(count);
        pass_events(&mut self.events, count, looks);
    }

    /// A chain without an end stops the machine behind the looks that are due there, where some are.
    fn end_looks(&mut self, end: BurstEnd, period: u32)
        requires { 1 ≤ period }
        ensures { self.new ≡ idle_end end period self.old }
    {
        match end {
            BurstEnd::ChainLimit => self.look(period),
            BurstEnd::Spent | BurstEnd::Transfer | BurstEnd::AtStop => (),
        }
    }

    /// Lets the looks that are due pass, where some are.
    #[tactic(auto, using(crate::proofs::Listed::listings), unfolding(crate::specs::Looks::looked_at))]
    pub(crate) fn look(&mut self, period: u32)
        requires { 1 ≤ period }
        ensures { self.new ≡ looked_at period self.old }
    {
        self.events.look(period);
    }
}

/// Lets so many instructions pass, and the looks before them.
#[tactic(auto, using(crate::proofs::Idling::nexts))]
fn pass_events(events: &mut Events, count: u32, looks: Looks)
    requires next { AreNext looks.both looks.others events.old }
    requires within { count ≤ looks.others }
    requires period { 1 ≤ looks.period }
    ensures { events.new ≡ idled looks.period count events.old }
{
    if looks.both {
        events.pass_twins(count, looks.period);
    } else {
        events.pass_looks(count, looks.period);
    }
}

/// After how many instructions a keyboard looks again, where no key comes: it says so, and stays as it was.
#[tactic(auto, using(crate::proofs::Looks::answers))]
pub(crate) fn period_of<U: Unit>(places: &Places, units: &mut [U], unit: UnitName) -> Option<u32>
    requires places { places.now ≡ places_in (kinds_of (map U.unit_state units.old)) }
    requires keyed { IsKeyed unit.kind }
    requires number { unit.unit ≡ 0 }
    ensures wish { IfSome result (λ period. keyless_wish unit (map U.unit_state units.old) ≡ After period) }
    ensures some { IfSome result (λ period. 1 ≤ period) }
    ensures same { map U.unit_state units.new ≡ map U.unit_state units.old }
{
    let after = got_at(places, units, unit, Got::NoKey);
    match after.queue {
        Queue::After(period) => Some(period),
        Queue::Keep | Queue::Cancel => None,
    }
}
