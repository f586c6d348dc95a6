// Looks of both keyboards at one time, where the line of the second teletype has a port: it is polled between bursts,
// and no turn is made for it.
ghost use Rattle.std.specs.Prelude.{◌≡◌, ◌≢◌, ◌<◌, ◌≤◌, ◌+◌, ℕ, List, [], ◌∷◌, true, false, None, Some, IfSome, option_map};
ghost use Rattle.event_queue.specs.EventList.{dues};
ghost use Rattle.unit_list.specs.Bus.{kinds_of};
ghost use Rattle.host_lines.specs.State.{LineState};
ghost use Rattle.expect_actions.specs.Watch.{WatchState};
ghost use Rattle.nova_processor.specs.declared.burst.BurstEnd.TheVariants as burst_end;
ghost use Rattle.nova_machine.specs.Run.{last_time};
ghost use Rattle.nova_machine.specs.Looks.{keyboard};
ghost use Rattle.nova_machine.specs.LineLooks.{second_keyboard, first_looked, LookAgain, AreLooking, IsKeylessNow, GoesOn, IsAhead};
ghost use Rattle.nova_machine.specs.OnLines.{got_of_line, IsOfPoll};
ghost use Rattle.nova_machine.specs.Service.{answered};
ghost use Rattle.unit_trait.specs.declared.calls.Got.TheVariants.{Key};
ghost use Rattle.nova_machine.specs.LineChanges.{AreLinesTold, LinesGoOn};

use crate::idle::period_of;
use crate::machine::Machine;
use crate::run::LAST_TIME;
use expect_actions::{Keys, Watch};
use host_lines::Lines;
use nova_processor::{Burst, BurstEnd};
use unit_trait::{Got, Kind, Queue, Unit, UnitName};

/// The keyboard of the console.
const KEYBOARD: UnitName = UnitName {
    kind: Kind::Tti,
    unit: 0,
};

/// The keyboard of the second teletype.
const SECOND_KEYBOARD: UnitName = UnitName {
    kind: Kind::Tti1,
    unit: 0,
};

impl<U: Unit> Machine<U> {
    ghost use Rattle.nova_machine.specs.Machine.{attached_files};
    ghost use Rattle.nova_machine.specs.StopCauses.{BurstCause};
    ghost use Rattle.nova_machine.specs.Steps.{Services, GoAlong};

    /// Makes turns, as many at the most, in bursts. Looks of both keyboards that are due between two of them pass, with
    /// a poll of the line of the second teletype.
    pub(crate) fn go_on<L: Lines>(
        &mut self,
        most: u64,
        watch: &Watch,
        keys: &Keys,
        lines: &mut L,
    ) -> Burst
        ensures few { result.done ≤ most }
        ensures told { AreLinesTold L.tells (L.state lines.old) self.old.lines
            → GoesOn watch.now keys.now most result.done result.end (L.state lines.old) self.old (L.state lines.new)
            self.new }
        ensures slots { self.new.slots ≡ self.old.slots }
        ensures attached { attached_files self.new ≡ attached_files self.old }
        ensures lines { LinesGoOn L.tells (L.state lines.old) self.old.lines (L.state lines.new) self.new.lines }
        ensures time { self.new.time ≡ self.old.time + result.done }
        ensures taken { self.new.taken ≡ self.old.taken }
        ensures cause { BurstCause result.end most result.done self.new }
        ensures kinds { kinds_of self.new.units ≡ kinds_of self.old.units }
        ensures steps { GoAlong keys.now watch.now most result.done result.end self.old self.new }
    {
        let mut done = 0;
        let mut period = None;
        'bursts: loop {
            let burst = self.burst(most - done, watch, keys);
            done += burst.done;
            if !self.events.may_be_due() || is_last(burst) || done >= most {
                return Burst {
                    done,
                    end: burst.end,
                };
            }
            period = self.look_on_line(period, watch, keys, lines);
            if period.is_none() {
                return Burst {
                    done,
                    end: burst.end,
                };
            }
        }
    }

    /// Lets the looks of both keyboards pass that are due, where no other event is, with a poll of the line of the
    /// second teletype. It is known after how many instructions they look again, or asked; the answer is the same, as
    /// long as no key has come.
    fn look_on_line<L: Lines>(
        &mut self,
        known: Option<u32>,
        watch: &Watch,
        keys: &Keys,
        lines: &mut L,
    ) -> Option<u32>
        requires known { IfSome known (λ period. LookAgain period self.old.units) }
        ensures told { AreLinesTold L.tells (L.state lines.old) self.old.lines
            → IsAhead watch.now keys.now (L.state lines.old) self.old (L.state lines.new) self.new }
        ensures again { IfSome result (λ period. LookAgain period self.new.units) }
        ensures slots { self.new.slots ≡ self.old.slots }
        ensures attached { attached_files self.new ≡ attached_files self.old }
        ensures lines { LinesGoOn L.tells (L.state lines.old) self.old.lines (L.state lines.new) self.new.lines }
        ensures time { self.new.time ≡ self.old.time }
        ensures taken { self.new.taken ≡ self.old.taken }
        ensures kinds { kinds_of self.new.units ≡ kinds_of self.old.units }
        ensures steps { Services keys.now watch.now self.old watch.now self.new }
    {
        if !self.may_look(watch, keys) {
            return None;
        }
        match self.both_look(known) {
            None => None,
            Some(period) => self.poll_both(period, lines),
        }
    }

    /// Whether both keyboards look now, no other event is due, no key of the console is, its line has no port, and time
    /// has not ended.
    fn may_look(&self, watch: &Watch, keys: &Keys) -> bool
        ensures due { result ≡ true → dues self.now.events ≡ keyboard ∷ second_keyboard ∷ [] }
        ensures keyless { result ≡ true → IsKeylessNow watch.now keys.now self.now }
        ensures early { result ≡ true → self.now.time < last_time }
    {
        if !self.is_console_closed() || !self.are_both_due() {
            return false;
        }
        if self.keyless_until(watch, keys) <= self.time {
            return false;
        }
        self.time < LAST_TIME
    }

    /// After how many instructions both keyboards look again, where no key comes: what is known, or what they say.
    fn both_look(&mut self, known: Option<u32>) -> Option<u32>
        requires known { IfSome known (λ period. LookAgain period self.old.units) }
        ensures again { IfSome result (λ period. LookAgain period self.old.units) }
        ensures same { self.new ≡ self.old }
    {
        if known.is_some() {
            return known;
        }
        let first = period_of(&self.places, self.units.as_mut_slice(), KEYBOARD);
        let second = period_of(&self.places, self.units.as_mut_slice(), SECOND_KEYBOARD);
        match (first, second) {
            (Some(period), Some(other)) if period == other => Some(period),
            _ => None,
        }
    }

    /// Whether the events of both keyboards are due, the console's first, and no other is.
    fn are_both_due(&self) -> bool
        ensures { result ≡ true → dues self.now.events ≡ keyboard ∷ second_keyboard ∷ [] }
    {
        if !is_due(self.events.in_order(0), KEYBOARD) {
            return false;
        }
        if !is_due(self.events.in_order(1), SECOND_KEYBOARD) {
            return false;
        }
        is_later(self.events.in_order(2))
    }

    /// Polls the line, and lets both looks pass; answers after how many instructions they come again, where no key has
    /// come. Nothing has changed where the line is not there.
    fn poll_both<L: Lines>(&mut self, period: u32, lines: &mut L) -> Option<u32>
        requires looking { AreLooking period self.old }
        requires early { self.old.time < last_time }
        ensures told { AreLinesTold L.tells (L.state lines.old) self.old.lines
            → (watch : WatchState) (keys : List (ℕ × ℕ)) → IsKeylessNow watch keys self.old
            → IsAhead watch keys (L.state lines.old) self.old (L.state lines.new) self.new }
        ensures again { IfSome result (λ later. LookAgain later self.new.units) }
        ensures slots { self.new.slots ≡ self.old.slots }
        ensures attached { attached_files self.new ≡ attached_files self.old }
        ensures lines { LinesGoOn L.tells (L.state lines.old) self.old.lines (L.state lines.new) self.new.lines }
        ensures time { self.new.time ≡ self.old.time }
        ensures taken { self.new.taken ≡ self.old.taken }
        ensures kinds { kinds_of self.new.units ≡ kinds_of self.old.units }
        ensures steps { (watch : WatchState) (keys : List (ℕ × ℕ)) → IsKeylessNow watch keys self.old
            → Services keys watch self.old watch self.new }
    {
        match self.key_of_line(0, lines) {
            None => None,
            Some(got) => match key_in(got) {
                None => {
                    self.look(period);
                    Some(period)
                }
                Some(key) => {
                    self.take_key_of_line(period, key);
                    None
                }
            },
        }
    }

    /// Serves both keyboards, of which the second gets a key that a poll has brought.
    fn take_key_of_line(&mut self, period: u32, key: u8)
        requires looking { AreLooking period self.old }
        ensures machine { self.new ≡ (answered second_keyboard (Key key) (first_looked period self.old)).machine }
        ensures dues { dues self.new.events ≡ [] }
        ensures slots { self.new.slots ≡ self.old.slots }
        ensures lines { self.new.lines ≡ self.old.lines }
        ensures time { self.new.time ≡ self.old.time }
        ensures kinds { kinds_of self.new.units ≡ kinds_of self.old.units }
    {
        let _ = self.take_due();
        self.wish(KEYBOARD, Queue::After(period));
        let _ = self.take_due();
        let _ = self.answer(SECOND_KEYBOARD, Got::Key(key));
    }
}

/// The key that a poll of a line has brought.
fn key_in(got: Got) -> Option<u8>
    ensures { IsOfPoll got → got ≡ got_of_line result }
{
    match got {
        Got::Key(key) => Some(key),
        Got::NoKey
        | Got::Done
        | Got::LineFull
        | Got::Byte(_)
        | Got::End
        | Got::NoFile
        | Got::ReadOnly
        | Got::Tape(_) => None,
    }
}

/// Whether an event is that of a unit, and due.
fn is_due(event: Option<(UnitName, u64)>, unit: UnitName) -> bool
    ensures { result ≡ true → event ≡ Some (unit, 0) }
{
    match event {
        None => false,
        Some((other, remaining)) => remaining == 0 && other == unit,
    }
}

/// Whether an event is not due, where there is one.
fn is_later(event: Option<(UnitName, u64)>) -> bool
    ensures { result ≡ true → IfSome event (λ e. 0 < e.1) }
{
    match event {
        None => true,
        Some((_, remaining)) => remaining > 0,
    }
}

/// Whether nothing can follow a burst before a turn.
fn is_last(burst: Burst) -> bool
    ensures { result ≡ false → (0 < burst.done) × (burst.end ≢ burst_end.ChainLimit) }
{
    match burst.end {
        BurstEnd::ChainLimit | BurstEnd::AtStop => true,
        BurstEnd::Spent | BurstEnd::Transfer => burst.done == 0,
    }
}
