// Serving the units whose events are due, one method for each definition of a piece of it.
ghost use Rattle.std.specs.Prelude.{◌≡◌, ◌⊎◌, ◌<◌, ◌++◌, map, None, Some, IsTrue, IfSome};
ghost use Rattle.unit_trait.specs.declared.calls.Want.TheVariants as wants;
ghost use Rattle.unit_trait.specs.declared.calls.Got.TheVariants as gots;
ghost use Rattle.unit_trait.specs.Kinds.{code_of, units_of};
ghost use Rattle.unit_trait.specs.Calls.{Due, Answered};
ghost use Rattle.unit_trait.specs.Row.{IsLater, IsAgain};
ghost use Rattle.event_queue.specs.EventList.{due, dues, wished, IsApart};
ghost use Rattle.unit_list.specs.Bus.{AllFit, TakesAnswerIn, IsBelowEnd, row_at, after_at, kinds_of};
ghost use Rattle.unit_list.specs.Places.{places_in};
ghost use Rattle.unit_trait.specs.declared.calls.Got.{Got};
ghost use Rattle.expect_actions.specs.KeysFile.{due_key};
ghost use Rattle.expect_actions.specs.Sends.{due_send};
ghost use Rattle.expect_actions.specs.Expects.{match_at};
ghost use Rattle.nova_machine.specs.declared.machine.Stop.TheVariants.{ConsoleFault};
ghost use Rattle.nova_machine.specs.declared.service.Hosted.TheVariants.{Gets, Stops};
ghost use Rattle.nova_machine.specs.Comes.{IsOwn, StopCounts};
ghost use Rattle.nova_machine.specs.Notes.{unit_note, failure_of_stop};
ghost use Rattle.nova_machine.specs.Hosting.{CanBeHosted, IsImageOf, hosted_of, hosted_key, hosted_byte, stop_in, bytes_printed, watch_behind};
ghost use Rattle.nova_machine.specs.Wants.{taken_after, files_after, watch_after, first_key, typed_key, stop_by, HasUnit};

use crate::machine::{Machine, Stop};
use crate::on_line::OnLine;
use expect_actions::{Keys, Watch};
use file_traits::{Failed, Files, Sink, put_all};
use host_lines::Lines;
use unit_files::ByteAnswer;
use unit_list::{Places, due_at, got_at};
use unit_trait::{After, Got, Queue, Unit, UnitName, UnitStop, Want};

impl<U: Unit> Machine<U> {
    ghost use Rattle.nova_machine.specs.Machine.{attached_files};
    ghost use Rattle.unit_files.specs.InStep.{MarksCover};
    ghost use Rattle.nova_machine.specs.Core.{IsAmong};
    ghost use Rattle.nova_machine.specs.Seen.{seen, beside};
    ghost use Rattle.nova_machine.specs.Comes.{Does, AreTold, FileCause};
    ghost use Rattle.nova_machine.specs.Service.{serving, service, asked, answered, want_at, first_stop};
    ghost use Rattle.nova_machine.specs.OnLine.{got_on, stop_on, expects_on};
    ghost use Rattle.nova_machine.specs.StopCauses.{moment_of, Watches, ServiceCause};
    ghost use Rattle.nova_machine.specs.Steps.{IsService, AreServedTo};
    ghost use Rattle.nova_machine.specs.LineChanges.{AreLinesTold, LinesGoOn};
    ghost use Rattle.unit_files.specs.Open.{AllOpen};
    ghost use Rattle.event_queue.specs.EventList.{served};

    /// Serves the units whose events are due, first come first.
    pub(crate) fn serve<S: Sink, F: Files, L: Lines>(
        &mut self,
        watch: &mut Watch,
        keys: &Keys,
        files: &mut F,
        lines: &mut L,
        out: &mut S,
    ) -> Option<Stop>
        requires open { AllOpen self.old.slots (F.state files.old).opened }
        ensures told { AreTold F.tells self.old.slots → AreLinesTold L.tells (L.state lines.old) self.old.lines
            → Does (serving (unit_note result)) result (beside watch.old keys.now (F.state files.old).files (L.state lines.old)) self.old
            (beside watch.new keys.now (F.state files.new).files (L.state lines.new)) self.new
            S.tells (S.written out.old) (S.written out.new) }
        ensures rest { result ≡ None → due self.new.events ≡ None }
        ensures time { self.new.time ≡ self.old.time }
        ensures counts { StopCounts result (S.fault_count out.old) (S.fault_count out.new) }
        ensures unit { IfSome result HasUnit }
        ensures slots { self.new.slots ≡ self.old.slots }
        ensures covers { MarksCover (attached_files self.old) (attached_files self.new) }
        ensures kinds { kinds_of self.new.units ≡ kinds_of self.old.units }
        ensures lines { LinesGoOn L.tells (L.state lines.old) self.old.lines (L.state lines.new) self.new.lines }
        ensures opened { (F.state files.new).opened ≡ (F.state files.old).opened }
        ensures file_cause { FileCause result self.old.slots (F.state files.old) (F.state files.new) }
        ensures watches { Watches result (moment_of watch.old self.old) (moment_of watch.new self.new) S.tells
            (S.written out.old) (S.written out.new) }
        ensures cause { ServiceCause result keys.now (moment_of watch.old self.old) watch.new self.new }
        ensures breaks { watch.new.breaks ≡ watch.old.breaks }
        ensures steps { AreServedTo keys.now result watch.old watch.new self.old self.new }
    {
        'events: while let Some(unit) = self.take_due() {
            if let Some(stop) = self.serve_unit(unit, watch, keys, files, lines, out) {
                return Some(stop);
            }
        }
        None
    }

    /// Takes the event that is due first.
    #[tactic(auto, using(crate::proofs::Listed::listings))]
    pub(crate) fn take_due(&mut self) -> Option<UnitName>
        ensures unit { result ≡ due self.old.events }
        ensures taken { self.new ≡ record self.old { events = served self.old.events } }
        ensures low { IfSome result (λ u. u.unit < units_of u.kind) }
        ensures alone { IfSome result (λ u. IsApart u (dues self.new.events)) }
        ensures slots { self.new.slots ≡ self.old.slots }
        ensures lines { self.new.lines ≡ self.old.lines }
        ensures listed { IfSome result (λ u. IsAmong u.kind (kinds_of self.new.units)) }
        ensures time { self.new.time ≡ self.old.time }
    {
        self.events.next_due()
    }

    /// Serves a unit whose event was taken.
    #[tactic(auto, unfolding(crate::specs::Service::service))]
    fn serve_unit<S: Sink, F: Files, L: Lines>(
        &mut self,
        unit: UnitName,
        watch: &mut Watch,
        keys: &Keys,
        files: &mut F,
        lines: &mut L,
        out: &mut S,
    ) -> Option<Stop>
        requires number { unit.unit < units_of unit.kind }
        requires listed { IsAmong unit.kind (kinds_of self.old.units) }
        requires open { AllOpen self.old.slots (F.state files.old).opened }
        ensures told { AreTold F.tells self.old.slots → AreLinesTold L.tells (L.state lines.old) self.old.lines
            → Does (service (failure_of_stop result) unit) result (beside watch.old keys.now (F.state files.old).files (L.state lines.old)) self.old
            (beside watch.new keys.now (F.state files.new).files (L.state lines.new)) self.new
            S.tells (S.written out.old) (S.written out.new) }
        ensures own { IfSome (unit_note result) (λ n. n.unit ≡ unit) }
        ensures dues { result ≡ None → dues self.new.events ≡ dues self.old.events }
        ensures time { self.new.time ≡ self.old.time }
        ensures counts { StopCounts result (S.fault_count out.old) (S.fault_count out.new) }
        ensures unit { IfSome result HasUnit }
        ensures slots { self.new.slots ≡ self.old.slots }
        ensures covers { MarksCover (attached_files self.old) (attached_files self.new) }
        ensures kinds { kinds_of self.new.units ≡ kinds_of self.old.units }
        ensures lines { LinesGoOn L.tells (L.state lines.old) self.old.lines (L.state lines.new) self.new.lines }
        ensures opened { (F.state files.new).opened ≡ (F.state files.old).opened }
        ensures file_cause { FileCause result self.old.slots (F.state files.old) (F.state files.new) }
        ensures watches { Watches result (moment_of watch.old self.old) (moment_of watch.new self.new) S.tells
            (S.written out.old) (S.written out.new) }
        ensures cause { ServiceCause result keys.now (moment_of watch.old self.old) watch.new self.new }
        ensures breaks { watch.new.breaks ≡ watch.old.breaks }
        ensures steps { IsService keys.now unit result watch.old watch.new self.old self.new }
    {
        let want = self.ask(unit);
        match self.on_line(want, watch, keys, lines) {
            Some(made) => return self.answer_on_line(unit, made, watch),
            None => (),
        }
        match self.host(want, unit, watch, keys, files, out) {
            Hosted::Gets(got) => self.answer(unit, got),
            Hosted::Wru => {
                let _ = self.answer(unit, Got::NoKey);
                Some(Stop::Wru)
            }
            Hosted::Matched(place) => {
                let _ = self.answer(unit, Got::Done);
                Some(Stop::Expect(place))
            }
            Hosted::Stops(stop) => Some(stop),
        }
    }

    /// Asks a unit what it wants.
    #[tactic(auto, unfolding(crate::specs::Service::asked))]
    fn ask(&mut self, unit: UnitName) -> Want
        requires { unit.unit < units_of unit.kind }
        ensures machine { self.new ≡ asked unit self.old }
        ensures want { result ≡ want_at unit self.old }
        ensures hosted { CanBeHosted result unit.kind }
        ensures room { (got : Got) → IsBelowEnd result got → TakesAnswerIn unit.kind got self.new.units }
        ensures slots { self.new.slots ≡ self.old.slots }
        ensures lines { self.new.lines ≡ self.old.lines }
        ensures events { self.new.events ≡ self.old.events }
        ensures kinds { kinds_of self.new.units ≡ kinds_of self.old.units }
        ensures time { self.new.time ≡ self.old.time }
    {
        self.quiet = false;
        wanted(&self.places, self.units.as_mut_slice(), unit)
    }

    /// Gives a unit the machine's answer.
    #[tactic(auto, unfolding(crate::specs::Service::answered))]
    pub(crate) fn answer(&mut self, unit: UnitName, got: Got) -> Option<Stop>
        requires number { unit.unit < units_of unit.kind }
        requires room { TakesAnswerIn unit.kind got self.old.units }
        requires listed { IsAmong unit.kind (kinds_of self.old.units) }
        ensures machine { self.new ≡ (answered unit got self.old).machine }
        ensures stop { result ≡ (answered unit got self.old).stop }
        ensures slots { self.new.slots ≡ self.old.slots }
        ensures kinds { kinds_of self.new.units ≡ kinds_of self.old.units }
        ensures lines { self.new.lines ≡ self.old.lines }
        ensures dues { dues self.new.events ≡ dues self.old.events }
        ensures time { self.new.time ≡ self.old.time }
        ensures other { IsOwn result }
        ensures unit { IfSome result HasUnit }
    {
        let after = self.give(unit, got);
        self.wish(unit, after.queue);
        stop_by(unit, after.stop)
    }

    /// Gives a unit what was done on a line. A byte that was put on the console line may end a text that is waited for.
    fn answer_on_line(&mut self, unit: UnitName, made: OnLine, watch: &mut Watch) -> Option<Stop>
        requires number { unit.unit < units_of unit.kind }
        requires room { TakesAnswerIn unit.kind (got_on made) self.old.units }
        requires listed { IsAmong unit.kind (kinds_of self.old.units) }
        ensures machine { self.new ≡ (answered unit (got_on made) self.old).machine }
        ensures stop { result ≡ first_stop (stop_on made watch.old.expects) (answered unit (got_on made) self.old).stop }
        ensures watch { watch.new ≡ record watch.old { expects = expects_on made watch.old.expects } }
        ensures slots { self.new.slots ≡ self.old.slots }
        ensures kinds { kinds_of self.new.units ≡ kinds_of self.old.units }
        ensures lines { self.new.lines ≡ self.old.lines }
        ensures dues { dues self.new.events ≡ dues self.old.events }
        ensures time { self.new.time ≡ self.old.time }
        ensures other { IsOwn result }
        ensures unit { IfSome result HasUnit }
    {
        match made {
            OnLine::Gets(got) => self.answer(unit, got),
            OnLine::Wru => {
                let _ = self.answer(unit, Got::NoKey);
                Some(Stop::Wru)
            }
            OnLine::Put(byte) => {
                let place = watch.expects.printed(byte);
                let stop = self.answer(unit, Got::Done);
                match place {
                    Some(place) => Some(Stop::Expect(place)),
                    None => stop,
                }
            }
        }
    }

    /// A unit gets an answer.
    fn give(&mut self, unit: UnitName, got: Got) -> After
        requires number { unit.unit < units_of unit.kind }
        requires room { TakesAnswerIn unit.kind got self.old.units }
        ensures machine { self.new ≡ record self.old {
          units = after_at (code_of unit.kind) (Answered unit.unit got) self.old.units;
        } }
        ensures queue { result.queue ≡ (row_at (code_of unit.kind) (Answered unit.unit got) self.old.units).queue }
        ensures stop { result.stop ≡ (row_at (code_of unit.kind) (Answered unit.unit got) self.old.units).stop }
        ensures again { IsAgain result.queue }
        ensures kinds { kinds_of self.new.units ≡ kinds_of self.old.units }
    {
        self.quiet = false;
        got_at(&self.places, self.units.as_mut_slice(), unit, got)
    }

    /// A device's wish, for one of its units, goes to the event queue.
    #[tactic(auto, using(crate::proofs::Listed::listings))]
    pub(crate) fn wish(&mut self, unit: UnitName, queue: Queue)
        requires number { unit.unit < units_of unit.kind }
        requires listed { IsAmong unit.kind (kinds_of self.old.units) }
        ensures machine { self.new ≡ record self.old { events = wished unit queue self.old.events } }
        ensures later { IsLater queue → due self.old.events ≡ None → due self.new.events ≡ None }
        ensures again { IsAgain queue → dues self.new.events ≡ dues self.old.events }
    {
        self.events.wish(unit, queue);
    }
}

/// The key that stops a run: control E.
pub(crate) const WRU: u8 = 5;

/// What the machine made of what a unit wants.
#[derive(Clone, Copy)]
pub(crate) enum Hosted {
    /// The unit gets that answer.
    Gets(Got),
    /// The key that stops a run was taken: the unit gets no key.
    Wru,
    /// The byte was printed, and ends the text of the entry with that place which is waited for: the unit is done.
    Matched(usize),
    /// The unit gets no answer.
    Stops(Stop),
}

impl<U: Unit> Machine<U> {
    ghost use Rattle.unit_files.specs.Attachments.{attachment_at};
    ghost use Rattle.unit_files.specs.Open.{AllOpen};
    ghost use Rattle.nova_machine.specs.Seen.{attached_in};
    ghost use Rattle.nova_machine.specs.Comes.{AreTold, FileCause};
    ghost use Rattle.nova_machine.specs.Hosting.{IsHosted, HasRoom};
    ghost use Rattle.nova_machine.specs.StopCauses.{IsMadeOf, IsPastRoom};
    ghost use Rattle.nova_machine.specs.Service.{done_for};
    ghost use Rattle.nova_machine.specs.Steps.{IsAnswer, worked};
    ghost use Rattle.nova_machine.specs.Machine.{attached_files};
    ghost use Rattle.unit_files.specs.InStep.{MarksCover};

    /// Does what a unit wants of the machine.
    fn host<S: Sink, F: Files>(
        &mut self,
        want: Want,
        unit: UnitName,
        watch: &mut Watch,
        keys: &Keys,
        files: &mut F,
        out: &mut S,
    ) -> Hosted
        requires number { unit.unit < units_of unit.kind }
        requires open { AllOpen self.old.slots (F.state files.old).opened }
        requires kind { CanBeHosted want unit.kind }
        ensures machine { AreTold F.tells self.old.slots → self.new ≡ record (done_for (failure_of_stop (stop_in result))
            (typed_key (due_send self.old.time watch.old.sends) (due_key keys.now self.old.taken self.old.time))
            (attachment_at (attached_in self.old) unit) (F.state files.old).files want self.old) { aside = self.new.aside } }
        ensures covers { MarksCover (attached_files self.old) (attached_files self.new) }
        ensures watch { watch.new ≡ watch_behind self.old.time want result watch.old }
        ensures slots { self.new.slots ≡ self.old.slots }
        ensures lines { self.new.lines ≡ self.old.lines }
        ensures units { self.new.units ≡ self.old.units }
        ensures dues { dues self.new.events ≡ dues self.old.events }
        ensures kinds { kinds_of self.new.units ≡ kinds_of self.old.units }
        ensures time { self.new.time ≡ self.old.time }
        ensures said { AreTold F.tells self.old.slots → IsHosted want (attachment_at (attached_in self.old) unit)
            (F.state files.old).files
            (first_key (due_send self.old.time watch.old.sends) (due_key keys.now self.old.taken self.old.time))
            watch.old.expects result }
        ensures files { AreTold F.tells self.old.slots → (F.state files.new).files
            ≡ files_after (failure_of_stop (stop_in result)) (attachment_at (attached_in self.old) unit)
            self.old.processor.memory (F.state files.old).files want }
        ensures printed { IsTrue S.tells → S.written out.new ≡ S.written out.old ++ bytes_printed want result }
        ensures room { HasRoom want result }
        ensures own { IfSome (unit_note (stop_in result)) (λ n. n.unit ≡ unit) }
        ensures image { IsImageOf unit (stop_in result) }
        ensures unit { IfSome (stop_in result) HasUnit }
        ensures opened { (F.state files.new).opened ≡ (F.state files.old).opened }
        ensures counts { StopCounts (stop_in result) (S.fault_count out.old) (S.fault_count out.new) }
        ensures file_cause { FileCause (stop_in result) self.old.slots (F.state files.old) (F.state files.new) }
        ensures taken { self.new.taken ≡ taken_after self.old.taken
            (typed_key (due_send self.old.time watch.old.sends) (due_key keys.now self.old.taken self.old.time)) want }
        ensures made { IsMadeOf want unit.kind (attachment_at (attached_in self.old) unit)
            (first_key (due_send self.old.time watch.old.sends) (due_key keys.now self.old.taken self.old.time))
            watch.old.expects result }
        ensures room_left { IsPastRoom want result }
        ensures answer { IsAnswer want (attachment_at (attached_in self.old) unit)
            (first_key (due_send self.old.time watch.old.sends) (due_key keys.now self.old.taken self.old.time))
            watch.old.expects result }
        ensures work { self.new ≡ record (worked self.new.processor.memory
            (typed_key (due_send self.old.time watch.old.sends) (due_key keys.now self.old.taken self.old.time))
            (attachment_at (attached_in self.old) unit) want self.old) { aside = self.new.aside } }
    {
        match want {
            Want::Nothing | Want::LinePut { line: _, byte: _ } => Hosted::Gets(Got::Done),
            Want::Key => self.take_key(watch, keys),
            Want::LineKey(_) => Hosted::Gets(Got::NoKey),
            Want::Console(byte) => print(byte, watch, out),
            Want::ReadByte { place } => made_of(self.attached.read_byte(unit, place, files)),
            Want::WriteByte { place, byte } => {
                made_of(self.attached.write_byte(unit, place, byte, files))
            }
            Want::Sector {
                write: false,
                sector,
                address,
            } => self.read_sector(sector, address),
            Want::Sector {
                write: true,
                sector,
                address,
            } => self.write_sector(sector, address),
            Want::Tape(order) => self.move_tape(unit, order, files),
        }
    }

    /// Takes the key that comes, where one does: a byte that was sent is taken before one that is typed.
    fn take_key(&mut self, watch: &mut Watch, keys: &Keys) -> Hosted
        ensures machine { self.new ≡ record self.old {
          taken = taken_after self.old.taken
              (typed_key (due_send self.old.time watch.old.sends) (due_key keys.now self.old.taken self.old.time)) wants.Key;
        } }
        ensures watch { watch.new ≡ watch_after self.old.time wants.Key watch.old }
        ensures taken { result ≡ hosted_key
            (first_key (due_send self.old.time watch.old.sends) (due_key keys.now self.old.taken self.old.time)) }
    {
        match watch.sends.take(self.time) {
            Some(byte) => key_of(Some(byte)),
            None => key_of(self.take_typed(keys)),
        }
    }

    /// Takes the typed key that is due, where one is.
    fn take_typed(&mut self, keys: &Keys) -> Option<u8>
        ensures machine { self.new ≡ record self.old {
          taken = taken_after self.old.taken (due_key keys.now self.old.taken self.old.time) wants.Key;
        } }
        ensures taken { result ≡ due_key keys.now self.old.taken self.old.time }
    {
        let key = keys.due(self.taken, self.time)?;
        self.taken += 1;
        Some(key)
    }
}

/// What a key means for the keyboard, where one came.
fn key_of(key: Option<u8>) -> Hosted
    ensures { result ≡ hosted_key key }
{
    match key {
        None => Hosted::Gets(Got::NoKey),
        Some(WRU) => Hosted::Wru,
        Some(key) => Hosted::Gets(Got::Key(key)),
    }
}

/// Prints a byte on the console, where it may end a text that is waited for.
fn print<S: Sink>(byte: u8, watch: &mut Watch, out: &mut S) -> Hosted
    ensures said { (result ≡ hosted_byte (match_at byte watch.old.expects)) ⊎ (result ≡ Stops ConsoleFault) }
    ensures watch { watch.new ≡ watch_behind 0 (wants.Console byte) result watch.old }
    ensures printed { IsTrue S.tells → S.written out.new ≡ S.written out.old ++ bytes_printed (wants.Console byte) result }
    ensures counts { StopCounts (stop_in result) (S.fault_count out.old) (S.fault_count out.new) }
{
    match put_all(out, &[byte]) {
        Ok(()) => match watch.expects.printed(byte) {
            None => Hosted::Gets(Got::Done),
            Some(place) => Hosted::Matched(place),
        },
        Err(Failed) => Hosted::Stops(Stop::ConsoleFault),
    }
}

/// What a unit wants whose event is due. It is one that the machine can do for it, with an answer that the unit may
/// get.
fn wanted<U: Unit>(places: &Places, units: &mut [U], unit: UnitName) -> Want
    requires places { places.now ≡ places_in (kinds_of (map U.unit_state units.old)) }
    requires number { unit.unit < units_of unit.kind }
    requires fits { AllFit (map U.unit_state units.old) }
    ensures want { result ≡ (row_at (code_of unit.kind) (Due unit.unit) (map U.unit_state units.old)).want }
    ensures units { map U.unit_state units.new
        ≡ after_at (code_of unit.kind) (Due unit.unit) (map U.unit_state units.old) }
    ensures fits { AllFit (map U.unit_state units.new) }
    ensures kinds { kinds_of (map U.unit_state units.new) ≡ kinds_of (map U.unit_state units.old) }
    ensures hosted { CanBeHosted result unit.kind }
    ensures room { (got : Got) → IsBelowEnd result got → TakesAnswerIn unit.kind got (map U.unit_state units.new) }
{
    due_at(places, units, unit)
}

/// What the answer of a call on a byte of its file means for a unit.
fn made_of(answer: ByteAnswer) -> Hosted
    ensures { result ≡ hosted_of answer }
{
    match answer {
        ByteAnswer::Byte(byte) => Hosted::Gets(Got::Byte(byte)),
        ByteAnswer::Written => Hosted::Gets(Got::Done),
        ByteAnswer::End => Hosted::Gets(Got::End),
        ByteAnswer::NoFile => Hosted::Gets(Got::NoFile),
        ByteAnswer::Failed(fault) => Hosted::Stops(Stop::FileFault(fault)),
    }
}

// The stop of a unit that stops the machine.
fn stop_by(unit: UnitName, stop: UnitStop) -> Option<Stop>
    ensures stop { result ≡ stop_by unit stop }
    ensures other { IsOwn result }
    ensures unit { unit.unit < units_of unit.kind → IfSome result HasUnit }
{
    match stop {
        UnitStop::Go => None,
        UnitStop::End => Some(Stop::UnitEnd(unit)),
        UnitStop::NoFile => Some(Stop::UnitNone(unit)),
    }
}
