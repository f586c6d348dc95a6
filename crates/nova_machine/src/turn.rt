ghost use Rattle.std.specs.Prelude.{◌≡◌, ◌<◌, ◌+◌, ℕ, List, true, false, None, IfSome};
ghost use Rattle.file_traits.specs.Lists.{NamedBytes};
ghost use Rattle.host_lines.specs.Traffic.{Answer};
ghost use Rattle.host_lines.specs.State.{LineState};
ghost use Rattle.event_queue.specs.EventList.{due};
ghost use Rattle.nova_machine.specs.Comes.{IsOwn};
ghost use Rattle.nova_machine.specs.Notes.{unit_note};
ghost use Rattle.nova_machine.specs.Run.{last_time};
ghost use Rattle.nova_machine.specs.Wants.{HasUnit};

use crate::instruction_end::InstructionEnd;
use crate::machine::{Machine, Stop, Turn};
use expect_actions::{Keys, Watch};
use file_traits::{Files, Sink};
use host_lines::Lines;
use nova_memory::ChainLimit;
use nova_word::{Addr, Word};
use unit_trait::Unit;

/// JMP @1, by which an interrupt is entered.
const JMP_THROUGH_1: Word = Word(0o2001);

impl<U: Unit> Machine<U> {
    ghost use Rattle.nova_machine.specs.Machine.{attached_files};
    ghost use Rattle.unit_files.specs.InStep.{MarksCover};
    ghost use Rattle.nova_machine.specs.Seen.{seen, beside};
    ghost use Rattle.nova_machine.specs.Parts.{stop_of, silent};
    ghost use Rattle.nova_machine.specs.Ends.{end_stop};
    ghost use Rattle.nova_machine.specs.Comes.{Does, AreTold, StopCounts, FileCause};
    ghost use Rattle.nova_machine.specs.StopCauses.{moment_of, Watches, AreCountedDown, TestCause, EntryCause};
    ghost use Rattle.nova_machine.specs.StopCauses.{InstructionCause, AttendedCause, EarlyCause, TurnCause};
    ghost use Rattle.nova_machine.specs.Steps.{ComesTo, IsTurn, entered, break_tested, made_ready};
    ghost use Rattle.nova_machine.specs.LineChanges.{AreLinesTold, LinesGoOn};
    ghost use Rattle.unit_files.specs.Open.{AllOpen};
    ghost use Rattle.unit_list.specs.Bus.{kinds_of};
    ghost use Rattle.nova_machine.specs.Quiet.{IsPlain};
    ghost use Rattle.nova_machine.specs.Machine.{on_processor};
    ghost use Rattle.nova_processor.specs.Instruction.{arithmetic, memory_reference};
    ghost use Rattle.nova_machine.specs.Turned.{begun, ticked};
    ghost use Rattle.nova_machine.specs.Turn.{refer, execute, fetch, enter, interrupt, breaks_tested, attended, prepared, turn, is_interrupted};

    /// A turn. First the units are served whose events are due, in the order of their events. Then, where interrupts
    /// are on and do not wait and a unit asks for one, it is entered: interrupts go off, PC goes to location 0, and the
    /// program goes on as by JMP @1. Then the breaks are tested at PC, unless this is the first turn of a run, which
    /// `first` says. Then the word at PC is executed, which takes one instruction of time and clears `Hold`.
    ///
    /// A unit reads and writes the file that is attached to it. The keyboard takes the first byte that was sent to it,
    /// if that is due, and else the first of the keys that is due. A byte that is printed on the console may end a text
    /// that is waited for, and then the turn ends behind its service.
    ///
    /// Where a service stops, the turn ends there. After a stop as `ChainLimit` or `UnknownDevice` the registers of the
    /// processor, `Hold` among them, and the time are as they were before the instruction, or the interrupt.
    #[inline]
    #[tactic(auto, unfolding(crate::specs::Turn::turn))]
    pub fn turn<S: Sink, F: Files, L: Lines>(
        &mut self,
        first: bool,
        watch: &mut Watch,
        keys: &Keys,
        files: &mut F,
        lines: &mut L,
        out: &mut S,
    ) -> Turn
        requires early { self.old.time < last_time }
        requires open { AllOpen self.old.slots (F.state files.old).opened }
        ensures told { AreTold F.tells self.old.slots → AreLinesTold L.tells (L.state lines.old) self.old.lines
            → Does (turn (unit_note (stop_of result)) first) (stop_of result) (beside watch.old keys.now (F.state files.old).files (L.state lines.old)) self.old
            (beside watch.new keys.now (F.state files.new).files (L.state lines.new)) self.new
            S.tells (S.written out.old) (S.written out.new) }
        ensures time { stop_of result ≡ None → self.new.time ≡ self.old.time + 1 }
        ensures fault { IfSome (unit_note (stop_of result)) (λ n. self.new.time ≡ self.old.time) }
        ensures counts { StopCounts (stop_of result) (S.fault_count out.old) (S.fault_count out.new) }
        ensures unit { IfSome (stop_of result) HasUnit }
        ensures slots { self.new.slots ≡ self.old.slots }
        ensures covers { MarksCover (attached_files self.old) (attached_files self.new) }
        ensures kinds { kinds_of self.new.units ≡ kinds_of self.old.units }
        ensures lines { LinesGoOn L.tells (L.state lines.old) self.old.lines (L.state lines.new) self.new.lines }
        ensures opened { (F.state files.new).opened ≡ (F.state files.old).opened }
        ensures file_cause { FileCause (stop_of result) self.old.slots (F.state files.old) (F.state files.new) }
        ensures watches { Watches (stop_of result) (moment_of watch.old self.old) (moment_of watch.new self.new) S.tells
            (S.written out.old) (S.written out.new) }
        ensures cause { TurnCause first (stop_of result) keys.now (moment_of watch.old self.old) watch.new self.new }
        ensures steps { IsTurn first keys.now (stop_of result) watch.old watch.new self.old self.new }
    {
        match self.prepare(first, watch, keys, files, lines, out) {
            Some(stop) => Turn::Stopped(stop),
            None => self.fetch().turn(),
        }
    }

    /// What comes before the instruction.
    #[inline]
    #[tactic(auto, unfolding(crate::specs::Turn::prepared))]
    fn prepare<S: Sink, F: Files, L: Lines>(
        &mut self,
        first: bool,
        watch: &mut Watch,
        keys: &Keys,
        files: &mut F,
        lines: &mut L,
        out: &mut S,
    ) -> Option<Stop>
        requires open { AllOpen self.old.slots (F.state files.old).opened }
        ensures told { AreTold F.tells self.old.slots → AreLinesTold L.tells (L.state lines.old) self.old.lines
            → Does (prepared (unit_note result) first) result (beside watch.old keys.now (F.state files.old).files (L.state lines.old)) self.old
            (beside watch.new keys.now (F.state files.new).files (L.state lines.new)) self.new
            S.tells (S.written out.old) (S.written out.new) }
        ensures rest { result ≡ None → due self.new.events ≡ None }
        ensures time { self.new.time ≡ self.old.time }
        ensures counts { StopCounts result (S.fault_count out.old) (S.fault_count out.new) }
        ensures unit { IfSome result HasUnit }
        ensures slots { self.new.slots ≡ self.old.slots }
        ensures covers { MarksCover (attached_files self.old) (attached_files self.new) }
        ensures kinds { kinds_of self.new.units ≡ kinds_of self.old.units }
        ensures lines { LinesGoOn L.tells (L.state lines.old) self.old.lines (L.state lines.new) self.new.lines }
        ensures opened { (F.state files.new).opened ≡ (F.state files.old).opened }
        ensures file_cause { FileCause result self.old.slots (F.state files.old) (F.state files.new) }
        ensures watches { Watches result (moment_of watch.old self.old) (moment_of watch.new self.new) S.tells
            (S.written out.old) (S.written out.new) }
        ensures cause { EarlyCause first result keys.now (moment_of watch.old self.old) watch.new self.new }
        ensures steps { ComesTo (made_ready first) keys.now result watch.old watch.new self.old self.new }
    {
        match self.come_to(watch, keys, files, lines, out) {
            Some(stop) => Some(stop),
            None if first => None,
            None => self.test_breaks(watch),
        }
    }

    /// Tests the breaks at PC.
    #[inline]
    #[tactic(auto, unfolding(crate::specs::Turn::breaks_tested))]
    fn test_breaks(&self, watch: &mut Watch) -> Option<Stop>
        ensures told { (keys : List (ℕ × ℕ)) (files : List NamedBytes) (lines : LineState) (whole : List Answer) →
            breaks_tested (seen (beside watch.old keys files lines) whole self.now)
            ≡ silent result (seen (beside watch.new keys files lines) whole self.now) }
        ensures other { IsOwn result }
        ensures unit { IfSome result HasUnit }
        ensures rest { watch.new ≡ record watch.old { breaks = watch.new.breaks } }
        ensures lowered { AreCountedDown watch.old.breaks.list watch.new.breaks.list }
        ensures cause { TestCause result self.now.processor.cpu.pc watch.old.breaks watch.new.breaks }
        ensures tested { break_tested false watch.old self.now
            ≡ record { watch = watch.new; machine = self.now; stop = result } }
    {
        watch.breaks.test(self.processor.cpu.pc).map(Stop::Break)
    }

    /// The services, and the interrupt: nothing, where the turn is plain.
    #[inline]
    fn come_to<S: Sink, F: Files, L: Lines>(
        &mut self,
        watch: &mut Watch,
        keys: &Keys,
        files: &mut F,
        lines: &mut L,
        out: &mut S,
    ) -> Option<Stop>
        requires open { AllOpen self.old.slots (F.state files.old).opened }
        ensures told { AreTold F.tells self.old.slots → AreLinesTold L.tells (L.state lines.old) self.old.lines
            → Does (attended (unit_note result)) result (beside watch.old keys.now (F.state files.old).files (L.state lines.old)) self.old
            (beside watch.new keys.now (F.state files.new).files (L.state lines.new)) self.new
            S.tells (S.written out.old) (S.written out.new) }
        ensures rest { result ≡ None → due self.new.events ≡ None }
        ensures time { self.new.time ≡ self.old.time }
        ensures counts { StopCounts result (S.fault_count out.old) (S.fault_count out.new) }
        ensures unit { IfSome result HasUnit }
        ensures slots { self.new.slots ≡ self.old.slots }
        ensures covers { MarksCover (attached_files self.old) (attached_files self.new) }
        ensures kinds { kinds_of self.new.units ≡ kinds_of self.old.units }
        ensures lines { LinesGoOn L.tells (L.state lines.old) self.old.lines (L.state lines.new) self.new.lines }
        ensures opened { (F.state files.new).opened ≡ (F.state files.old).opened }
        ensures file_cause { FileCause result self.old.slots (F.state files.old) (F.state files.new) }
        ensures watches { Watches result (moment_of watch.old self.old) (moment_of watch.new self.new) S.tells
            (S.written out.old) (S.written out.new) }
        ensures breaks { watch.new.breaks ≡ watch.old.breaks }
        ensures cause { AttendedCause result keys.now (moment_of watch.old self.old) watch.new self.new }
        ensures steps { ComesTo entered keys.now result watch.old watch.new self.old self.new }
    {
        if self.is_plain() {
            None
        } else {
            self.attend(watch, keys, files, lines, out)
        }
    }

    /// Whether the turn is an instruction alone.
    #[inline]
    fn is_plain(&self) -> bool
        ensures { result ≡ true → IsPlain self.now }
    {
        !self.events.may_be_due() && self.quiet
    }

    /// The services, and the interrupt.
    #[inline(never)]
    #[tactic(auto, unfolding(crate::specs::Turn::attended))]
    fn attend<S: Sink, F: Files, L: Lines>(
        &mut self,
        watch: &mut Watch,
        keys: &Keys,
        files: &mut F,
        lines: &mut L,
        out: &mut S,
    ) -> Option<Stop>
        requires open { AllOpen self.old.slots (F.state files.old).opened }
        ensures told { AreTold F.tells self.old.slots → AreLinesTold L.tells (L.state lines.old) self.old.lines
            → Does (attended (unit_note result)) result (beside watch.old keys.now (F.state files.old).files (L.state lines.old)) self.old
            (beside watch.new keys.now (F.state files.new).files (L.state lines.new)) self.new
            S.tells (S.written out.old) (S.written out.new) }
        ensures rest { result ≡ None → due self.new.events ≡ None }
        ensures time { self.new.time ≡ self.old.time }
        ensures counts { StopCounts result (S.fault_count out.old) (S.fault_count out.new) }
        ensures unit { IfSome result HasUnit }
        ensures slots { self.new.slots ≡ self.old.slots }
        ensures covers { MarksCover (attached_files self.old) (attached_files self.new) }
        ensures kinds { kinds_of self.new.units ≡ kinds_of self.old.units }
        ensures lines { LinesGoOn L.tells (L.state lines.old) self.old.lines (L.state lines.new) self.new.lines }
        ensures opened { (F.state files.new).opened ≡ (F.state files.old).opened }
        ensures file_cause { FileCause result self.old.slots (F.state files.old) (F.state files.new) }
        ensures watches { Watches result (moment_of watch.old self.old) (moment_of watch.new self.new) S.tells
            (S.written out.old) (S.written out.new) }
        ensures breaks { watch.new.breaks ≡ watch.old.breaks }
        ensures cause { AttendedCause result keys.now (moment_of watch.old self.old) watch.new self.new }
        ensures steps { ComesTo entered keys.now result watch.old watch.new self.old self.new }
    {
        match self.serve(watch, keys, files, lines, out) {
            Some(stop) => Some(stop),
            None => self.interrupt(),
        }
    }

    /// Enters an interrupt, where one comes, and notes whether one can come later.
    #[tactic(auto, unfolding(crate::specs::Turn::interrupt))]
    fn interrupt(&mut self) -> Option<Stop>
        ensures machine { self.new ≡ (interrupt self.old).machine }
        ensures stop { result ≡ (interrupt self.old).stop }
        ensures other { IsOwn result }
        ensures slots { self.new.slots ≡ self.old.slots }
        ensures kinds { kinds_of self.new.units ≡ kinds_of self.old.units }
        ensures lines { self.new.lines ≡ self.old.lines }
        ensures unit { IfSome result HasUnit }
        ensures events { self.new.events ≡ self.old.events }
        ensures time { self.new.time ≡ self.old.time }
        ensures taken { self.new.taken ≡ self.old.taken }
        ensures cause { EntryCause result self.new }
    {
        if self.is_interrupted() {
            self.enter()
        } else {
            self.settle();
            None
        }
    }

    fn is_interrupted(&self) -> bool
        ensures { result ≡ is_interrupted self.now }
    {
        self.ints.on && !self.ints.hold && self.ints.requested(self.units.as_slice())
    }

    /// Notes whether an interrupt can come.
    fn settle(&mut self)
        ensures { self.new ≡ self.old }
    {
        let asked = self.ints.on && self.ints.requested(self.units.as_slice());
        self.quiet = !asked;
    }

    /// Enters an interrupt.
    #[tactic(auto, unfolding(crate::specs::Turn::enter))]
    fn enter(&mut self) -> Option<Stop>
        ensures machine { self.new ≡ (enter self.old).machine }
        ensures stop { result ≡ (enter self.old).stop }
        ensures other { IsOwn result }
        ensures slots { self.new.slots ≡ self.old.slots }
        ensures kinds { kinds_of self.new.units ≡ kinds_of self.old.units }
        ensures lines { self.new.lines ≡ self.old.lines }
        ensures unit { IfSome result HasUnit }
        ensures events { self.new.events ≡ self.old.events }
        ensures time { self.new.time ≡ self.old.time }
        ensures taken { self.new.taken ≡ self.old.taken }
    {
        self.ints.on = false;
        match self.processor.follow_interrupt(JMP_THROUGH_1) {
            Err(ChainLimit) => Some(Stop::ChainLimit),
            Ok(address) => {
                self.processor.cpu.pc = address;
                None
            }
        }
    }

    #[inline]
    #[tactic(auto, unfolding(crate::specs::Turn::fetch))]
    fn fetch(&mut self) -> InstructionEnd
        requires time { self.old.time < last_time }
        requires none { due self.old.events ≡ None }
        ensures machine { self.new ≡ (fetch self.old).machine }
        ensures answer { end_stop result ≡ (fetch self.old).stop }
        ensures slots { self.new.slots ≡ self.old.slots }
        ensures kinds { kinds_of self.new.units ≡ kinds_of self.old.units }
        ensures lines { self.new.lines ≡ self.old.lines }
        ensures time { end_stop result ≡ None → self.new.time ≡ self.old.time + 1 }
        ensures taken { self.new.taken ≡ self.old.taken }
        ensures cause { InstructionCause (end_stop result) self.old.time self.new }
    {
        let word = self.processor.memory.read(self.processor.cpu.pc);
        self.execute(word)
    }

    /// Notes that an instruction is executed, before it does its own work: interrupts that waited for one wait no
    /// longer.
    #[inline]
    #[tactic(auto, unfolding(crate::specs::Turned::begun))]
    pub(crate) fn begin(&mut self)
        ensures machine { self.new ≡ begun self.old }
        ensures events { self.new.events ≡ self.old.events }
        ensures time { self.new.time ≡ self.old.time }
    {
        self.ints.release();
    }

    /// Lets time pass, behind an instruction. Arithmetic and memory references, which don't see the time, let it pass
    /// before their own work: that is the same, and up to a tenth faster.
    #[inline]
    #[tactic(auto, using(crate::proofs::Listed::listings), unfolding(crate::specs::Turned::ticked))]
    pub(crate) fn tick(&mut self)
        requires time { self.old.time < last_time }
        requires none { due self.old.events ≡ None }
        ensures machine { self.new ≡ ticked self.old }
        ensures time { self.new.time ≡ self.old.time + 1 }
    {
        self.time += 1;
        self.events.tick();
    }

    /// Does the own work of an arithmetic or logical instruction.
    #[inline]
    fn arithmetic(&mut self, word: Word)
        ensures machine { self.new ≡ on_processor (arithmetic word) self.old }
        ensures time { self.new.time ≡ self.old.time }
    {
        self.processor.arithmetic(word);
    }

    /// Does the own work of a memory reference at its effective address.
    #[inline]
    fn memory_reference(&mut self, word: u16, address: Addr)
        ensures machine { self.new ≡ on_processor (memory_reference word address) self.old }
        ensures time { self.new.time ≡ self.old.time }
    {
        self.processor.memory_reference(word, address);
    }

    #[tactic(auto, unfolding(crate::specs::Turn::execute, crate::specs::Turned::begun, crate::specs::Turned::ticked))]
    fn execute(&mut self, word: Word) -> InstructionEnd
        requires time { self.old.time < last_time }
        requires none { due self.old.events ≡ None }
        ensures machine { self.new ≡ (execute word self.old).machine }
        ensures answer { end_stop result ≡ (execute word self.old).stop }
        ensures time { end_stop result ≡ None → self.new.time ≡ self.old.time + 1 }
    {
        if word.0 < 0o60000 {
            self.refer(word)
        } else if word.0 < 0o100000 {
            self.transfer(word)
        } else {
            self.begin();
            self.tick();
            self.arithmetic(word);
            InstructionEnd::Executed
        }
    }

    /// Executes a memory reference.
    #[tactic(auto, unfolding(crate::specs::Turn::refer, crate::specs::Turned::begun, crate::specs::Turned::ticked))]
    fn refer(&mut self, word: Word) -> InstructionEnd
        requires time { self.old.time < last_time }
        requires none { due self.old.events ≡ None }
        ensures machine { self.new ≡ (refer word self.old).machine }
        ensures answer { end_stop result ≡ (refer word self.old).stop }
        ensures time { end_stop result ≡ None → self.new.time ≡ self.old.time + 1 }
    {
        let acs = self.processor.cpu.accumulators;
        match self
            .processor
            .memory
            .address(word, self.processor.cpu.pc, acs)
        {
            Err(ChainLimit) => InstructionEnd::ChainLimit,
            Ok(address) => {
                self.begin();
                self.tick();
                self.memory_reference(word.0, address);
                InstructionEnd::Executed
            }
        }
    }
}
