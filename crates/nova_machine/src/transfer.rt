// The words of input and output, one method for each definition of one.
ghost use Rattle.std.specs.Prelude.{◌≡◌, ◌<◌, ◌+◌, None, IfSome, option_map, is_some, slice_index, true, false};
ghost use Rattle.event_queue.specs.EventList.{due};
ghost use Rattle.nova_machine.specs.Run.{last_time};
ghost use Rattle.nova_machine.specs.Transfer.{op_of, pulse_of};

use crate::instruction_end::InstructionEnd;
use crate::machine::Machine;
use nova_word::Word;
use unit_list::{BusAnswer, flags_at, io_at};
use unit_trait::{IoOp, Pulse, Unit, UnitName};

// The function of a word, but for a skip.
fn op_of(function: u16) -> IoOp
    ensures { result ≡ op_of function }
{
    match function {
        0 => IoOp::Nio,
        1 => IoOp::Dia,
        2 => IoOp::Doa,
        3 => IoOp::Dib,
        4 => IoOp::Dob,
        5 => IoOp::Dic,
        _ => IoOp::Doc,
    }
}

fn pulse_of(bits: u16) -> Pulse
    ensures { result ≡ pulse_of bits }
{
    match bits {
        0 => Pulse::None,
        1 => Pulse::Start,
        2 => Pulse::Clear,
        _ => Pulse::Pulse,
    }
}

impl<U: Unit> Machine<U> {
    ghost use Rattle.unit_list.specs.Bus.{unit_at, row_at, after_at, kinds_of};
    ghost use Rattle.nova_machine.specs.Core.{IsAmong};
    ghost use Rattle.nova_machine.specs.Ends.{end_stop};
    ghost use Rattle.nova_machine.specs.Transfer.{transfer, to_device, to_unit, flags_in, asked_unit, to_processor};
    ghost use Rattle.nova_machine.specs.Transfer.{central, central_function, central_pulse, mask_set};
    ghost use Rattle.nova_machine.specs.Machine.{on_processor};
    ghost use Rattle.nova_processor.specs.InputOutput.{multiply_divide, unanswered, tested, past, passed};
    ghost use Rattle.nova_word.specs.Bits.{bits};
    ghost use Rattle.event_queue.specs.EventList.{wished};
    ghost use Rattle.unit_trait.specs.Kinds.{units_of};
    ghost use Rattle.unit_trait.specs.Calls.{Io};
    ghost use Rattle.unit_trait.specs.Row.{IsLater};

    /// Executes a word of input and output.
    #[inline]
    #[tactic(auto, unfolding(crate::specs::Transfer::transfer))]
    pub(crate) fn transfer(&mut self, word: Word) -> InstructionEnd
        requires time { self.old.time < last_time }
        requires none { due self.old.events ≡ None }
        ensures machine { self.new ≡ (transfer word self.old).machine }
        ensures answer { end_stop result ≡ (transfer word self.old).stop }
        ensures time { end_stop result ≡ None → self.new.time ≡ self.old.time + 1 }
    {
        match word.0 % 64 {
            1 => {
                self.begin();
                self.multiply_divide(word.0);
                self.tick();
                InstructionEnd::Executed
            }
            0o77 => self.to_processor(word.0),
            code => self.to_device(code as u8, word.0),
        }
    }

    /// A word to device 1.
    fn multiply_divide(&mut self, word: u16)
        ensures { self.new ≡ on_processor (multiply_divide word) self.old }
    {
        self.processor.multiply_divide(word);
    }

    /// A word to a device other than 1 and 77, which may be there.
    #[inline(never)]
    #[tactic(auto, unfolding(crate::specs::Transfer::to_device))]
    fn to_device(&mut self, code: u8, word: u16) -> InstructionEnd
        requires time { self.old.time < last_time }
        requires none { due self.old.events ≡ None }
        ensures machine { self.new ≡ (to_device code word self.old).machine }
        ensures answer { end_stop result ≡ (to_device code word self.old).stop }
        ensures time { end_stop result ≡ None → self.new.time ≡ self.old.time + 1 }
    {
        if self.to_unit(code, word) {
            self.begin();
            self.tick();
            InstructionEnd::Executed
        } else if self.stop_dev {
            InstructionEnd::UnknownDevice
        } else {
            self.begin();
            self.pass(word);
            self.tick();
            InstructionEnd::Executed
        }
    }

    /// A word that nothing answers.
    fn pass(&mut self, word: u16)
        ensures { self.new ≡ on_processor (unanswered word) self.old }
    {
        self.processor.unanswered(word);
    }

    /// A word to a unit. Answers whether the unit is there.
    #[tactic(auto, unfolding(crate::specs::Transfer::to_unit))]
    fn to_unit(&mut self, code: u8, word: u16) -> bool
        requires none { due self.old.events ≡ None }
        ensures there { result ≡ is_some (unit_at code self.old.units) }
        ensures machine { result ≡ true → self.new ≡ to_unit code word self.old }
        ensures same { result ≡ false → self.new ≡ self.old }
        ensures none { due self.new.events ≡ None }
        ensures time { self.new.time ≡ self.old.time }
    {
        if (word >> 8) & 7 == 7 {
            self.test_unit(code, word)
        } else {
            self.ask_unit(code, word)
        }
    }

    /// A skip that looks at the flags of a unit. Answers whether the unit is there.
    fn test_unit(&mut self, code: u8, word: u16) -> bool
        ensures there { result ≡ is_some (unit_at code self.old.units) }
        ensures machine { result ≡ true → self.new ≡ on_processor (tested (bits 8 9 word) (flags_in code self.old).busy
            (flags_in code self.old).done) self.old }
        ensures same { result ≡ false → self.new ≡ self.old }
        ensures events { self.new.events ≡ self.old.events }
        ensures time { self.new.time ≡ self.old.time }
    {
        match flags_at(&self.places, self.units.as_slice(), code) {
            None => false,
            Some(flags) => {
                self.processor.test((word >> 6) & 3, flags.busy, flags.done);
                true
            }
        }
    }

    /// The function and the pulse of a word go to a unit. Answers whether the unit is there.
    #[tactic(auto, unfolding(crate::specs::Transfer::asked_unit))]
    fn ask_unit(&mut self, code: u8, word: u16) -> bool
        requires none { due self.old.events ≡ None }
        ensures there { result ≡ is_some (unit_at code self.old.units) }
        ensures machine { result ≡ true → self.new ≡ asked_unit code word self.old }
        ensures same { result ≡ false → self.new ≡ self.old }
        ensures none { due self.new.events ≡ None }
        ensures time { self.new.time ≡ self.old.time }
    {
        let op = op_of((word >> 8) & 7);
        let pulse = pulse_of((word >> 6) & 3);
        let sent = self.processor.accumulator(usize::from((word >> 11) & 3));
        match self.call_unit(code, op, pulse, sent) {
            None => false,
            Some(said) => {
                self.take_answer(word, said);
                true
            }
        }
    }

    /// A function and a pulse go to a unit.
    fn call_unit(&mut self, code: u8, op: IoOp, pulse: Pulse, sent: u16) -> Option<BusAnswer>
        ensures machine { self.new ≡ record self.old { units = after_at code (Io op pulse sent) self.old.units } }
        ensures none { result ≡ None → self.new ≡ self.old }
        ensures kind { option_map (λ a. a.kind) result ≡ option_map (λ u. u.kind) (unit_at code self.old.units) }
        ensures word { IfSome result (λ a. a.answer.word ≡ (row_at code (Io op pulse sent) self.old.units).word) }
        ensures queue { IfSome result (λ a. a.answer.queue ≡ (row_at code (Io op pulse sent) self.old.units).queue) }
        ensures unit { IfSome result (λ a. a.answer.unit ≡ (row_at code (Io op pulse sent) self.old.units).unit) }
        ensures later { IfSome result (λ a. IsLater a.answer.queue) }
        ensures low { IfSome result (λ a. a.answer.unit < units_of a.kind) }
        ensures listed { IfSome result (λ a. IsAmong a.kind (kinds_of self.old.units)) }
        ensures kinds { kinds_of self.new.units ≡ kinds_of self.old.units }
    {
        self.quiet = !self.ints.on;
        io_at(
            &self.places,
            self.units.as_mut_slice(),
            code,
            op,
            pulse,
            sent,
        )
    }

    /// Goes on behind a word that is no skip, with the word that an input answers.
    fn pass_input(&mut self, word: u16, answer: u16)
        ensures machine { self.new ≡ on_processor (passed (bits 5 7 word) (bits 3 4 word) answer) self.old }
        ensures events { self.new.events ≡ self.old.events }
        ensures time { self.new.time ≡ self.old.time }
    {
        self.processor
            .pass((word >> 8) & 7, usize::from((word >> 11) & 3), answer);
    }

    /// What a unit answers goes into the accumulator, where the word is an input, and its wish to the event queue.
    fn take_answer(&mut self, word: u16, said: BusAnswer)
        requires none { due self.old.events ≡ None }
        requires low { said.answer.unit < units_of said.kind }
        requires listed { IsAmong said.kind (kinds_of self.old.units) }
        requires later { IsLater said.answer.queue }
        ensures machine { self.new ≡ record self.old {
          events = wished (record { kind = said.kind; unit = said.answer.unit }) said.answer.queue self.old.events;
          processor = passed (bits 5 7 word) (bits 3 4 word) said.answer.word self.old.processor;
        } }
        ensures none { due self.new.events ≡ None }
        ensures time { self.new.time ≡ self.old.time }
    {
        let BusAnswer { kind, answer } = said;
        let unit = UnitName {
            kind,
            unit: answer.unit,
        };
        self.wish(unit, answer.queue);
        self.pass_input(word, answer.word);
    }

    /// A word to device 77, the processor itself.
    #[inline(never)]
    #[tactic(auto, unfolding(crate::specs::Transfer::to_processor, crate::specs::Turned::begun))]
    fn to_processor(&mut self, word: u16) -> InstructionEnd
        requires time { self.old.time < last_time }
        requires none { due self.old.events ≡ None }
        ensures machine { self.new ≡ (to_processor word self.old).machine }
        ensures answer { end_stop result ≡ (to_processor word self.old).stop }
        ensures time { end_stop result ≡ None → self.new.time ≡ self.old.time + 1 }
    {
        self.begin();
        let function = (word >> 8) & 7;
        if function == 7 {
            self.test_interrupts((word >> 6) & 3);
            self.tick();
            return InstructionEnd::Executed;
        }
        self.central(word);
        self.tick();
        if function == 6 {
            InstructionEnd::Halt
        } else {
            InstructionEnd::Executed
        }
    }

    /// A skip that looks at whether interrupts are on.
    fn test_interrupts(&mut self, test: u16)
        ensures { self.new ≡ on_processor (tested test self.old.ints.on false) self.old }
    {
        self.processor.test(test, self.ints.on, false);
    }

    /// The function and the pulse of a word to the processor itself.
    #[tactic(auto, unfolding(crate::specs::Transfer::central))]
    fn central(&mut self, word: u16)
        requires none { due self.old.events ≡ None }
        ensures machine { self.new ≡ central word self.old }
        ensures none { due self.new.events ≡ None }
        ensures time { self.new.time ≡ self.old.time }
    {
        self.central_function((word >> 8) & 7, usize::from((word >> 11) & 3));
        self.central_pulse((word >> 6) & 3);
    }

    #[tactic(auto, unfolding(crate::specs::Transfer::central_function))]
    fn central_function(&mut self, function: u16, accumulator: usize)
        requires accumulator { accumulator < 4 }
        requires none { due self.old.events ≡ None }
        ensures machine { self.new ≡ central_function function accumulator self.old }
        ensures none { due self.new.events ≡ None }
        ensures time { self.new.time ≡ self.old.time }
    {
        match function {
            1 => self.processor.input(accumulator, self.sr.0),
            3 => {
                let code = self.ints.acknowledge(self.units.as_slice());
                self.processor.input(accumulator, code);
            }
            4 => {
                self.set_mask(accumulator);
                self.go_past();
            }
            5 => {
                self.reset_devices();
                self.go_past();
            }
            _ => self.go_past(),
        }
    }

    /// Goes on behind a word that does nothing to the processor.
    fn go_past(&mut self)
        ensures machine { self.new ≡ on_processor past self.old }
        ensures events { self.new.events ≡ self.old.events }
        ensures time { self.new.time ≡ self.old.time }
    {
        self.processor.go_past();
    }

    fn set_mask(&mut self, accumulator: usize)
        requires { accumulator < 4 }
        ensures machine { self.new ≡ mask_set (slice_index self.old.processor.cpu.accumulators accumulator) self.old }
        ensures events { self.new.events ≡ self.old.events }
        ensures time { self.new.time ≡ self.old.time }
    {
        let mask = self.processor.accumulator(accumulator);
        self.quiet = false;
        self.ints.mask_out(mask);
    }

    #[tactic(auto, unfolding(crate::specs::Transfer::central_pulse))]
    fn central_pulse(&mut self, bits: u16)
        ensures machine { self.new ≡ central_pulse bits self.old }
        ensures events { self.new.events ≡ self.old.events }
        ensures time { self.new.time ≡ self.old.time }
    {
        self.quiet = false;
        match bits {
            1 => self.ints.enable(),
            2 => self.ints.disable(),
            _ => (),
        }
    }
}
