ghost use Rattle.std.specs.Prelude.{◌≡◌, ◌≤◌};

use unit_trait::{After, Got, IoAnswer, IoOp, Kind, Pulse, Queue, RegFault, Unit, UnitStop, Want};

/// The keyboard of the console, or of the second terminal.
#[derive(Drop)]
pub struct Keys {
    second: bool,
    busy: bool,
    done: bool,
    time: u16,
    buf: u8,
    ghost time_some: { 1 ≤ time },
    ghost time_range: { time ≤ 65535 },
    ghost buf_range: { buf ≤ 255 },
}

impl Keys {
    pub fn new(second: bool) -> Keys {
        Keys {
            second,
            busy: false,
            done: false,
            time: 100,
            buf: 0,
        }
    }
}

#[tactic(auto, unfolding(unit_trait::specs::Row::row_of, unit_trait::specs::Keyboard::keyboard_row))]
impl Unit for Keys {
    ghost use Rattle.std.specs.Prelude.{if◌then◌else◌, List, [], ◌∷◌};
    ghost use Rattle.unit_trait.specs.declared.kind.Kind.TheVariants.{Tti, Tti1};

    ghost unit_state = { λ k. record {
      kind = if k.second then Tti1 else Tti;
      registers = (if k.busy then 1 else 0) ∷ (if k.done then 1 else 0) ∷ k.time ∷ k.buf ∷ [];
    } };

    fn kind(&self) -> Kind {
        if self.second { Kind::Tti1 } else { Kind::Tti }
    }

    fn reg(&self, i: u8) -> u32 {
        match i {
            0 => u32::from(self.busy),
            1 => u32::from(self.done),
            2 => u32::from(self.time),
            3 => u32::from(self.buf),
            _ => 0,
        }
    }

    fn set_reg(&mut self, i: u8, value: u32) -> Result<(), RegFault> {
        match (i, value) {
            (0, 0..=1) => self.busy = value == 1,
            (1, 0..=1) => self.done = value == 1,
            (2, 1..=65535) => self.time = value as u16,
            (3, 0..=0o377) => self.buf = value as u8,
            _ => return Err(RegFault::OutOfRange),
        }
        Ok(())
    }

    fn io(&mut self, op: IoOp, pulse: Pulse, _word: u16) -> IoAnswer {
        let input = match op {
            IoOp::Dia => u16::from(self.buf),
            _ => 0,
        };
        match pulse {
            Pulse::Start => {
                self.busy = true;
                self.done = false;
            }
            Pulse::Clear => {
                self.busy = false;
                self.done = false;
            }
            _ => {}
        }
        IoAnswer {
            word: input,
            queue: Queue::Keep,
            unit: 0,
        }
    }

    fn due(&mut self, _unit: u8) -> Want {
        if self.second {
            Want::LineKey(0)
        } else {
            Want::Key
        }
    }

    fn got(&mut self, _unit: u8, got: Got) -> After {
        let queue = match got {
            Got::Key(byte) => {
                self.buf = byte;
                self.busy = false;
                self.done = true;
                Queue::After(u32::from(self.time))
            }
            Got::NoKey => Queue::After(u32::from(self.time)),
            _ => Queue::Keep,
        };
        After {
            queue,
            stop: UnitStop::Go,
        }
    }

    fn reset(&mut self) -> Queue {
        self.busy = false;
        self.done = false;
        Queue::After(u32::from(self.time))
    }
}
