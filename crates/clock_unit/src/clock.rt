ghost use Rattle.std.specs.Prelude.{◌≡◌, ◌≤◌};

use unit_trait::{After, Got, IoAnswer, IoOp, Kind, Pulse, Queue, RegFault, Unit, UnitStop, Want};

/// How many instructions pass to a tick, by SEL.
const PERIODS: [u32; 4] = [16000, 100000, 10000, 1000];

/// The real-time clock: CLK, device 14 (How to Use the Nova Computers, "Real-Time Clock"). Each time that it is started
/// it ticks once, when the period that SEL chooses has passed.
///
/// | number | register | values | what it holds |
/// |---|---|---|---|
/// | 0 | BUSY | 0, 1 | a tick is to come |
/// | 1 | DONE | 0, 1 | the clock has ticked |
/// | 2 | SEL | 0 to 3 | the period in instructions: 16000, 100000, 10000 or 1000 |
///
/// All are 0 at first, and a reset sets them to 0. The periods stand for the clock's rates, the frequency of the mains,
/// 10, 100 and 1000 a second, at a million instructions a second or somewhat less: this project's own choice.
///
/// | call | what it does |
/// |---|---|
/// | DOA | sets SEL to the last two bits of the word, before the pulse |
/// | another function | nothing; an input answers 0 |
/// | S | sets BUSY, clears DONE, and wishes a tick after the period |
/// | C | clears BUSY and DONE, and wishes that no tick comes |
/// | P | nothing |
/// | the tick is due | it wants nothing of the machine; behind that, BUSY is cleared and DONE set |
#[derive(Drop)]
pub struct Clk {
    busy: bool,
    done: bool,
    sel: u8,
    ghost sel_range: { sel ≤ 3 },
}

impl Clk {
    ghost use Rattle.unit_trait.specs.declared.kind.Kind.TheVariants.{Clk as clock};
    ghost use Rattle.unit_trait.specs.Row.{initial_unit};

    /// A clock that was not started, with SEL 0.
    pub fn new() -> Clk
        ensures { ⟦<Clk as Unit>⟧.unit_state result ≡ initial_unit clock }
    {
        Clk {
            busy: false,
            done: false,
            sel: 0,
        }
    }
}

#[tactic(auto, unfolding(unit_trait::specs::Row::row_of, unit_trait::specs::Clock::clock_row))]
impl Unit for Clk {
    ghost use Rattle.std.specs.Prelude.{if◌then◌else◌, List, [], ◌∷◌};
    ghost use Rattle.unit_trait.specs.declared.kind.Kind.TheVariants.{Clk as clock};

    ghost unit_state = { λ c.
        record { kind = clock; registers = (if c.busy then 1 else 0) ∷ (if c.done then 1 else 0) ∷ c.sel ∷ [] } };

    fn kind(&self) -> Kind {
        Kind::Clk
    }

    fn reg(&self, i: u8) -> u32 {
        match i {
            0 => u32::from(self.busy),
            1 => u32::from(self.done),
            2 => u32::from(self.sel),
            _ => 0,
        }
    }

    fn set_reg(&mut self, i: u8, value: u32) -> Result<(), RegFault> {
        match (i, value) {
            (0, 0..=1) => self.busy = value == 1,
            (1, 0..=1) => self.done = value == 1,
            (2, 0..=3) => self.sel = value as u8,
            _ => return Err(RegFault::OutOfRange),
        }
        Ok(())
    }

    fn io(&mut self, op: IoOp, pulse: Pulse, word: u16) -> IoAnswer {
        match op {
            IoOp::Doa => self.sel = (word & 3) as u8,
            _ => {}
        }
        let queue = match pulse {
            Pulse::Start => {
                self.busy = true;
                self.done = false;
                Queue::After(PERIODS[usize::from(self.sel)])
            }
            Pulse::Clear => {
                self.busy = false;
                self.done = false;
                Queue::Cancel
            }
            _ => Queue::Keep,
        };
        IoAnswer {
            word: 0,
            queue,
            unit: 0,
        }
    }

    fn due(&mut self, _unit: u8) -> Want {
        Want::Nothing
    }

    fn got(&mut self, _unit: u8, got: Got) -> After {
        match got {
            Got::Done => {
                self.busy = false;
                self.done = true;
            }
            _ => {}
        }
        After {
            queue: Queue::Keep,
            stop: UnitStop::Go,
        }
    }

    fn reset(&mut self) -> Queue {
        self.busy = false;
        self.done = false;
        self.sel = 0;
        Queue::Keep
    }
}
