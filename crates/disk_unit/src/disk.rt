ghost use Rattle.std.specs.Prelude.{◌≡◌, ◌≤◌};

use unit_trait::{After, Got, IoAnswer, IoOp, Kind, Pulse, Queue, RegFault, Unit, UnitStop, Want};

/// How many sectors the disk has.
const SECTORS: u16 = 0o20000;

/// How many words a sector has.
const SECTOR_WORDS: u16 = 0o400;

/// How many addresses the memory has.
const ADDRESSES: u16 = 0o100000;

/// The bit of the status that says that a sector was not moved.
const ERROR: u8 = 0o1;

/// The bit of the status that says that no file is there.
const MISSING: u8 = 0o4;

/// The bit of the status that says that the file is read only.
const LOCKED: u8 = 0o10;

/// The disk's registers, and what it does with them: all of `Dsk`.
#[derive(Drop)]
pub struct Drive {
    busy: bool,
    done: bool,
    stop_ioe: bool,
    time: u16,
    sector: u16,
    address: u16,
    status: u8,
    write: bool,
    ghost time_some: { 1 ≤ time },
    ghost time_range: { time ≤ 65535 },
    ghost sector_range: { sector ≤ 0o17777 },
    ghost address_range: { address ≤ 0o77777 },
    ghost status_range: { status ≤ 0o17 },
}

impl Drive {
    ghost use Rattle.unit_trait.specs.declared.kind.Kind.TheVariants.{Dsk as dsk};
    ghost use Rattle.unit_trait.specs.Row.{initial_unit};

    /// A disk that was not started, at sector 0 and address 0, with TIME 200.
    pub fn new() -> Drive
        ensures { ⟦<Drive as Unit>⟧.unit_state result ≡ initial_unit dsk }
    {
        Drive {
            busy: false,
            done: false,
            stop_ioe: false,
            time: 200,
            sector: 0,
            address: 0,
            status: 0,
            write: false,
        }
    }
}

#[tactic(auto, unfolding(unit_trait::specs::Row::row_of))]
impl Unit for Drive {
    ghost use Rattle.std.specs.Prelude.{if◌then◌else◌, List, [], ◌∷◌};
    ghost use Rattle.unit_trait.specs.declared.kind.Kind.TheVariants.{Dsk as dsk};

    ghost unit_state = { λ d. record {
      kind = dsk;
      registers = (if d.busy then 1 else 0) ∷ (if d.done then 1 else 0) ∷ (if d.stop_ioe then 1 else 0)
          ∷ d.time ∷ d.sector ∷ d.address ∷ d.status ∷ (if d.write then 1 else 0) ∷ [];
    } };

    fn kind(&self) -> Kind {
        Kind::Dsk
    }

    fn reg(&self, i: u8) -> u32 {
        match i {
            0 => u32::from(self.busy),
            1 => u32::from(self.done),
            2 => u32::from(self.stop_ioe),
            3 => u32::from(self.time),
            4 => u32::from(self.sector),
            5 => u32::from(self.address),
            6 => u32::from(self.status),
            7 => u32::from(self.write),
            _ => 0,
        }
    }

    fn set_reg(&mut self, i: u8, value: u32) -> Result<(), RegFault> {
        match (i, value) {
            (0, 0..=1) => self.busy = value == 1,
            (1, 0..=1) => self.done = value == 1,
            (2, 0..=1) => self.stop_ioe = value == 1,
            (3, 1..=65535) => self.time = value as u16,
            (4, 0..=0o17777) => self.sector = value as u16,
            (5, 0..=0o77777) => self.address = value as u16,
            (6, 0..=0o17) => self.status = value as u8,
            (7, 0..=1) => self.write = value == 1,
            _ => return Err(RegFault::OutOfRange),
        }
        Ok(())
    }

    fn io(&mut self, op: IoOp, pulse: Pulse, word: u16) -> IoAnswer {
        let input = match op {
            IoOp::Dia => u16::from(self.status),
            IoOp::Dib => self.address,
            IoOp::Dic => SECTOR_WORDS,
            _ => 0,
        };
        match op {
            IoOp::Doa => self.sector = word % SECTORS,
            IoOp::Dob => self.address = word % ADDRESSES,
            _ => {}
        }
        let queue = match pulse {
            Pulse::Start | Pulse::Pulse => {
                self.busy = true;
                self.done = false;
                self.status = 0;
                self.write = matches!(pulse, Pulse::Pulse);
                Queue::After(u32::from(self.time))
            }
            Pulse::Clear => {
                self.busy = false;
                self.done = false;
                self.status = 0;
                Queue::Cancel
            }
            Pulse::None => Queue::Keep,
        };
        IoAnswer {
            word: input,
            queue,
            unit: 0,
        }
    }

    fn due(&mut self, _unit: u8) -> Want {
        Want::Sector {
            write: self.write,
            sector: self.sector,
            address: self.address,
        }
    }

    fn got(&mut self, _unit: u8, got: Got) -> After {
        match got {
            Got::Done => self.address = (self.address + SECTOR_WORDS) % ADDRESSES,
            Got::NoFile => self.status = MISSING + ERROR,
            Got::ReadOnly => self.status = LOCKED + ERROR,
            _ => {}
        }
        if matches!(got, Got::Done | Got::NoFile | Got::ReadOnly) {
            self.busy = false;
            self.done = true;
        }
        let stop = match got {
            Got::NoFile if self.stop_ioe => UnitStop::NoFile,
            _ => UnitStop::Go,
        };
        After {
            queue: Queue::Keep,
            stop,
        }
    }

    fn reset(&mut self) -> Queue {
        self.busy = false;
        self.done = false;
        self.status = 0;
        self.write = false;
        Queue::Keep
    }
}
