ghost use Rattle.std.specs.Prelude.{◌≡◌, ◌≤◌};
ghost use Rattle.unit_trait.specs.Tape.{bit_where, tape_status, tape_stop};

use crate::places::{LAST_PLACE, Places};
use unit_trait::{
    After, Got, IoAnswer, IoOp, Kind, Pulse, Queue, RegFault, TapeEnd, TapeGot, TapeOrder, Unit,
    UnitStop, Want,
};

/// How many drives and commands there are.
const DRIVES: u16 = 0o10;

/// How many addresses the memory has.
const ADDRESSES: u16 = 0o100000;

/// How many words or blocks an operation takes at the most.
const COUNTS: u16 = 0o10000;

/// The command that is none.
const UNUSED: u8 = 2;

/// The bit of the status that says that there was an error.
const ERROR: u16 = 0o100000;

/// The bit of the status that says that the command cannot be done.
const ILLEGAL: u16 = 0o20000;

/// The bit of the status that says that a block has its error flag.
const BAD_DATA: u16 = 0o2000;

/// The bit of the status that says that the tape is at the end of the medium.
const AT_END: u16 = 0o1000;

/// The bit of the status that says that there was a tape mark.
const AT_MARK: u16 = 0o400;

/// The bit of the status that says that the tape is at its first place.
const AT_FIRST: u16 = 0o200;

/// The bit of the status that says that a block has more words than were asked for.
const DATA_LOST: u16 = 0o20;

/// The bit of the status that says that a block has an odd length.
const ODD: u16 = 0o2;

/// The bit of the status that says that the drive is ready.
const READY: u16 = 0o1;

/// The registers of the control that the drives share, and what it does with them: all of `Mta`.
#[derive(Drop)]
pub struct Control {
    busy: bool,
    done: bool,
    stop_ioe: bool,
    time: u16,
    command: u8,
    drive: u8,
    address: u16,
    word_count: u16,
    status: u16,
    places: Places,
    ghost time_some: { 1 ≤ time },
    ghost time_range: { time ≤ 65535 },
    ghost command_range: { command ≤ 7 },
    ghost drive_range: { drive ≤ 7 },
    ghost address_range: { address ≤ 0o77777 },
    ghost count_range: { word_count ≤ 0o7777 },
    ghost status_range: { status ≤ 0o177777 },
}

impl Control {
    ghost use Rattle.unit_trait.specs.declared.kind.Kind.TheVariants.{Mta as mta};
    ghost use Rattle.unit_trait.specs.Row.{initial_unit};

    /// A tape that was not started, with every drive at its first place and TIME 1000.
    pub fn new() -> Control
        ensures { ⟦<Control as Unit>⟧.unit_state result ≡ initial_unit mta }
    {
        Control {
            busy: false,
            done: false,
            stop_ioe: false,
            time: 1000,
            command: 0,
            drive: 0,
            address: 0,
            word_count: 0,
            status: 0,
            places: Places::new(),
        }
    }
}

/// A bit of the status where it is to be set.
fn bit_where(set: bool, bit: u16) -> u16
    ensures bit { result ≡ bit_where set bit }
    ensures most { result ≤ bit }
{
    if set { bit } else { 0 }
}

/// The status behind an operation that was done.
fn status_of(got: TapeGot) -> u16
    ensures { result ≡ tape_status got }
{
    let medium = matches!(got.end, TapeEnd::Medium);
    READY
        + bit_where(got.flagged, BAD_DATA)
        + bit_where(medium, AT_END)
        + bit_where(matches!(got.end, TapeEnd::Mark), AT_MARK)
        + bit_where(got.place == 0, AT_FIRST)
        + bit_where(got.lost, DATA_LOST)
        + bit_where(got.odd, ODD)
        + bit_where(got.flagged || medium || got.lost, ERROR)
}

/// Why an answer stops the machine, where STOP_IOE is 1.
fn stop_of(got: Got) -> UnitStop
    ensures { result ≡ tape_stop got }
{
    match got {
        Got::Tape(done) if matches!(done.end, TapeEnd::Medium) => UnitStop::End,
        Got::NoFile => UnitStop::NoFile,
        _ => UnitStop::Go,
    }
}

#[tactic(auto, unfolding(unit_trait::specs::Row::row_of))]
impl Unit for Control {
    ghost use Rattle.std.specs.Prelude.{if◌then◌else◌, List, [], ◌∷◌};
    ghost use Rattle.unit_trait.specs.declared.kind.Kind.TheVariants.{Mta as mta};

    ghost unit_state = { λ c. record {
      kind = mta;
      registers = (if c.busy then 1 else 0) ∷ (if c.done then 1 else 0) ∷ (if c.stop_ioe then 1 else 0)
          ∷ c.time ∷ c.command ∷ c.drive ∷ c.address ∷ c.word_count ∷ c.status ∷ c.places.places;
    } };

    fn kind(&self) -> Kind {
        Kind::Mta
    }

    fn reg(&self, i: u8) -> u32 {
        match i {
            0 => u32::from(self.busy),
            1 => u32::from(self.done),
            2 => u32::from(self.stop_ioe),
            3 => u32::from(self.time),
            4 => u32::from(self.command),
            5 => u32::from(self.drive),
            6 => u32::from(self.address),
            7 => u32::from(self.word_count),
            8 => u32::from(self.status),
            _ => self.places.at(i - 9),
        }
    }

    fn set_reg(&mut self, i: u8, value: u32) -> Result<(), RegFault> {
        match (i, value) {
            (0, 0..=1) => self.busy = value == 1,
            (1, 0..=1) => self.done = value == 1,
            (2, 0..=1) => self.stop_ioe = value == 1,
            (3, 1..=65535) => self.time = value as u16,
            (4, 0..=7) => self.command = value as u8,
            (5, 0..=7) => self.drive = value as u8,
            (6, 0..=0o77777) => self.address = value as u16,
            (7, 0..=0o7777) => self.word_count = value as u16,
            (8, 0..=0o177777) => self.status = value as u16,
            (9..=16, 0..=LAST_PLACE) => self.places.put(i - 9, value),
            _ => return Err(RegFault::OutOfRange),
        }
        Ok(())
    }

    fn io(&mut self, op: IoOp, pulse: Pulse, word: u16) -> IoAnswer {
        let input = match op {
            IoOp::Dia => self.status,
            IoOp::Dib => self.address,
            IoOp::Dic => self.word_count,
            _ => 0,
        };
        if !self.busy {
            match op {
                IoOp::Doa => {
                    self.drive = (word % DRIVES) as u8;
                    self.command = (word / DRIVES % DRIVES) as u8;
                }
                IoOp::Dob => self.address = word % ADDRESSES,
                IoOp::Doc => self.word_count = word % COUNTS,
                _ => {}
            }
        }
        let (queue, unit) = match pulse {
            Pulse::Start if !self.busy => {
                self.busy = true;
                self.done = false;
                self.status = 0;
                (Queue::After(u32::from(self.time)), self.drive)
            }
            Pulse::Clear => {
                self.busy = false;
                self.done = false;
                self.status = 0;
                (Queue::Cancel, 0)
            }
            _ => (Queue::Keep, 0),
        };
        IoAnswer {
            word: input,
            queue,
            unit,
        }
    }

    fn due(&mut self, unit: u8) -> Want {
        if self.command == UNUSED {
            return Want::Nothing;
        }
        Want::Tape(TapeOrder {
            command: self.command,
            place: u64::from(self.places.at(unit)),
            address: self.address,
            count: COUNTS - self.word_count,
        })
    }

    fn got(&mut self, unit: u8, got: Got) -> After {
        let stop = if self.stop_ioe {
            stop_of(got)
        } else {
            UnitStop::Go
        };
        match got {
            Got::Tape(done) => self.finish(unit, done),
            Got::Done | Got::NoFile => self.refuse(ERROR + ILLEGAL),
            Got::ReadOnly => self.refuse(ERROR + ILLEGAL + READY),
            _ => {}
        }
        After {
            queue: Queue::Keep,
            stop,
        }
    }

    fn reset(&mut self) -> Queue {
        self.busy = false;
        self.done = false;
        self.command = 0;
        self.drive = 0;
        self.status = 0;
        Queue::Keep
    }
}

impl Control {
    ghost use Rattle.std.specs.Prelude.{◌<◌};
    ghost use Rattle.unit_trait.specs.Tape.{tape_length, tape_moved, with_tape_status};
    ghost use Rattle.unit_trait.specs.Usual.{flagged};

    /// An operation of a drive was done: what it came to goes into the registers.
    fn finish(&mut self, drive: u8, got: TapeGot)
        requires drive { drive < 8 }
        requires place { got.place ≤ tape_length }
        ensures { ⟦<Control as Unit>⟧.unit_state self.new ≡ record (⟦<Control as Unit>⟧.unit_state self.old) {
          registers = flagged 0 1 (tape_moved drive got (⟦<Control as Unit>⟧.unit_state self.old).registers);
        } }
    {
        let words = u32::from(got.words);
        self.busy = false;
        self.done = true;
        self.status = status_of(got);
        self.address = ((u32::from(self.address) + words) % u32::from(ADDRESSES)) as u16;
        self.word_count = ((u32::from(self.word_count) + words + u32::from(got.passed))
            % u32::from(COUNTS)) as u16;
        self.places.put(drive, got.place as u32);
    }

    /// No operation was done, for a reason that the status says.
    fn refuse(&mut self, status: u16)
        ensures { ⟦<Control as Unit>⟧.unit_state self.new ≡ record (⟦<Control as Unit>⟧.unit_state self.old) {
          registers = flagged 0 1 (with_tape_status status (⟦<Control as Unit>⟧.unit_state self.old).registers);
        } }
    {
        self.busy = false;
        self.done = true;
        self.status = status;
    }
}
