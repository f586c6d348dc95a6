ghost use Rattle.std.specs.Prelude.{◌≡◌, ◌≤◌};

use unit_trait::{After, Got, IoAnswer, IoOp, Kind, Pulse, Queue, RegFault, Unit, UnitStop, Want};

/// The paper tape reader: PTR, device 12 (How to Use the Nova Computers, "Paper Tape Reader"). Each time that it is
/// started it reads one byte of its file.
///
/// | number | register | values | at first | reset to 0 | what it holds |
/// |---|---|---|---|---|---|
/// | 0 | BUSY | 0, 1 | 0 | yes | a byte is to be read |
/// | 1 | DONE | 0, 1 | 0 | yes | a byte was read |
/// | 2 | STOP_IOE | 0, 1 | 0 | no | whether the machine stops at the end of the tape, and where there is none |
/// | 3 | TIME | 1 to 65535 | 300 | no | how many instructions a byte takes |
/// | 4 | BUF | 0 to 377 (octal) | 0 | no | the byte |
/// | 5 | POS | 0 to 100000000 (octal) | 0 | no | the place of the next byte in the file |
///
/// | call | what it does |
/// |---|---|
/// | DIA | answers BUF, before the pulse |
/// | another function | nothing; an input answers 0 |
/// | S | sets BUSY, clears DONE, and wishes its event after TIME instructions |
/// | C | clears BUSY and DONE, and wishes that no event comes |
/// | P | nothing |
/// | its event is due | it wants the byte at POS |
/// | the byte was read | BUF is the byte, POS grows by one, BUSY is cleared and DONE set |
/// | the tape is at its end, or none is there | nothing changes; where STOP_IOE is 1, it stops the machine |
#[derive(Drop)]
pub struct Ptr {
    busy: bool,
    done: bool,
    stop_ioe: bool,
    time: u16,
    buf: u8,
    pos: u32,
    ghost time_some: { 1 ≤ time },
    ghost time_range: { time ≤ 65535 },
    ghost buf_range: { buf ≤ 255 },
    ghost pos_range: { pos ≤ 0o100000000 },
}

impl Ptr {
    ghost use Rattle.unit_trait.specs.declared.kind.Kind.TheVariants.{Ptr as ptr};
    ghost use Rattle.unit_trait.specs.Row.{initial_unit};

    /// A reader that was not started, at the beginning of its tape, with TIME 300.
    pub fn new() -> Ptr
        ensures { ⟦<Ptr as Unit>⟧.unit_state result ≡ initial_unit ptr }
    {
        Ptr {
            busy: false,
            done: false,
            stop_ioe: false,
            time: 300,
            buf: 0,
            pos: 0,
        }
    }
}

#[tactic(auto, unfolding(unit_trait::specs::Row::row_of, unit_trait::specs::Reader::reader_row))]
impl Unit for Ptr {
    ghost use Rattle.std.specs.Prelude.{if◌then◌else◌, List, [], ◌∷◌};
    ghost use Rattle.unit_trait.specs.declared.kind.Kind.TheVariants.{Ptr as ptr};

    ghost unit_state = { λ r. record {
      kind = ptr;
      registers = (if r.busy then 1 else 0) ∷ (if r.done then 1 else 0) ∷ (if r.stop_ioe then 1 else 0)
          ∷ r.time ∷ r.buf ∷ r.pos ∷ [];
    } };

    fn kind(&self) -> Kind {
        Kind::Ptr
    }

    fn reg(&self, i: u8) -> u32 {
        match i {
            0 => u32::from(self.busy),
            1 => u32::from(self.done),
            2 => u32::from(self.stop_ioe),
            3 => u32::from(self.time),
            4 => u32::from(self.buf),
            5 => self.pos,
            _ => 0,
        }
    }

    fn set_reg(&mut self, i: u8, value: u32) -> Result<(), RegFault> {
        match (i, value) {
            (0, 0..=1) => self.busy = value == 1,
            (1, 0..=1) => self.done = value == 1,
            (2, 0..=1) => self.stop_ioe = value == 1,
            (3, 1..=65535) => self.time = value as u16,
            (4, 0..=0o377) => self.buf = value as u8,
            (5, 0..=0o100000000) => self.pos = value,
            _ => return Err(RegFault::OutOfRange),
        }
        Ok(())
    }

    fn io(&mut self, op: IoOp, pulse: Pulse, _word: u16) -> IoAnswer {
        let word = match op {
            IoOp::Dia => u16::from(self.buf),
            _ => 0,
        };
        let queue = match pulse {
            Pulse::Start => {
                self.busy = true;
                self.done = false;
                Queue::After(u32::from(self.time))
            }
            Pulse::Clear => {
                self.busy = false;
                self.done = false;
                Queue::Cancel
            }
            _ => Queue::Keep,
        };
        IoAnswer {
            word,
            queue,
            unit: 0,
        }
    }

    fn due(&mut self, _unit: u8) -> Want {
        Want::ReadByte {
            place: u64::from(self.pos),
        }
    }

    fn got(&mut self, _unit: u8, got: Got) -> After {
        let stop = match got {
            Got::Byte(byte) => {
                self.buf = byte;
                self.pos += 1;
                self.busy = false;
                self.done = true;
                UnitStop::Go
            }
            Got::End if self.stop_ioe => UnitStop::End,
            Got::NoFile if self.stop_ioe => UnitStop::NoFile,
            _ => UnitStop::Go,
        };
        After {
            queue: Queue::Keep,
            stop,
        }
    }

    fn reset(&mut self) -> Queue {
        self.busy = false;
        self.done = false;
        Queue::Keep
    }
}
