ghost use Rattle.std.specs.Prelude.{◌≡◌};

use crate::writer::Writer;
use unit_trait::{After, Got, IoAnswer, IoOp, Kind, Pulse, Queue, RegFault, Unit, Want};

/// The paper tape punch: PTP, device 13 (How to Use the Nova Computers, "Paper Tape Punch"). Each time that it
/// is started it writes one byte to its file.
///
/// | number | register | values | at first | reset to 0 | what it holds |
/// |---|---|---|---|---|---|
/// | 0 | BUSY | 0, 1 | 0 | yes | a byte is to be punched |
/// | 1 | DONE | 0, 1 | 0 | yes | a byte was punched |
/// | 2 | STOP_IOE | 0, 1 | 0 | no | whether the machine stops at the end of the file, and where there is none |
/// | 3 | TIME | 1 to 65535 | 200 | no | how many instructions a byte takes |
/// | 4 | BUF | 0 to 377 (octal) | 0 | no | the byte |
/// | 5 | POS | 0 to 100000000 (octal) | 0 | no | the place of the next byte in the file |
///
/// | call | what it does |
/// |---|---|
/// | DOA | sets BUF to the low 8 bits of the word, before the pulse |
/// | another function | nothing; an input answers 0 |
/// | S | sets BUSY, clears DONE, and wishes its event after TIME instructions |
/// | C | clears BUSY and DONE, and wishes that no event comes |
/// | P | nothing |
/// | its event is due | it wants BUF written at POS |
/// | the byte was written | POS grows by one, BUSY is cleared and DONE set |
/// | the file is full, or none is there | BUSY is cleared and DONE set; where STOP_IOE is 1, it stops the machine |
#[derive(Drop)]
pub struct Ptp {
    writer: Writer<200, 0o377>,
}

impl Ptp {
    ghost use Rattle.unit_trait.specs.declared.kind.Kind.TheVariants.{Ptp as ptp};
    ghost use Rattle.unit_trait.specs.Row.{initial_unit};

    /// A punch that has nothing to punch, at the beginning of its file, with TIME 200.
    pub fn new() -> Ptp
        ensures { ⟦<Ptp as Unit>⟧.unit_state result ≡ initial_unit ptp }
    {
        Ptp {
            writer: Writer::new(),
        }
    }
}

#[tactic(auto, unfolding(unit_trait::specs::Row::row_of))]
impl Unit for Ptp {
    ghost use Rattle.unit_trait.specs.declared.kind.Kind.TheVariants.{Ptp as ptp};
    ghost use Rattle.paper_tape.specs.Writer.{values};

    ghost unit_state = { λ p. record { kind = ptp; registers = values p.writer } };

    fn kind(&self) -> Kind {
        Kind::Ptp
    }

    fn reg(&self, i: u8) -> u32 {
        self.writer.reg(i)
    }

    fn set_reg(&mut self, i: u8, value: u32) -> Result<(), RegFault> {
        self.writer.set_reg(i, value)
    }

    fn io(&mut self, op: IoOp, pulse: Pulse, word: u16) -> IoAnswer {
        self.writer.io(op, pulse, word)
    }

    fn due(&mut self, unit: u8) -> Want {
        self.writer.due(unit)
    }

    fn got(&mut self, unit: u8, got: Got) -> After {
        self.writer.got(unit, got)
    }

    fn reset(&mut self) -> Queue {
        self.writer.reset()
    }
}
