ghost use Rattle.std.specs.Prelude.{◌≡◌};

use crate::teleprinter::Teleprinter;
use unit_trait::{After, Got, IoAnswer, IoOp, Kind, Pulse, Queue, RegFault, Unit, Want};

/// The printer of the second teletype: TTO1, device 51 (How to Use the Nova Computers, "Teletype"). It prints on
/// terminal line 0.
///
/// | number | register | values | at first | reset to 0 | what it holds |
/// |---|---|---|---|---|---|
/// | 0 | BUSY | 0, 1 | 0 | yes | a character is to be printed |
/// | 1 | DONE | 0, 1 | 0 | yes | a character was printed |
/// | 2 | TIME | 1 to 65535 | 100 | no | how many instructions a character takes |
/// | 3 | BUF | 0 to 377 (octal) | 0 | no | the character |
///
/// | call | what it does |
/// |---|---|
/// | DOA | sets BUF to the low 8 bits of the word, before the pulse |
/// | another function | nothing; an input answers 0 |
/// | S | sets BUSY, clears DONE, and wishes its event after TIME instructions |
/// | C | clears BUSY and DONE, and wishes that no event comes |
/// | P | nothing |
/// | its event is due | it wants the 8 bits of BUF put on line 0 |
/// | the character was put there | BUSY is cleared and DONE set |
/// | the line is full | nothing changes, and it wishes its event again after TIME instructions |
#[derive(Drop)]
pub struct Tto1 {
    teleprinter: Teleprinter,
}

impl Tto1 {
    ghost use Rattle.unit_trait.specs.declared.kind.Kind.TheVariants.{Tto1 as tto1};
    ghost use Rattle.unit_trait.specs.Row.{initial_unit};

    /// A printer that has nothing to print, with TIME 100.
    pub fn new() -> Tto1
        ensures { ⟦<Tto1 as Unit>⟧.unit_state result ≡ initial_unit tto1 }
    {
        Tto1 {
            teleprinter: Teleprinter::new(),
        }
    }
}

#[tactic(auto, unfolding(unit_trait::specs::Row::row_of))]
impl Unit for Tto1 {
    ghost use Rattle.unit_trait.specs.declared.kind.Kind.TheVariants.{Tto1 as tto1};
    ghost use Rattle.tty_units.specs.Teleprinter.{values};

    ghost unit_state = { λ t. record { kind = tto1; registers = values t.teleprinter } };

    fn kind(&self) -> Kind {
        Kind::Tto1
    }

    fn reg(&self, i: u8) -> u32 {
        self.teleprinter.reg(i)
    }

    fn set_reg(&mut self, i: u8, value: u32) -> Result<(), RegFault> {
        self.teleprinter.set_reg(i, value)
    }

    fn io(&mut self, op: IoOp, pulse: Pulse, word: u16) -> IoAnswer {
        self.teleprinter.io(op, pulse, word)
    }

    #[tactic(auto, unfolding(unit_trait::specs::Row::row_of, unit_trait::specs::Teleprinter::teleprinter_row))]
    fn due(&mut self, _unit: u8) -> Want {
        Want::LinePut {
            line: 0,
            byte: self.teleprinter.character(),
        }
    }

    fn got(&mut self, unit: u8, got: Got) -> After {
        self.teleprinter.got(unit, got)
    }

    fn reset(&mut self) -> Queue {
        self.teleprinter.reset()
    }
}
