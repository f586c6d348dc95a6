ghost use Rattle.std.specs.Prelude.{◌≡◌};

use crate::keyboard::Keyboard;
use unit_trait::{After, Got, IoAnswer, IoOp, Kind, Pulse, Queue, RegFault, Unit, Want};

/// The keyboard of the second teletype: TTI1, device 50 (How to Use the Nova Computers, "Teletype"). Its keys come from
/// terminal line 0. It looks for a key after every TIME instructions, whether it was started or not.
///
/// | number | register | values | at first | reset to 0 | what it holds |
/// |---|---|---|---|---|---|
/// | 0 | BUSY | 0, 1 | 0 | yes | the program has started it since the last key |
/// | 1 | DONE | 0, 1 | 0 | yes | a key has come |
/// | 2 | TIME | 1 to 65535 | 100 | no | how many instructions pass from one look to the next |
/// | 3 | BUF | 0 to 377 (octal) | 0 | no | the key that came last |
///
/// | call | what it does |
/// |---|---|
/// | DIA | answers BUF, as it is before the pulse |
/// | another function | nothing; an input answers 0 |
/// | S | sets BUSY and clears DONE |
/// | C | clears BUSY and DONE |
/// | P | nothing |
/// | its event is due | it wants a key of line 0 |
/// | a key | goes into BUF, where one that was not read is lost; BUSY is cleared and DONE set |
/// | no key | changes nothing |
///
/// A key, none, and a reset each wish the next look after TIME instructions. No pulse moves it.
#[derive(Drop)]
pub struct Tti1 {
    keyboard: Keyboard,
}

impl Tti1 {
    ghost use Rattle.unit_trait.specs.declared.kind.Kind.TheVariants.{Tti1 as tti1};
    ghost use Rattle.unit_trait.specs.Row.{initial_unit};

    /// A keyboard on which no key was struck, with TIME 100. Its first look is wished by a reset.
    pub fn new() -> Tti1
        ensures { ⟦<Tti1 as Unit>⟧.unit_state result ≡ initial_unit tti1 }
    {
        Tti1 {
            keyboard: Keyboard::new(),
        }
    }
}

#[tactic(auto, unfolding(unit_trait::specs::Row::row_of))]
impl Unit for Tti1 {
    ghost use Rattle.unit_trait.specs.declared.kind.Kind.TheVariants.{Tti1 as tti1};
    ghost use Rattle.tty_units.specs.Keyboard.{values};

    ghost unit_state = { λ t. record { kind = tti1; registers = values t.keyboard } };

    fn kind(&self) -> Kind {
        Kind::Tti1
    }

    fn reg(&self, i: u8) -> u32 {
        self.keyboard.reg(i)
    }

    fn set_reg(&mut self, i: u8, value: u32) -> Result<(), RegFault> {
        self.keyboard.set_reg(i, value)
    }

    fn io(&mut self, op: IoOp, pulse: Pulse, word: u16) -> IoAnswer {
        self.keyboard.io(op, pulse, word)
    }

    #[tactic(auto, unfolding(unit_trait::specs::Row::row_of, unit_trait::specs::Keyboard::keyboard_row))]
    fn due(&mut self, _unit: u8) -> Want {
        Want::LineKey(0)
    }

    fn got(&mut self, unit: u8, got: Got) -> After {
        self.keyboard.got(unit, got)
    }

    fn reset(&mut self) -> Queue {
        self.keyboard.reset()
    }
}
