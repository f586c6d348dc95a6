ghost use Rattle.std.specs.Prelude.{◌≡◌};

use crate::control::Control;
use unit_trait::{After, Got, IoAnswer, IoOp, Kind, Pulse, Queue, RegFault, Unit, Want};

/// The magnetic tape: MTA, device 22, with its eight drives, the units MTA0 to MTA7, that share one control. Each time
/// that it is started it does one command for one drive, between the file of that drive and memory. It is made after
/// the magnetic tape of the Nova (How to Use the Nova Computers, "Magnetic Tape"); its registers and the numbers of its
/// commands are this project's own. Words are of 16 bits, and what is not said to be octal is decimal.
///
/// | number | register | values | at first | reset to 0 | what it holds |
/// |---|---|---|---|---|---|
/// | 0 | BUSY | 0, 1 | 0 | yes | the tape is at work |
/// | 1 | DONE | 0, 1 | 0 | yes | the tape has done its work |
/// | 2 | STOP_IOE | 0, 1 | 0 | no | whether the machine stops at the end of the medium, and where there is no file |
/// | 3 | TIME | 1 to 65535 | 1000 | no | how many instructions a command takes |
/// | 4 | CMD | 0 to 7 | 0 | yes | the command |
/// | 5 | DRIVE | 0 to 7 | 0 | yes | the number of the drive |
/// | 6 | MA | 0 to 77777 (octal) | 0 | no | the address of the first word in memory |
/// | 7 | WC | 0 to 7777 (octal) | 0 | no | 10000 (octal) less the count of words or blocks |
/// | 8 | STAT | 0 to 177777 (octal) | 0 | yes | the sum of the bits below |
/// | 9 to 16 | POS0 to POS7 | 0 to 400000000 (octal) | 0 | no | where the tape of a drive stands, in bytes of its file
/// |
///
/// | CMD | command |
/// |---|---|
/// | 0 | read a block |
/// | 1 | rewind |
/// | 2 | none |
/// | 3 | space forward over blocks |
/// | 4 | space in reverse over blocks |
/// | 5 | write a block |
/// | 6 | write a tape mark |
/// | 7 | erase what is behind the place |
///
/// | bit of STAT (octal) | name | what it says |
/// |---|---|---|
/// | 100000 | ERR | there is one of ILL, DTE, EOT and LOST |
/// | 020000 | ILL | the command cannot be done |
/// | 002000 | DTE | the block has its error flag |
/// | 001000 | EOT | the tape is at the end of the medium |
/// | 000400 | EOF | a tape mark was read, passed or written |
/// | 000200 | BOT | the tape stands at its first place |
/// | 000020 | LOST | the block has more words than the count |
/// | 000002 | ODD | the block has an odd length |
/// | 000001 | RDY | the drive is ready |
///
/// | call | what it does |
/// |---|---|
/// | DIA | answers STAT, before the pulse |
/// | DIB | answers MA, before the pulse |
/// | DIC | answers WC, before the pulse |
/// | DOA | where BUSY is 0: sets DRIVE to the low 3 bits of the word and CMD to the next 3, before the pulse |
/// | DOB | where BUSY is 0: sets MA to the low 15 bits of the word, before the pulse |
/// | DOC | where BUSY is 0: sets WC to the low 12 bits of the word, before the pulse |
/// | S | where BUSY is 0: sets BUSY, clears DONE and STAT, and wishes an event of the drive DRIVE after TIME
/// instructions |
/// | C | clears BUSY, DONE and STAT, and wishes that no event comes |
/// | P, another function | nothing |
/// | the event of a drive is due | it wants CMD done for that drive, from its POS on, at MA, for the count; nothing
/// where CMD is 2 |
/// | the command was done | STAT is RDY with what it came to, POS of the drive is the new place, MA grows by the words
/// and WC by the words and the blocks that were passed, each past its largest value from 0 on; BUSY is cleared and DONE
/// set; at the end of the medium it stops the machine where STOP_IOE is 1 |
/// | nothing was done, as CMD is 2 | STAT is 120000 (octal), BUSY is cleared and DONE set |
/// | no file is there | the same; where STOP_IOE is 1, it stops the machine |
/// | the file is read only | STAT is 120001 (octal), BUSY is cleared and DONE set |
///
/// CMD, MA and WC count as they are when the event is due, and DRIVE as it was when the tape was started.
#[derive(Drop)]
pub struct Mta {
    // One field: search finds no proof of what a box holds that is a struct of so many fields.
    control: Control,
}

impl Mta {
    ghost use Rattle.unit_trait.specs.declared.kind.Kind.TheVariants.{Mta as mta};
    ghost use Rattle.unit_trait.specs.Row.{initial_unit};

    /// A tape that was not started, with every drive at its first place and TIME 1000.
    pub fn new() -> Mta
        ensures { ⟦<Mta as Unit>⟧.unit_state result ≡ initial_unit mta }
    {
        Mta {
            control: Control::new(),
        }
    }
}

impl Unit for Mta {
    ghost unit_state = { λ t. ⟦<Control as Unit>⟧.unit_state t.control };

    fn kind(&self) -> Kind {
        self.control.kind()
    }

    fn reg(&self, i: u8) -> u32 {
        self.control.reg(i)
    }

    fn set_reg(&mut self, i: u8, value: u32) -> Result<(), RegFault> {
        self.control.set_reg(i, value)
    }

    fn io(&mut self, op: IoOp, pulse: Pulse, word: u16) -> IoAnswer {
        self.control.io(op, pulse, word)
    }

    fn due(&mut self, unit: u8) -> Want {
        self.control.due(unit)
    }

    fn got(&mut self, unit: u8, got: Got) -> After {
        self.control.got(unit, got)
    }

    fn reset(&mut self) -> Queue {
        self.control.reset()
    }
}
