ghost use Rattle.std.specs.Prelude.{◌≡◌};

use crate::disk::Drive;
use unit_trait::{After, Got, IoAnswer, IoOp, Kind, Pulse, Queue, RegFault, Unit, Want};

/// The fixed-head disk: DSK, device 20. Each time that it is started it moves one sector of 256 words between its file
/// and memory. It has 8 platters of 128 tracks of 8 sectors. It is made after the fixed-head disk of the Nova (How to
/// Use the Nova Computers); its registers and the bits of its status are this project's own.
///
/// | number | register | values | at first | reset to 0 | what it holds |
/// |---|---|---|---|---|---|
/// | 0 | BUSY | 0, 1 | 0 | yes | a sector is to be moved |

/// | 1 | DONE | 0, 1 | 0 | yes | the disk has done its work |
/// | 2 | STOP_IOE | 0, 1 | 0 | no | whether the machine stops where there is no file |
/// | 3 | TIME | 1 to 65535 | 200 | no | how many instructions a sector takes |
/// | 4 | DA | 0 to 17777 (octal) | 0 | no | the number of the sector: platter, track in 7 bits, sector in 3 |
/// | 5 | MA | 0 to 77777 (octal) | 0 | no | the address of its first word in memory |
/// | 6 | STAT | 0 to 17 (octal) | 0 | yes | the sum of 1 for an error, 4 for no file and 10 (octal) for a read only
/// file |
/// | 7 | WRITE | 0, 1 | 0 | yes | whether the sector goes from memory to the file |
///
/// | call | what it does |
/// |---|---|
/// | DIA | answers STAT, before the pulse |
/// | DIB | answers MA, before the pulse |
/// | DIC | answers 400 (octal), how many words a sector has |
/// | DOA | sets DA to the low 13 bits of the word, before the pulse |
/// | DOB | sets MA to the low 15 bits of the word, before the pulse |
/// | another function | nothing |
/// | S | sets BUSY, clears DONE, STAT and WRITE, and wishes its event after TIME instructions |
/// | P | sets BUSY and WRITE, clears DONE and STAT, and wishes its event after TIME instructions |
/// | C | clears BUSY, DONE and STAT, and wishes that no event comes |
/// | its event is due | it wants the sector DA moved at MA: written where WRITE is 1, and else read |
/// | the sector was moved | MA grows by 400 (octal), past 77777 from 0 on; BUSY is cleared and DONE set |
/// | no file is there | STAT is 5, BUSY is cleared and DONE set; where STOP_IOE is 1, it stops the machine |
/// | the file is read only | STAT is 11 (octal), BUSY is cleared and DONE set |
///
/// DA, MA and WRITE count as they are when the event is due, not when the disk was started.
#[derive(Drop)]
pub struct Dsk {
    // One field: search finds no proof of what a box holds that is a struct of so many fields.
    drive: Drive,
}

impl Dsk {
    ghost use Rattle.unit_trait.specs.declared.kind.Kind.TheVariants.{Dsk as dsk};
    ghost use Rattle.unit_trait.specs.Row.{initial_unit};

    /// A disk that was not started, at sector 0 and address 0, with TIME 200.
    pub fn new() -> Dsk
        ensures { ⟦<Dsk as Unit>⟧.unit_state result ≡ initial_unit dsk }
    {
        Dsk {
            drive: Drive::new(),
        }
    }
}

impl Unit for Dsk {
    ghost unit_state = { λ d. ⟦<Drive as Unit>⟧.unit_state d.drive };

    fn kind(&self) -> Kind {
        self.drive.kind()
    }

    fn reg(&self, i: u8) -> u32 {
        self.drive.reg(i)
    }

    fn set_reg(&mut self, i: u8, value: u32) -> Result<(), RegFault> {
        self.drive.set_reg(i, value)
    }

    fn io(&mut self, op: IoOp, pulse: Pulse, word: u16) -> IoAnswer {
        self.drive.io(op, pulse, word)
    }

    fn due(&mut self, unit: u8) -> Want {
        self.drive.due(unit)
    }

    fn got(&mut self, unit: u8, got: Got) -> After {
        self.drive.got(unit, got)
    }

    fn reset(&mut self) -> Queue {
        self.drive.reset()
    }
}
