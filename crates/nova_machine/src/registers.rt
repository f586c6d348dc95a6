ghost use Rattle.std.specs.Prelude.{◌≡◌, ◌≤◌, ◌<◌, ◌^◌};
ghost use Rattle.unit_trait.specs.Processor.{largest_of, CanHold};

use crate::machine::Machine;
use nova_word::{Addr, Word};
use unit_trait::{CpuReg, Unit};

impl<U: Unit> Machine<U> {
    ghost use Rattle.nova_machine.specs.Registers.{register_of, with_register};

    /// AC0 to AC3.
    pub fn accumulators(&self) -> [Word; 4]
        ensures { result ≡ self.now.processor.cpu.accumulators }
    {
        self.processor.cpu.accumulators
    }

    /// The value of a register.
    pub(crate) fn register(&self, register: CpuReg) -> u16
        ensures value { result ≡ register_of self.now register }
        ensures range { result ≤ largest_of register }
    {
        let cpu = self.processor.cpu;
        match register {
            CpuReg::Ac0 => number_of(cpu.accumulators[0]),
            CpuReg::Ac1 => number_of(cpu.accumulators[1]),
            CpuReg::Ac2 => number_of(cpu.accumulators[2]),
            CpuReg::Ac3 => number_of(cpu.accumulators[3]),
            CpuReg::C => u16::from(cpu.carry),
            CpuReg::Pc => cpu.pc.number(),
            CpuReg::Ion => u16::from(self.ints.on),
            CpuReg::Hold => u16::from(self.ints.hold),
            CpuReg::Mask => {
                // A field behind a reference has its range once it is read.
                let mask = self.ints.mask;
                mask
            }
            CpuReg::Sr => number_of(self.sr),
            CpuReg::StopDev => u16::from(self.stop_dev),
            CpuReg::Size => self.processor.memory.size(),
        }
    }

    /// Sets a register to a value that it can hold.
    pub(crate) fn set_register(&mut self, register: CpuReg, value: u16)
        requires { CanHold register value }
        ensures { self.new ≡ with_register self.old register value }
    {
        self.quiet = false;
        match register {
            CpuReg::Ac0 => self.processor.cpu.accumulators[0] = Word(value),
            CpuReg::Ac1 => self.processor.cpu.accumulators[1] = Word(value),
            CpuReg::Ac2 => self.processor.cpu.accumulators[2] = Word(value),
            CpuReg::Ac3 => self.processor.cpu.accumulators[3] = Word(value),
            CpuReg::C => self.processor.cpu.carry = value == 1,
            CpuReg::Pc => self.processor.cpu.pc = Addr::of_word(Word(value)),
            CpuReg::Ion => self.ints.on = value == 1,
            CpuReg::Hold => self.ints.hold = value == 1,
            CpuReg::Mask => self.ints.mask = value,
            CpuReg::Sr => self.sr = Word(value),
            CpuReg::StopDev => self.stop_dev = value == 1,
            CpuReg::Size => (),
        }
    }
}

fn number_of(word: Word) -> u16
    ensures value { result ≡ word }
    ensures range { result < 2 ^ 16 }
{
    let number = word.0;
    number
}
