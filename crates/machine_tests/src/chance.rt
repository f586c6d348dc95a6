// Programs and registers by chance, the same in each run of the tests.
use nova_machine::Machine;
use nova_word::{Addr, Word};
use unit_trait::{CpuReg, RegFault, Unit};

/// NIOS to the clock and to the printer, with which each program begins.
const STARTS: [u16; 2] = [0o060114, 0o060111];

/// The devices of words of input and output: keyboard, printer, clock, multiply and divide, the processor itself, and one
/// that is not there.
const DEVICES: [u16; 6] = [0o10, 0o11, 0o14, 1, 0o77, 0o22];

#[derive(Clone, Copy)]
struct Chance {
    state: u32,
}

impl Chance {
    fn next(&mut self) -> u16 {
        self.state = self.state.wrapping_mul(1664525).wrapping_add(1013904223);
        ((self.state >> 16) % 65536) as u16
    }

    /// A word: most are instructions that stay among the first words of memory.
    fn word(&mut self) -> u16 {
        let word = self.next();
        match self.next() % 8 {
            0..=2 => word % 0o100000 + 0o100000,
            3..=5 => {
                let indirect = if word % 4 == 0 { 0o2000 } else { 0 };
                (self.next() % 12) * 0o4000 + indirect + word / 4 % 0o200
            }
            6 => {
                let device = DEVICES[usize::from(self.next() % 6)];
                0o60000 + word / 64 % 128 * 64 + device
            }
            _ => word,
        }
    }
}

/// Sets memory and registers by the chance of that number.
pub fn set<U: Unit>(machine: &mut Machine<U>, seed: u32) -> Result<(), RegFault> {
    let mut chance = Chance { state: seed };
    set_words(machine, &mut chance);
    set_registers(machine, &mut chance)
}

fn set_words<U: Unit>(machine: &mut Machine<U>, chance: &mut Chance) {
    let mut at = Addr::of_word(Word(0));
    for _ in 0..0o400u16 {
        let word = chance.word();
        machine.memory_mut().write(at, Word(word));
        at = at.plus(1);
    }
    // Where interrupts lead
    let handler = chance.next() % 0o400;
    machine
        .memory_mut()
        .write(Addr::of_word(Word(1)), Word(handler));
    let mut at = Addr::of_word(Word(0o100));
    for word in STARTS.iter() {
        machine.memory_mut().write(at, Word(*word));
        at = at.plus(1);
    }
}

const ACCUMULATORS: [CpuReg; 4] = [CpuReg::Ac0, CpuReg::Ac1, CpuReg::Ac2, CpuReg::Ac3];

fn set_registers<U: Unit>(machine: &mut Machine<U>, chance: &mut Chance) -> Result<(), RegFault> {
    for register in ACCUMULATORS.iter() {
        machine.set_cpu_reg(*register, u32::from(chance.next() % 0o400))?;
    }
    machine.set_cpu_reg(CpuReg::Pc, 0o100)?;
    machine.set_cpu_reg(CpuReg::Ion, u32::from(chance.next() % 2))?;
    machine.set_cpu_reg(CpuReg::StopDev, u32::from(chance.next() % 4 / 3))
}
