// What a machine holds is set and looked at by the names of places.
ghost use Rattle.std.specs.Prelude.{◌≡◌};

use crate::names::{Place, value_of};
use crate::row::{check, octal_word};
use nova_machine::Machine;
use nova_word::{Addr, Word};
use std::process::Abort;
use unit_trait::{CpuReg, Kind, RegFault, Unit};

/// The registers that a machine with a console has.
pub const REGISTERS: [Place; 22] = [
    Place::Cpu(CpuReg::Ac0),
    Place::Cpu(CpuReg::Ac1),
    Place::Cpu(CpuReg::Ac2),
    Place::Cpu(CpuReg::Ac3),
    Place::Cpu(CpuReg::C),
    Place::Cpu(CpuReg::Pc),
    Place::Cpu(CpuReg::Ion),
    Place::Cpu(CpuReg::Hold),
    Place::Cpu(CpuReg::Mask),
    Place::Cpu(CpuReg::Sr),
    Place::Cpu(CpuReg::StopDev),
    Place::Device(Kind::Clk, 0),
    Place::Device(Kind::Clk, 1),
    Place::Device(Kind::Clk, 2),
    Place::Device(Kind::Tti, 0),
    Place::Device(Kind::Tti, 1),
    Place::Device(Kind::Tti, 2),
    Place::Device(Kind::Tti, 3),
    Place::Device(Kind::Tto, 0),
    Place::Device(Kind::Tto, 1),
    Place::Device(Kind::Tto, 2),
    Place::Device(Kind::Tto, 3),
];

/// What these registers hold.
pub fn registers<U: Unit>(machine: &Machine<U>) -> [Option<u32>; 22] {
    let mut stood = [None; 22];
    for (value, place) in stood.iter_mut().zip(REGISTERS.iter()) {
        *value = held(machine, *place);
    }
    stood
}

pub fn held<U: Unit>(machine: &Machine<U>, place: Place) -> Option<u32> {
    match place {
        Place::Cell(at) => {
            let word = machine.memory().read(Addr::of_word(Word(at)));
            Some(u32::from(word.0))
        }
        Place::Cpu(register) => Some(machine.cpu_reg(register)),
        Place::Device(kind, i) => machine.unit_reg(kind, i),
    }
}

fn set<U: Unit>(machine: &mut Machine<U>, place: Place, value: u32) -> Result<(), RegFault>
    ensures { machine.new.slots ≡ machine.old.slots }
{
    match place {
        Place::Cell(at) => {
            let word = Word((value & 0o177777) as u16);
            machine.memory_mut().write(Addr::of_word(Word(at)), word);
            Ok(())
        }
        Place::Cpu(register) => machine.set_cpu_reg(register, value),
        Place::Device(kind, i) => machine.set_unit_reg(kind, i, value),
    }
}

/// Whether a word names a place, which now has its value.
pub fn put<U: Unit>(machine: &mut Machine<U>, word: &str) -> bool
    ensures { machine.new.slots ≡ machine.old.slots }
{
    match value_of(word) {
        Some((place, value)) => set(machine, place, value).is_ok(),
        None => false,
    }
}

pub fn put_all<U: Unit>(rt: &impl Abort, machine: &mut Machine<U>, words: &str) {
    for word in words.split_whitespace() {
        check(rt, put(machine, word), word);
    }
}

/// Puts a program in, from 100 on, where PC is.
pub fn load<U: Unit>(rt: &impl Abort, machine: &mut Machine<U>, words: &str) {
    let mut at = Addr::of_word(Word(0o100));
    for word in words.split_whitespace() {
        machine.memory_mut().write(at, Word(octal_word(word)));
        at = at.plus(1);
    }
    check(rt, put(machine, "PC=100"), words);
}

/// Whether a word names a place that has its value.
pub fn is<U: Unit>(machine: &Machine<U>, word: &str) -> bool {
    match value_of(word) {
        Some((place, value)) => held(machine, place) == Some(value),
        None => false,
    }
}
