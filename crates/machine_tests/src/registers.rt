// The registers of the processor, by a machine without a unit.
use crate::row::check;
use clock_unit::Clk;
use nova_machine::Machine;
use std::alloc::{AllocError, Global};
use std::test::Fail;
use unit_trait::{CpuReg, RegFault, Unit};

/// A register that can be set, the largest value of it, and one that tells it from the one before it.
type Register = (CpuReg, u32, u32);

const REGISTERS: [Register; 11] = [
    (CpuReg::Ac0, 0o177777, 1),
    (CpuReg::Ac1, 0o177777, 2),
    (CpuReg::Ac2, 0o177777, 3),
    (CpuReg::Ac3, 0o177777, 4),
    (CpuReg::C, 1, 1),
    (CpuReg::Pc, 0o77777, 0o100),
    (CpuReg::Ion, 1, 1),
    (CpuReg::Hold, 1, 1),
    (CpuReg::Mask, 0o177777, 0o123456),
    (CpuReg::Sr, 0o177777, 0o54321),
    (CpuReg::StopDev, 1, 1),
];

const FLAGS: [CpuReg; 4] = [CpuReg::C, CpuReg::Ion, CpuReg::Hold, CpuReg::StopDev];

fn bare_machine(alloc: Global) -> Result<Machine<Clk>, AllocError> {
    Machine::new(alloc, Vec::new(alloc))
}

/// Whether a value is refused.
fn refuses<U: Unit>(machine: &mut Machine<U>, register: CpuReg, value: u32) -> bool {
    machine.set_cpu_reg(register, value) == Err(RegFault::OutOfRange)
}

/// Whether a value is taken, and is there then.
fn takes<U: Unit>(machine: &mut Machine<U>, register: CpuReg, value: u32) -> bool {
    machine.set_cpu_reg(register, value).is_ok() && machine.cpu_reg(register) == value
}

/// Whether the register is 0, and then takes its largest value and none above it.
fn holds_its_range<U: Unit>(machine: &mut Machine<U>, row: &Register) -> bool {
    row.0.largest() == row.1
        && machine.cpu_reg(row.0) == 0
        && takes(machine, row.0, row.1)
        && refuses(machine, row.0, row.1.saturating_add(1))
        && refuses(machine, row.0, u32::MAX)
        && machine.cpu_reg(row.0) == row.1
}

fn all_hold_their_ranges<U: Unit>(machine: &mut Machine<U>) -> bool {
    for row in REGISTERS.iter() {
        if !holds_its_range(machine, row) {
            return false;
        }
    }
    machine.pc().number() == 0o77777 && machine.cpu_reg(CpuReg::Ac3) == 0o177777
}

fn flags_go_off<U: Unit>(machine: &mut Machine<U>) -> bool {
    for flag in FLAGS.iter() {
        if !takes(machine, *flag, 0) {
            return false;
        }
    }
    true
}

const SIZES: [u32; 5] = [0, 1, 0o100000, 0o100001, u32::MAX];

fn size_is_read_only<U: Unit>(machine: &mut Machine<U>) -> bool {
    for value in SIZES.iter() {
        if !refuses(machine, CpuReg::Size, *value) || machine.cpu_reg(CpuReg::Size) != 0o100000 {
            return false;
        }
    }
    CpuReg::Size.largest() == 0o100000
}

#[test]
fn a_register_holds_its_range_and_size_is_read_only(rt: HostRuntime) -> Result<(), Fail> {
    let mut machine = bare_machine(rt.alloc())?;
    check(&rt, all_hold_their_ranges(&mut machine), "ranges");
    check(&rt, flags_go_off(&mut machine), "flags");
    check(&rt, size_is_read_only(&mut machine), "SIZE");
    Ok(())
}

fn all_are_their_own<U: Unit>(machine: &mut Machine<U>) -> bool {
    for row in REGISTERS.iter() {
        if machine.set_cpu_reg(row.0, row.2).is_err() {
            return false;
        }
    }
    for row in REGISTERS.iter() {
        if machine.cpu_reg(row.0) != row.2 {
            return false;
        }
    }
    true
}

#[test]
fn each_register_is_one_of_its_own(rt: HostRuntime) -> Result<(), Fail> {
    let mut machine = bare_machine(rt.alloc())?;
    check(&rt, all_are_their_own(&mut machine), "values");
    Ok(())
}
