// The table of the processor's registers.
use crate::checked::holds;
use unit_trait::CpuReg;

const REGISTERS: [(CpuReg, &str, usize); 12] = [
    (CpuReg::Ac0, "AC0", 6),
    (CpuReg::Ac1, "AC1", 6),
    (CpuReg::Ac2, "AC2", 6),
    (CpuReg::Ac3, "AC3", 6),
    (CpuReg::C, "C", 1),
    (CpuReg::Pc, "PC", 5),
    (CpuReg::Ion, "ION", 1),
    (CpuReg::Hold, "HOLD", 1),
    (CpuReg::Mask, "MASK", 6),
    (CpuReg::Sr, "SR", 6),
    (CpuReg::StopDev, "STOP_DEV", 1),
    (CpuReg::Size, "SIZE", 6),
];

/// Whether the register with that number has that name, and so many octal digits.
fn is_register(number: usize, row: &(CpuReg, &str, usize)) -> bool {
    CpuReg::ALL.get(number) == Some(&row.0) && row.0.name() == row.1 && row.0.digits() == row.2
}

#[test]
fn registers_of_the_processor_have_their_names_and_digits(rt: HostRuntime) {
    for (number, row) in REGISTERS.iter().enumerate() {
        holds(&rt, is_register(number, row), row.1);
    }
    holds(&rt, CpuReg::ALL.len() == REGISTERS.len(), "no more");
}
