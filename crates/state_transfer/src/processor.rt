// The processor, with its interrupts, its switches, the rule of the auto-index locations and the clock: what is saved
// of them is taken, and put back.
ghost use Rattle.std.specs.Prelude.{◌≡◌};
ghost use Rattle.unit_trait.specs.Processor.{CanHold};
ghost use Rattle.nova_machine.specs.Registers.{with_register};
ghost use Rattle.saved_session.specs.Valid.{IsCpu};
ghost use Rattle.state_transfer.specs.Processor.{saved_cpu, with_registers_of, with_interrupts_of, with_switches_of, with_cpu_of};

use nova_machine::Machine;
use nova_word::Word;
use saved_session::SavedCpu;
use unit_trait::{CpuReg, Unit};

// The words of the accumulators.
fn numbers_of(words: [Word; 4]) -> [u16; 4]
    ensures { result ≡ words }
{
    let [first, second, third, fourth] = words;
    [first.0, second.0, third.0, fourth.0]
}

/// The processor, the interrupts, the switches, the rule of the auto-index locations and the clock.
pub fn taken_cpu<U: Unit>(machine: &Machine<U>) -> SavedCpu
    ensures { result ≡ saved_cpu machine.now }
{
    SavedCpu {
        size_k: (machine.memory().size() / 1024) as u8,
        acs: numbers_of(machine.accumulators()),
        carry: machine.cpu_reg(CpuReg::C) as u8,
        pc: machine.pc().number(),
        on: machine.cpu_reg(CpuReg::Ion) as u8,
        hold: machine.cpu_reg(CpuReg::Hold) as u8,
        mask: machine.cpu_reg(CpuReg::Mask) as u16,
        sr: machine.cpu_reg(CpuReg::Sr) as u16,
        stop_dev: machine.cpu_reg(CpuReg::StopDev) as u8,
        autobit: machine.memory().autobit() as u8,
        time: machine.time(),
        keys_taken: machine.keys_taken(),
    }
}

// These numbers as words.
fn words_of(numbers: [u16; 4]) -> [Word; 4]
    ensures { result ≡ numbers }
{
    [
        Word(numbers[0]),
        Word(numbers[1]),
        Word(numbers[2]),
        Word(numbers[3]),
    ]
}

// Sets a register to a value that it can hold.
fn put_register<U: Unit>(machine: &mut Machine<U>, register: CpuReg, value: u16)
    requires { CanHold register value }
    ensures { machine.new ≡ with_register machine.old register value }
{
    let _fits = machine.set_cpu_reg(register, u32::from(value));
}

// The registers that instructions change.
fn put_registers<U: Unit>(machine: &mut Machine<U>, cpu: &SavedCpu)
    requires { IsCpu cpu.now }
    ensures { machine.new ≡ with_registers_of machine.old cpu.now }
{
    machine.set_accumulators(words_of(cpu.acs));
    put_register(machine, CpuReg::C, u16::from(cpu.carry));
    put_register(machine, CpuReg::Pc, cpu.pc);
}

// The interrupts.
fn put_interrupts<U: Unit>(machine: &mut Machine<U>, cpu: &SavedCpu)
    requires { IsCpu cpu.now }
    ensures { machine.new ≡ with_interrupts_of machine.old cpu.now }
{
    put_register(machine, CpuReg::Ion, u16::from(cpu.on));
    put_register(machine, CpuReg::Hold, u16::from(cpu.hold));
    put_register(machine, CpuReg::Mask, cpu.mask);
}

// The switches.
fn put_switches<U: Unit>(machine: &mut Machine<U>, cpu: &SavedCpu)
    requires { IsCpu cpu.now }
    ensures { machine.new ≡ with_switches_of machine.old cpu.now }
{
    put_register(machine, CpuReg::Sr, cpu.sr);
    put_register(machine, CpuReg::StopDev, u16::from(cpu.stop_dev));
}

/// The processor, the interrupts, the switches and the clock. Memory stays as it is, with its rule, whatever its size.
pub fn put_cpu<U: Unit>(machine: &mut Machine<U>, cpu: &SavedCpu)
    requires { IsCpu cpu.now }
    ensures { machine.new ≡ with_cpu_of machine.old cpu.now }
{
    put_registers(machine, cpu);
    put_interrupts(machine, cpu);
    put_switches(machine, cpu);
    machine.set_clock(cpu.time, cpu.keys_taken);
}
