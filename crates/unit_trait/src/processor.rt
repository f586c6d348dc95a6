ghost use Rattle.std.specs.Prelude.{◌≡◌, ◌≤◌, ◌<◌, ◌^◌, ◌↔◌, IsTrue, length};
ghost use Rattle.unit_trait.specs.Processor.{register_name, largest_of, digits_of, IsWritable, CanHold};

use nova_word::octal_width;

/// A register of the processor, as commands name it.
#[derive(Clone, Copy, Debug, PartialEq, Eq)]
pub enum CpuReg {
    Ac0,
    Ac1,
    Ac2,
    Ac3,
    /// Carry, which is 0 or 1.
    C,
    Pc,
    /// Whether interrupts are on: 0 or 1.
    Ion,
    /// Whether interrupts wait for one more instruction: 0 or 1.
    Hold,
    /// The interrupt mask word.
    Mask,
    /// The switch register: the data switches of the console.
    Sr,
    /// Whether a word to a device that is not there stops the machine: 0 or 1.
    StopDev,
    /// The number of words of memory, which is read only.
    Size,
}

impl CpuReg {
    /// The registers, in order.
    pub const ALL: [CpuReg; 12] = [
        CpuReg::Ac0,
        CpuReg::Ac1,
        CpuReg::Ac2,
        CpuReg::Ac3,
        CpuReg::C,
        CpuReg::Pc,
        CpuReg::Ion,
        CpuReg::Hold,
        CpuReg::Mask,
        CpuReg::Sr,
        CpuReg::StopDev,
        CpuReg::Size,
    ];

    /// The name of the register, in capitals.
    pub fn name(self) -> &'static str
        ensures name { result.now ≡ register_name self }
        ensures short { length result.now ≤ 8 }
    {
        match self {
            CpuReg::Ac0 => "AC0",
            CpuReg::Ac1 => "AC1",
            CpuReg::Ac2 => "AC2",
            CpuReg::Ac3 => "AC3",
            CpuReg::C => "C",
            CpuReg::Pc => "PC",
            CpuReg::Ion => "ION",
            CpuReg::Hold => "HOLD",
            CpuReg::Mask => "MASK",
            CpuReg::Sr => "SR",
            CpuReg::StopDev => "STOP_DEV",
            CpuReg::Size => "SIZE",
        }
    }

    /// The largest value of the register; the least is 0.
    pub fn largest(self) -> u32
        ensures value { result ≡ largest_of self }
        ensures word { result < 2 ^ 16 }
    {
        match self {
            CpuReg::C | CpuReg::Ion | CpuReg::Hold | CpuReg::StopDev => 1,
            CpuReg::Pc => 0o77777,
            CpuReg::Size => 0o100000,
            _ => 0o177777,
        }
    }

    /// How many octal digits the register is printed with: as many as its largest value has.
    pub fn digits(self) -> usize
        ensures exact { result ≡ digits_of self }
        ensures range { (0 < result) × (result ≤ 6) }
        ensures fits { largest_of self < 8 ^ result }
    {
        octal_width(self.largest())
    }

    /// Whether the register can be set at all: `Size` cannot.
    pub fn is_writable(self) -> bool
        ensures { IsTrue result ↔ IsWritable self }
    {
        !matches!(self, CpuReg::Size)
    }

    /// Whether the register can be set to a value: one that is not above its largest. `Size` can be set to none.
    pub fn can_hold(self, value: u32) -> bool
        ensures fits { IsTrue result ↔ CanHold self value }
        ensures word { IsTrue result → value < 2 ^ 16 }
    {
        match self {
            CpuReg::Size => false,
            _ => value <= self.largest(),
        }
    }
}

/// Why a register did not take a value.
#[derive(Clone, Copy, Debug, PartialEq, Eq)]
pub enum RegFault {
    /// The value is above the largest of the register, or the register is `Size`.
    OutOfRange,
}
