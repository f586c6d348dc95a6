ghost use Rattle.std.specs.Prelude.{◌≡◌, if◌then◌else◌};
ghost use Rattle.nova_processor.specs.Instruction.{following};

use nova_word::{Addr, Word};

/// The registers of the processor that instructions change.
#[derive(Clone, Copy, Debug, PartialEq, Eq)]
pub struct Cpu {
    /// AC0 to AC3.
    pub accumulators: [Word; 4],
    pub carry: bool,
    /// The address of the next instruction.
    pub pc: Addr,
}

/// Goes on behind an instruction, and over the next one where it skips.
#[inline(always)]
pub(crate) fn advance(pc: &mut Addr, skips: bool)
    ensures { pc.new ≡ (if skips then following (following pc.old) else following pc.old) }
{
    *pc = pc.plus(1);
    if skips {
        *pc = behind(*pc);
    }
}

/// The address behind another. It is a call of its own, since the host then guesses whether it is made, and begins with
/// the next instruction before this one's result is there. A PC computed from the result would wait for it.
#[inline(never)]
fn behind(address: Addr) -> Addr
    ensures { result ≡ following address }
{
    address.plus(1)
}
