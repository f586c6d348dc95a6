// The arithmetic and logical instructions.
ghost use Rattle.std.specs.Prelude.{◌≡◌, ◌≤◌};
ghost use Rattle.nova_memory.specs.Memory.{MemoryState};
ghost use Rattle.nova_processor.specs.Processor.{joined};
ghost use Rattle.nova_processor.specs.Steps.{Steps};

use crate::burst::Step;
use crate::cpu::advance;
use crate::processor::Processor;
use nova_alu::{arith, arith_in_place};
use nova_word::{Addr, Word};

/// Executes an arithmetic or logical instruction.
#[inline(always)]
#[tactic(auto, unfolding(crate::specs::Burst::step_of, crate::specs::Instruction::arithmetic, crate::specs::Instruction::advanced))]
pub(crate) fn compute(acs: &mut [Word; 4], carry: &mut bool, pc: &mut Addr, word: Word) -> Step
    requires arithmetic { 0o100000 ≤ word }
    ensures { (memory : MemoryState) →
        Steps word (joined acs.old carry.old pc.old memory) result (joined acs.new carry.new pc.new memory) }
{
    let skips = arith_in_place(word, acs, carry);
    advance(pc, skips);
    Step::Executed
}

impl Processor {
    ghost use Rattle.nova_processor.specs.Instruction.{arithmetic};

    /// Executes an arithmetic or logical instruction.
    #[tactic(auto, unfolding(crate::specs::Instruction::arithmetic, crate::specs::Instruction::advanced))]
    pub fn arithmetic(&mut self, word: Word)
        ensures { self.new ≡ arithmetic word self.old }
    {
        let acs = self.cpu.accumulators;
        let done = arith(word, acs, self.cpu.carry);
        let acs = done.acs;
        self.cpu.accumulators = acs;
        self.cpu.carry = done.carry;
        advance(&mut self.cpu.pc, done.skip);
    }
}
