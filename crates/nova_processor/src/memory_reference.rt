// The memory references, one function for each definition of one. Registers are lent one by one, so that each can stand
// in a register of the host. The hints are `inline`, since a table whose arms are always inlined is called.
ghost use Rattle.std.specs.Prelude.{◌≡◌, ◌<◌, ◌%◌, ◌^◌, Bool};
ghost use Rattle.nova_word.specs.Bits.{bits};
ghost use Rattle.nova_processor.specs.Processor.{joined};
ghost use Rattle.nova_processor.specs.Instruction.{jump, jump_to_subroutine, store_and_skip, load, store};
ghost use Rattle.nova_processor.specs.Instruction.{without_accumulator, memory_reference};
ghost use Rattle.nova_processor.specs.Steps.{Steps};

use crate::burst::Step;
use crate::cpu::advance;
use crate::processor::Processor;
use nova_memory::{ChainLimit, Words, indexed};
use nova_word::{Addr, Word};

#[inline]
#[tactic(auto, unfolding(crate::specs::Instruction::jump))]
fn jump(acs: &[Word; 4], pc: &mut Addr, memory: &Words, address: Addr)
    ensures { (carry : Bool) → joined acs.now carry pc.new memory.now ≡ jump address (joined acs.now carry pc.old memory.now) }
{
    *pc = address;
}

#[inline]
#[tactic(auto, unfolding(crate::specs::Instruction::jump_to_subroutine))]
fn jump_to_subroutine(acs: &mut [Word; 4], pc: &mut Addr, memory: &Words, address: Addr)
    ensures { (carry : Bool) →
        joined acs.new carry pc.new memory.now ≡ jump_to_subroutine address (joined acs.old carry pc.old memory.now) }
{
    acs[3] = Word(pc.plus(1).number());
    *pc = address;
}

#[inline]
#[tactic(auto, unfolding(crate::specs::Instruction::store_and_skip, crate::specs::Instruction::advanced))]
fn store_and_skip(acs: &[Word; 4], pc: &mut Addr, memory: &mut Words, address: Addr, word: Word)
    ensures { (carry : Bool) →
        joined acs.now carry pc.new memory.new ≡ store_and_skip address word (joined acs.now carry pc.old memory.old) }
{
    memory.write(address, word);
    advance(pc, word.0 == 0);
}

#[inline]
#[tactic(auto, unfolding(crate::specs::Instruction::load, crate::specs::Instruction::advanced))]
fn load(acs: &mut [Word; 4], pc: &mut Addr, memory: &Words, accumulator: usize, address: Addr)
    requires { accumulator < 4 }
    ensures { (carry : Bool) →
        joined acs.new carry pc.new memory.now ≡ load accumulator address (joined acs.old carry pc.old memory.now) }
{
    acs[accumulator] = memory.read(address);
    advance(pc, false);
}

#[inline]
#[tactic(auto, unfolding(crate::specs::Instruction::store, crate::specs::Instruction::advanced))]
fn store(acs: &[Word; 4], pc: &mut Addr, memory: &mut Words, accumulator: usize, address: Addr)
    requires { accumulator < 4 }
    ensures { (carry : Bool) →
        joined acs.now carry pc.new memory.new ≡ store accumulator address (joined acs.now carry pc.old memory.old) }
{
    memory.write(address, acs[accumulator]);
    advance(pc, false);
}

#[inline]
#[tactic(auto, unfolding(crate::specs::Instruction::without_accumulator))]
fn without_accumulator(
    acs: &mut [Word; 4],
    pc: &mut Addr,
    memory: &mut Words,
    function: u16,
    address: Addr,
)
    ensures { (carry : Bool) →
        joined acs.new carry pc.new memory.new ≡ without_accumulator function address (joined acs.old carry pc.old memory.old) }
{
    match function {
        0 => jump(acs, pc, memory, address),
        1 => jump_to_subroutine(acs, pc, memory, address),
        2 => {
            let word = memory.read(address).0.wrapping_add(1);
            store_and_skip(acs, pc, memory, address, Word(word));
        }
        _ => {
            let word = memory.read(address).0.wrapping_sub(1);
            store_and_skip(acs, pc, memory, address, Word(word));
        }
    }
}

/// Executes a memory reference, whose bits 0 to 2 are its kind and bits 3 and 4 its function, at its effective address.
#[inline]
fn refer_to(
    acs: &mut [Word; 4],
    pc: &mut Addr,
    memory: &mut Words,
    _word: Word,
    kind: u16,
    function: u16,
    address: Addr,
)
    requires kind { kind ≡ bits 0 2 _word }
    requires function { function ≡ bits 3 4 _word }
    ensures { (carry : Bool) →
        joined acs.new carry pc.new memory.new ≡ memory_reference _word address (joined acs.old carry pc.old memory.old) }
{
    match kind {
        0 => without_accumulator(acs, pc, memory, function, address),
        1 => load(acs, pc, memory, usize::from(function), address),
        _ => store(acs, pc, memory, usize::from(function), address),
    }
}

/// Executes a direct memory reference, whose bits 0 to 2 are its kind, bits 3 and 4 its function and bits 6 and 7 its
/// index. Where these are constants, the host chooses by none of them.
#[inline]
pub(crate) fn refer(
    acs: &mut [Word; 4],
    pc: &mut Addr,
    memory: &mut Words,
    word: Word,
    kind: u16,
    function: u16,
    index: u16,
) -> Step
    requires reference { word < 0o60000 }
    requires kind { kind ≡ bits 0 2 word }
    requires function { function ≡ bits 3 4 word }
    requires direct { bits 5 5 word ≡ 0 }
    requires index { index ≡ bits 6 7 word }
    ensures { (carry : Bool) →
        Steps word (joined acs.old carry pc.old memory.old) result (joined acs.new carry pc.new memory.new) }
{
    // The index and the displacement alone, since these are all that an address is made of.
    let at = indexed(Word(index * 256 + word.0 % 256), *pc, acs);
    refer_to(acs, pc, memory, word, kind, function, at);
    Step::Executed
}

/// Executes an indirect memory reference, whose bits 0 to 2 are its kind and bits 3 and 4 its function.
#[inline(always)]
pub(crate) fn refer_indirect(
    acs: &mut [Word; 4],
    pc: &mut Addr,
    memory: &mut Words,
    word: Word,
    kind: u16,
    function: u16,
) -> Step
    requires reference { word < 0o60000 }
    requires kind { kind ≡ bits 0 2 word }
    requires function { function ≡ bits 3 4 word }
    requires indirect { bits 5 5 word ≡ 1 }
    ensures { (carry : Bool) →
        Steps word (joined acs.old carry pc.old memory.old) result (joined acs.new carry pc.new memory.new) }
{
    let at = indexed(word, *pc, acs);
    match memory.chain(at) {
        Err(ChainLimit) => Step::ChainLimit,
        Ok(address) => {
            refer_to(acs, pc, memory, word, kind, function, address);
            Step::Executed
        }
    }
}

impl Processor {
    ghost use Rattle.nova_processor.specs.Instruction.{memory_reference};

    /// Executes a memory reference at its effective address.
    #[tactic(auto, unfolding(crate::specs::Instruction::memory_reference))]
    pub fn memory_reference(&mut self, word: u16, address: Addr)
        ensures { self.new ≡ memory_reference word address self.old }
    {
        let cpu = &mut self.cpu;
        let words = self.memory.words();
        refer_to(
            &mut cpu.accumulators,
            &mut cpu.pc,
            words,
            Word(word),
            word >> 13,
            (word >> 11) % 4,
            address,
        );
    }
}
