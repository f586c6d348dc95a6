// The words of input and output on the processor, and those to device 1, the multiply and divide unit: one function for
// each definition of one.
ghost use Rattle.std.specs.Prelude.{◌≡◌, ◌<◌, ◌≤◌, ℕ, Bool, List, slice_index};
ghost use Rattle.nova_memory.specs.Memory.{MemoryState};
ghost use Rattle.nova_processor.specs.Processor.{joined};
ghost use Rattle.nova_processor.specs.InputOutput.{multiply, divide, input, passed, tested, flag_skips};
ghost use Rattle.nova_processor.specs.InputOutput.{unanswered, multiply_divide};
ghost use Rattle.nova_processor.specs.Steps.{Steps};

use crate::burst::Step;
use crate::cpu::advance;
use crate::processor::Processor;
use nova_alu::{divide_in_place, multiply_in_place};
use nova_word::{Addr, Word};

#[inline(always)]
#[tactic(auto, unfolding(crate::specs::InputOutput::multiply, crate::specs::Instruction::advanced))]
fn multiply(acs: &mut [Word; 4], pc: &mut Addr)
    ensures { (carry : Bool) (memory : MemoryState) →
        joined acs.new carry pc.new memory ≡ multiply (joined acs.old carry pc.old memory) }
{
    multiply_in_place(acs);
    advance(pc, false);
}

#[inline(always)]
#[tactic(auto, unfolding(crate::specs::InputOutput::divide, crate::specs::Instruction::advanced))]
fn divide(acs: &mut [Word; 4], carry: &mut bool, pc: &mut Addr)
    ensures { (memory : MemoryState) →
        joined acs.new carry.new pc.new memory ≡ divide (joined acs.old carry.old pc.old memory) }
{
    divide_in_place(acs, carry);
    advance(pc, false);
}

/// Puts the word of an input into an accumulator.
#[inline(always)]
#[tactic(auto, unfolding(crate::specs::InputOutput::input, crate::specs::Instruction::advanced))]
fn input(acs: &mut [Word; 4], pc: &mut Addr, accumulator: usize, word: Word)
    requires { accumulator < 4 }
    ensures { (carry : Bool) (memory : MemoryState) →
        joined acs.new carry pc.new memory ≡ input accumulator word (joined acs.old carry pc.old memory) }
{
    acs[accumulator] = word;
    advance(pc, false);
}

/// Goes on behind a word that is no skip, with the word that an input answers.
#[inline(always)]
#[tactic(auto, unfolding(crate::specs::InputOutput::passed, crate::specs::InputOutput::past, crate::specs::Instruction::advanced))]
fn pass(acs: &mut [Word; 4], pc: &mut Addr, function: u16, accumulator: usize, word: Word)
    requires { accumulator < 4 }
    ensures { (carry : Bool) (memory : MemoryState) →
        joined acs.new carry pc.new memory ≡ passed function accumulator word (joined acs.old carry pc.old memory) }
{
    match function {
        1 | 3 | 5 => input(acs, pc, accumulator, word),
        _ => advance(pc, false),
    }
}

/// Goes on behind a skip on those flags.
#[inline(always)]
#[tactic(auto, unfolding(crate::specs::InputOutput::tested, crate::specs::Instruction::advanced))]
fn test(pc: &mut Addr, on: u16, busy: bool, done: bool)
    ensures { (acs : List ℕ) (carry : Bool) (memory : MemoryState) →
        joined acs carry pc.new memory ≡ tested on busy done (joined acs carry pc.old memory) }
{
    advance(pc, flag_skips(on, busy, done));
}

/// Executes a word that nothing answers.
#[inline(always)]
#[tactic(auto, unfolding(crate::specs::InputOutput::unanswered))]
fn unanswered(acs: &mut [Word; 4], pc: &mut Addr, word: u16)
    ensures { (carry : Bool) (memory : MemoryState) →
        joined acs.new carry pc.new memory ≡ unanswered word (joined acs.old carry pc.old memory) }
{
    let function = (word >> 8) % 8;
    if function == 7 {
        test(pc, (word >> 6) % 4, false, false);
    } else {
        pass(acs, pc, function, usize::from((word >> 11) % 4), Word(0));
    }
}

/// Executes a word to device 1.
#[inline(always)]
#[tactic(auto, unfolding(crate::specs::InputOutput::multiply_divide))]
fn multiply_divide(acs: &mut [Word; 4], carry: &mut bool, pc: &mut Addr, word: u16)
    ensures { (memory : MemoryState) →
        joined acs.new carry.new pc.new memory ≡ multiply_divide word (joined acs.old carry.old pc.old memory) }
{
    match word {
        0o73301 => multiply(acs, pc),
        0o73101 => divide(acs, carry, pc),
        _ => unanswered(acs, pc, word),
    }
}

/// Executes a word of input and output, where it is one to device 1.
#[inline(always)]
#[tactic(auto, unfolding(crate::specs::Burst::step_of, crate::specs::Burst::passes))]
pub(crate) fn pass_word(acs: &mut [Word; 4], carry: &mut bool, pc: &mut Addr, word: Word) -> Step
    requires transfer { (0o60000 ≤ word) × (word < 0o100000) }
    ensures { (memory : MemoryState) →
        Steps word (joined acs.old carry.old pc.old memory) result (joined acs.new carry.new pc.new memory) }
{
    if word.0 % 64 == 1 {
        multiply_divide(acs, carry, pc, word.0);
        Step::Executed
    } else {
        Step::Transfer
    }
}

impl Processor {
    ghost use Rattle.nova_processor.specs.InputOutput.{input, past, passed, tested, unanswered, multiply_divide};

    /// What an accumulator holds.
    pub fn accumulator(&self, accumulator: usize) -> u16
        requires { accumulator < 4 }
        ensures { result ≡ slice_index self.now.cpu.accumulators accumulator }
    {
        let word = self.cpu.accumulators[accumulator];
        word.0
    }

    /// Puts the word of an input into an accumulator.
    pub fn input(&mut self, accumulator: usize, word: u16)
        requires { accumulator < 4 }
        ensures { self.new ≡ input accumulator word self.old }
    {
        let cpu = &mut self.cpu;
        input(&mut cpu.accumulators, &mut cpu.pc, accumulator, Word(word));
    }

    /// Goes on behind a word that does nothing to the processor.
    #[tactic(auto, unfolding(crate::specs::InputOutput::past, crate::specs::Instruction::advanced))]
    pub fn go_past(&mut self)
        ensures { self.new ≡ past self.old }
    {
        advance(&mut self.cpu.pc, false);
    }

    /// Goes on behind a word that is no skip, with the word that an input answers.
    pub fn pass(&mut self, function: u16, accumulator: usize, word: u16)
        requires { accumulator < 4 }
        ensures { self.new ≡ passed function accumulator word self.old }
    {
        let cpu = &mut self.cpu;
        pass(
            &mut cpu.accumulators,
            &mut cpu.pc,
            function,
            accumulator,
            Word(word),
        );
    }

    /// Goes on behind a skip on those flags: on BUSY, on no BUSY, on DONE, on no DONE, by the number of its test.
    pub fn test(&mut self, on: u16, busy: bool, done: bool)
        ensures { self.new ≡ tested on busy done self.old }
    {
        test(&mut self.cpu.pc, on, busy, done);
    }

    /// Executes a word that nothing answers.
    pub fn unanswered(&mut self, word: u16)
        ensures { self.new ≡ unanswered word self.old }
    {
        let cpu = &mut self.cpu;
        unanswered(&mut cpu.accumulators, &mut cpu.pc, word);
    }

    /// Executes a word to device 1.
    pub fn multiply_divide(&mut self, word: u16)
        ensures { self.new ≡ multiply_divide word self.old }
    {
        let cpu = &mut self.cpu;
        multiply_divide(&mut cpu.accumulators, &mut cpu.carry, &mut cpu.pc, word);
    }
}

/// Whether a skip is taken, by the number of its test: on BUSY, on no BUSY, on DONE, on no DONE.
pub fn flag_skips(test: u16, busy: bool, done: bool) -> bool
    ensures { result ≡ flag_skips test busy done }
{
    match test {
        0 => busy,
        1 => !busy,
        2 => done,
        _ => !done,
    }
}
