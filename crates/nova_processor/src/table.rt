// The table of the memory references, and of the words of input and output beside them (How to Use the Nova Computers,
// "Instruction Formats"). Where bit 5 is 0, it is one choice by bits 0 to 7, the index among them, though it stands in
// three functions: the compiler puts them together. An arm has one constant, since a range or an alternative would be a
// comparison in front of the choice.
ghost use Rattle.std.specs.Prelude.{◌≡◌, ◌<◌, ◌≤◌};
ghost use Rattle.nova_word.specs.Bits.{bits};
ghost use Rattle.nova_processor.specs.Processor.{joined};
ghost use Rattle.nova_processor.specs.Steps.{Steps};

use crate::burst::Step;
use crate::input_output::pass_word;
use crate::memory_reference::{refer, refer_indirect};
use nova_memory::Words;
use nova_word::{Addr, Word};

/// Executes a direct memory reference or a word of input and output.
#[inline(always)]
pub(crate) fn direct(
    acs: &mut [Word; 4],
    carry: &mut bool,
    pc: &mut Addr,
    memory: &mut Words,
    word: Word,
) -> Step
    requires no_arithmetic { word < 0o100000 }
    requires direct { bits 5 5 word ≡ 0 }
    ensures { Steps word (joined acs.old carry.old pc.old memory.old) result (joined acs.new carry.new pc.new memory.new) }
{
    match word.0 >> 8 {
        // JMP
        0o000 => refer(acs, pc, memory, word, 0, 0, 0),
        0o001 => refer(acs, pc, memory, word, 0, 0, 1),
        0o002 => refer(acs, pc, memory, word, 0, 0, 2),
        0o003 => refer(acs, pc, memory, word, 0, 0, 3),
        // JSR
        0o010 => refer(acs, pc, memory, word, 0, 1, 0),
        0o011 => refer(acs, pc, memory, word, 0, 1, 1),
        0o012 => refer(acs, pc, memory, word, 0, 1, 2),
        0o013 => refer(acs, pc, memory, word, 0, 1, 3),
        // ISZ
        0o020 => refer(acs, pc, memory, word, 0, 2, 0),
        0o021 => refer(acs, pc, memory, word, 0, 2, 1),
        0o022 => refer(acs, pc, memory, word, 0, 2, 2),
        0o023 => refer(acs, pc, memory, word, 0, 2, 3),
        // DSZ
        0o030 => refer(acs, pc, memory, word, 0, 3, 0),
        0o031 => refer(acs, pc, memory, word, 0, 3, 1),
        0o032 => refer(acs, pc, memory, word, 0, 3, 2),
        0o033 => refer(acs, pc, memory, word, 0, 3, 3),
        _ => direct_load(acs, carry, pc, memory, word),
    }
}

/// Executes a direct LDA or STA, or a word of input and output.
#[inline(always)]
fn direct_load(
    acs: &mut [Word; 4],
    carry: &mut bool,
    pc: &mut Addr,
    memory: &mut Words,
    word: Word,
) -> Step
    requires no_arithmetic { word < 0o100000 }
    requires direct { bits 5 5 word ≡ 0 }
    requires accumulator { 0o20000 ≤ word }
    ensures { Steps word (joined acs.old carry.old pc.old memory.old) result (joined acs.new carry.new pc.new memory.new) }
{
    match word.0 >> 8 {
        // LDA to accumulator 0
        0o040 => refer(acs, pc, memory, word, 1, 0, 0),
        0o041 => refer(acs, pc, memory, word, 1, 0, 1),
        0o042 => refer(acs, pc, memory, word, 1, 0, 2),
        0o043 => refer(acs, pc, memory, word, 1, 0, 3),
        // LDA to accumulator 1
        0o050 => refer(acs, pc, memory, word, 1, 1, 0),
        0o051 => refer(acs, pc, memory, word, 1, 1, 1),
        0o052 => refer(acs, pc, memory, word, 1, 1, 2),
        0o053 => refer(acs, pc, memory, word, 1, 1, 3),
        // LDA to accumulator 2
        0o060 => refer(acs, pc, memory, word, 1, 2, 0),
        0o061 => refer(acs, pc, memory, word, 1, 2, 1),
        0o062 => refer(acs, pc, memory, word, 1, 2, 2),
        0o063 => refer(acs, pc, memory, word, 1, 2, 3),
        // LDA to accumulator 3
        0o070 => refer(acs, pc, memory, word, 1, 3, 0),
        0o071 => refer(acs, pc, memory, word, 1, 3, 1),
        0o072 => refer(acs, pc, memory, word, 1, 3, 2),
        0o073 => refer(acs, pc, memory, word, 1, 3, 3),
        _ => direct_store(acs, carry, pc, memory, word),
    }
}

/// Executes a direct STA or a word of input and output.
#[inline(always)]
fn direct_store(
    acs: &mut [Word; 4],
    carry: &mut bool,
    pc: &mut Addr,
    memory: &mut Words,
    word: Word,
) -> Step
    requires no_arithmetic { word < 0o100000 }
    requires direct { bits 5 5 word ≡ 0 }
    requires no_load { 0o40000 ≤ word }
    ensures { Steps word (joined acs.old carry.old pc.old memory.old) result (joined acs.new carry.new pc.new memory.new) }
{
    match word.0 >> 8 {
        // STA from accumulator 0
        0o100 => refer(acs, pc, memory, word, 2, 0, 0),
        0o101 => refer(acs, pc, memory, word, 2, 0, 1),
        0o102 => refer(acs, pc, memory, word, 2, 0, 2),
        0o103 => refer(acs, pc, memory, word, 2, 0, 3),
        // STA from accumulator 1
        0o110 => refer(acs, pc, memory, word, 2, 1, 0),
        0o111 => refer(acs, pc, memory, word, 2, 1, 1),
        0o112 => refer(acs, pc, memory, word, 2, 1, 2),
        0o113 => refer(acs, pc, memory, word, 2, 1, 3),
        // STA from accumulator 2
        0o120 => refer(acs, pc, memory, word, 2, 2, 0),
        0o121 => refer(acs, pc, memory, word, 2, 2, 1),
        0o122 => refer(acs, pc, memory, word, 2, 2, 2),
        0o123 => refer(acs, pc, memory, word, 2, 2, 3),
        // STA from accumulator 3
        0o130 => refer(acs, pc, memory, word, 2, 3, 0),
        0o131 => refer(acs, pc, memory, word, 2, 3, 1),
        0o132 => refer(acs, pc, memory, word, 2, 3, 2),
        0o133 => refer(acs, pc, memory, word, 2, 3, 3),
        _ => pass_word(acs, carry, pc, word),
    }
}

/// Executes an indirect memory reference or a word of input and output, by its bits 0 to 4.
#[inline(always)]
pub(crate) fn indirect(
    acs: &mut [Word; 4],
    carry: &mut bool,
    pc: &mut Addr,
    memory: &mut Words,
    word: Word,
) -> Step
    requires no_arithmetic { word < 0o100000 }
    requires indirect { bits 5 5 word ≡ 1 }
    ensures { Steps word (joined acs.old carry.old pc.old memory.old) result (joined acs.new carry.new pc.new memory.new) }
{
    match word.0 >> 11 {
        0 => refer_indirect(acs, pc, memory, word, 0, 0),
        1 => refer_indirect(acs, pc, memory, word, 0, 1),
        2 => refer_indirect(acs, pc, memory, word, 0, 2),
        3 => refer_indirect(acs, pc, memory, word, 0, 3),
        4 => refer_indirect(acs, pc, memory, word, 1, 0),
        5 => refer_indirect(acs, pc, memory, word, 1, 1),
        6 => refer_indirect(acs, pc, memory, word, 1, 2),
        7 => refer_indirect(acs, pc, memory, word, 1, 3),
        8 => refer_indirect(acs, pc, memory, word, 2, 0),
        9 => refer_indirect(acs, pc, memory, word, 2, 1),
        10 => refer_indirect(acs, pc, memory, word, 2, 2),
        11 => refer_indirect(acs, pc, memory, word, 2, 3),
        _ => pass_word(acs, carry, pc, word),
    }
}
