// Instructions on the processor alone, one behind another.
ghost use Rattle.std.specs.Prelude.{◌≡◌};
ghost use Rattle.nova_processor.specs.Burst.{IsBurst};

use crate::arithmetic::compute;
use crate::cpu::Cpu;
use crate::processor::Processor;
use crate::stops::Stops;
use crate::table::{direct, indirect};

/// What a step of the processor came to. It is small, since each instruction answers one.
#[derive(Clone, Copy, Debug, PartialEq, Eq)]
pub enum Step {
    Executed,
    /// A word of input and output to a device other than 1 is next. It was not executed.
    Transfer,
    /// An indirect chain does not end. The instruction was not executed, and the words that the chain changed stay so.
    ChainLimit,
}

/// What ended a burst.
#[derive(Clone, Copy, Debug, PartialEq, Eq)]
pub enum BurstEnd {
    /// Its budget was spent.
    Spent,
    /// A word of input and output to a device other than 1 is next. It was not executed.
    Transfer,
    /// An indirect chain does not end. The instruction was not executed, and the words that the chain changed stay so.
    ChainLimit,
    /// The instruction at one of the stops is next. It was not executed.
    AtStop,
}

/// How many instructions a burst has executed, and what ended it.
#[derive(Clone, Copy, Debug, PartialEq, Eq)]
pub struct Burst {
    pub done: u64,
    pub end: BurstEnd,
}

impl Processor {
    /// Executes instructions, as many as the budget at the most, up to one that is not the processor's alone or stands
    /// at a stop. It knows no unit, no time and no interrupt, and takes no memory.
    ///
    /// Registers stand apart for so long, so that the host holds PC and Carry in registers of its own, and are written
    /// back on the way out. Where bit 0 of a word is 1, it is an arithmetic or logical instruction, and else bit 5 says
    /// whether a memory reference is indirect (How to Use the Nova Computers, "Instruction Formats").
    #[inline(never)]
    pub fn burst<S: Stops>(&mut self, budget: u64, stops: &S) -> Burst
        ensures { IsBurst (S.stops stops.now) self.old budget result.done result.end self.new }
    {
        let Cpu {
            accumulators: mut acs,
            mut carry,
            mut pc,
        } = self.cpu;
        let words = self.memory.words();
        for done in 0..budget {
            if stops.is_at(pc) {
                self.cpu = Cpu {
                    accumulators: acs,
                    carry,
                    pc,
                };
                return Burst {
                    done,
                    end: BurstEnd::AtStop,
                };
            }
            let word = words.read(pc);
            let end = if word.0 >= 0o100000 {
                compute(&mut acs, &mut carry, &mut pc, word)
            } else if (word.0 >> 10) % 2 == 1 {
                indirect(&mut acs, &mut carry, &mut pc, words, word)
            } else {
                direct(&mut acs, &mut carry, &mut pc, words, word)
            };
            match end {
                Step::Executed => (),
                Step::Transfer => {
                    self.cpu = Cpu {
                        accumulators: acs,
                        carry,
                        pc,
                    };
                    return Burst {
                        done,
                        end: BurstEnd::Transfer,
                    };
                }
                Step::ChainLimit => {
                    self.cpu = Cpu {
                        accumulators: acs,
                        carry,
                        pc,
                    };
                    return Burst {
                        done,
                        end: BurstEnd::ChainLimit,
                    };
                }
            }
        }
        self.cpu = Cpu {
            accumulators: acs,
            carry,
            pc,
        };
        Burst {
            done: budget,
            end: BurstEnd::Spent,
        }
    }
}
