ghost use Rattle.std.specs.Prelude.{◌≡◌, IfOk};
ghost use Rattle.std.specs.Result.{result_ok};
ghost use Rattle.nova_memory.specs.Memory.{put};
ghost use Rattle.nova_memory.specs.Address.{address};
ghost use Rattle.nova_processor.specs.Processor.{new_processor};

use crate::cpu::Cpu;
use nova_memory::{ChainLimit, Memory};
use nova_word::{Addr, Word};
use std::alloc::{AllocError, Global};
use std::marker::Model;

/// The processor with its memory: all that instructions work on.
#[derive(Drop)]
pub struct Processor {
    pub cpu: Cpu,
    pub memory: Memory,
}

impl Model for Processor {
    ghost use Rattle.nova_processor.specs.Processor.{ProcessorState};

    ghost Value = { ProcessorState };

    ghost view = { λ p. record { cpu = p.cpu; memory = p.memory } };
}

impl Processor {
    /// A processor with 32768 words of memory. All of it is 0.
    pub fn new(alloc: Global) -> Result<Processor, AllocError>
        ensures { IfOk result (λ p. p ≡ new_processor) }
    {
        Ok(Processor {
            cpu: Cpu {
                accumulators: [Word(0), Word(0), Word(0), Word(0)],
                carry: false,
                pc: Addr::of_word(Word(0)),
            },
            memory: Memory::new(alloc)?,
        })
    }

    /// Stores PC in location 0, and follows the reference of a word that stands at PC.
    pub fn follow_interrupt(&mut self, word: Word) -> Result<Addr, ChainLimit>
        ensures memory { self.new ≡ record self.old {
          memory = (address (put self.old.memory 0 self.old.cpu.pc) word self.old.cpu.pc self.old.cpu.accumulators).memory;
        } }
        ensures address { result_ok result
            ≡ (address (put self.old.memory 0 self.old.cpu.pc) word self.old.cpu.pc self.old.cpu.accumulators).address }
    {
        let pc = self.cpu.pc;
        self.memory.write(Addr::of_word(Word(0)), Word(pc.number()));
        self.memory.address(word, pc, self.cpu.accumulators)
    }
}
