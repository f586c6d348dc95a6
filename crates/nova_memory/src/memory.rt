ghost use Rattle.std.specs.Prelude.{◌≡◌, ℕ, ◌<◌, ◌≤◌, ◌^◌, IfOk, length, take, slice_index, nat_lt, if◌then◌else◌};
ghost use Rattle.std.specs.Result.{result_ok};
ghost use Rattle.std.specs.Borrow.{sem};
ghost use Rattle.nova_memory.specs.Lending.{LendsWords};
ghost use Rattle.nova_memory.specs.Address.{IsAutoIndex, address};

use crate::address::ChainLimit;
use crate::words::Words;
use nova_word::{Addr, Word};
use std::alloc::{AllocError, Global};
use std::marker::Model;

/// The memory of a machine.
#[derive(Drop)]
pub struct Memory {
    inside: Box<Words>,
}

impl Model for Memory {
    ghost use Rattle.nova_memory.specs.Memory.{MemoryState};

    ghost Value = { MemoryState };

    ghost view = { λ m. m.inside.value };
}

impl Memory {
    ghost use Rattle.nova_memory.specs.Memory.{IsMemory, IsSize, get, put, blank, resized, by_rule};
    ghost use Rattle.nova_memory.specs.Whole.{memory_of};

    /// A memory of 32768 words of 0.
    pub fn new(alloc: Global) -> Result<Memory, AllocError>
        ensures blank { IfOk result (λ m. m ≡ blank) }
        ensures zeros { IfOk result (λ m. (a : ℕ) → get m a ≡ 0) }
    {
        Ok(Memory {
            inside: Box::new(alloc, Words::new())?,
        })
    }

    /// How many words the machine has, a multiple of 4096 from 4096 to 32768.
    pub fn size(&self) -> u16
        ensures size { result ≡ self.now.size }
        ensures valid { IsMemory self.now }
        ensures sized { IsSize self.now.size }
    {
        self.inside.size()
    }

    /// The word at an address: 0 where the machine has no memory there.
    pub fn read(&self, at: Addr) -> Word
        ensures word { result ≡ get self.now at }
        ensures range { result < 2 ^ 16 }
    {
        self.inside.read(at)
    }

    /// Puts a word at an address. It does nothing where the machine has no memory there.
    pub fn write(&mut self, at: Addr, w: Word)
        ensures { self.new ≡ put self.old at w }
    {
        self.inside.write(at, w);
    }

    /// Gives the machine that many words, a multiple of 4096 from 4096 to 32768.
    ///
    /// The words below that stay. All others are lost, and 0 from then on, also where the machine is given more again.
    pub fn set_size(&mut self, words: u16)
        requires { IsSize words }
        ensures resized { self.new ≡ resized self.old words }
        ensures words { (a : ℕ) → get self.new a ≡ (if nat_lt a words then get self.old a else 0) }
    {
        self.inside.set_size(words);
    }

    /// The words that the machine has, from address 0 on: as many as its size says.
    pub fn as_slice(&self) -> &[u16]
        ensures words { result.now ≡ take self.now.size self.now.words }
        ensures size { length result.now ≡ self.now.size }
    {
        self.inside.as_slice()
    }

    /// Gives the machine these words, from address 0 on, and no others: their number is its size, a multiple of 4096
    /// from 4096 to 32768. What stood there is lost.
    pub fn set_words(&mut self, words: &[u16])
        requires { IsSize (length words.now) }
        ensures whole { self.new ≡ memory_of self.old.before words.now }
        ensures words { (a : ℕ) → get self.new a ≡ slice_index words.now a }
    {
        self.inside.set_words(words);
    }

    /// Whether an indirect reference through an auto-index location tests bit 0 of the word there before it changes
    /// that, and not of the changed word.
    pub fn autobit(&self) -> bool
        ensures { result ≡ self.now.before }
    {
        self.inside.before
    }

    /// Makes such references test bit 0 before the change, or behind it. Nothing else changes.
    pub fn set_autobit(&mut self, before: bool)
        ensures { self.new ≡ by_rule before self.old }
    {
        self.inside.before = before;
    }

    /// The effective address of the memory reference `word`, which stands at `pc`.
    ///
    /// Each level of an indirect chain that passes 20 to 27 (octal) adds one to the word there, each that passes 30 to
    /// 37 takes one from it. Words that were changed stay so after `ChainLimit`.
    pub fn address(&mut self, word: Word, pc: Addr, acs: [Word; 4]) -> Result<Addr, ChainLimit>
        ensures memory { self.new ≡ (address self.old word pc acs).memory }
        ensures address { result_ok result ≡ (address self.old word pc acs).address }
        ensures range { IfOk result (λ a. a < 2 ^ 15) }

        // No word outside 20 to 37 (octal) changes, and the size never does.
        ensures elsewhere { (a : ℕ) → ¬ IsAutoIndex a → get self.new a ≡ get self.old a }
        ensures size { self.new.size ≡ self.old.size }
    {
        self.inside.address(word, pc, acs)
    }

    /// The words where they stand.
    pub fn words(&mut self) -> &mut Words
        ensures* writes_back { sem 𝓛 (LendsWords self.entry result) }
        ensures value { result.now ≡ self.old }
    {
        &mut self.inside
    }
}
