ghost use Rattle.std.specs.Prelude.{◌≡◌, ◌↔◌, ℕ, ◌*◌, ◌<◌, ◌^◌, IsTrue, length, take, nat_lt, if◌then◌else◌};
ghost use Rattle.nova_memory.specs.Memory.{blank_words, IsSize, fits_size};

use nova_word::{Addr, Word};
use std::marker::Model;

/// The words of a machine's memory, how many of them there are, and the rule of its auto-index locations. Who executes
/// many instructions borrows them once, and so reads no pointer for each word.
#[derive(Drop)]
pub struct Words {
    pub(crate) words: [u16; 32768],
    pub(crate) size: u16,
    pub(crate) before: bool,
}

impl Model for Words {
    ghost use Rattle.nova_memory.specs.Memory.{MemoryState, IsMemory, IsSize};

    ghost Value = { MemoryState };

    ghost view = { λ m. record { words = m.words; size = m.size; before = m.before } };

    ghost invariant = { λ m. IsMemory (record { words = m.words; size = m.size; before = m.before }) × IsSize m.size };
}

impl Words {
    ghost use Rattle.nova_memory.specs.Memory.{IsMemory, get, put, blank, resized};
    ghost use Rattle.nova_memory.specs.Whole.{memory_of};

    /// 32768 words of 0.
    pub(crate) fn new() -> Words
        ensures blank { result ≡ blank }
        ensures zeros { (a : ℕ) → get result a ≡ 0 }
    {
        Words {
            words: zeros(),
            size: 32768,
            before: false,
        }
    }

    /// How many words the machine has, a multiple of 4096 from 4096 to 32768.
    pub fn size(&self) -> u16
        ensures size { result ≡ self.now.size }
        ensures valid { IsMemory self.now }
        ensures sized { IsSize self.now.size }
    {
        self.size
    }

    /// The word at an address: 0 where the machine has no memory there.
    #[inline(always)]
    pub fn read(&self, at: Addr) -> Word
        ensures word { result ≡ get self.now at }
        ensures range { result < 2 ^ 16 }
    {
        // The words from the size on are 0.
        Word(self.words[usize::from(at.number())])
    }

    /// Puts a word at an address. It does nothing where the machine has no memory there.
    #[inline(always)]
    pub fn write(&mut self, at: Addr, w: Word)
        ensures { self.new ≡ put self.old at w }
    {
        let place = at.number();
        if place < self.size {
            self.words[usize::from(place)] = w.0;
        }
    }

    /// Puts a word at one of the first 4096 addresses, at which every machine has memory.
    #[inline(always)]
    pub(crate) fn write_low(&mut self, at: Addr, w: Word)
        requires { at < 4096 }
        ensures { self.new ≡ put self.old at w }
    {
        let _ = &self.size;
        self.words[usize::from(at.number())] = w.0;
    }

    /// Gives the machine that many words. The words below that stay, and all others are 0 from then on.
    pub(crate) fn set_size(&mut self, words: u16)
        requires { IsSize words }
        ensures resized { self.new ≡ resized self.old words }
        ensures words { (a : ℕ) → get self.new a ≡ (if nat_lt a words then get self.old a else 0) }
    {
        self.words[usize::from(words)..].fill(0);
        self.size = words;
    }

    /// The words that the machine has, from address 0 on.
    pub(crate) fn as_slice(&self) -> &[u16]
        ensures words { result.now ≡ take self.now.size self.now.words }
        ensures size { length result.now ≡ self.now.size }
    {
        &self.words[..usize::from(self.size)]
    }

    /// Gives the machine these words, from address 0 on, and no others.
    pub(crate) fn set_words(&mut self, words: &[u16])
        requires { IsSize (length words.now) }
        ensures { self.new ≡ memory_of self.old.before words.now }
    {
        let count = words.len();
        self.words[..count].copy_from_slice(words);
        self.words[count..].fill(0);
        self.size = count as u16;
    }
}

/// Whether a machine may have that many K of memory, each of 1024 words: 4, 8 and so on up to 32.
pub fn is_size(k: u64) -> bool
    ensures test { result ≡ fits_size k }
    ensures size { IsTrue result ↔ IsSize (1024 * k) }
{
    k >= 4 && k <= 32 && k % 4 == 0
}

/// 32768 words of 0.
#[tactic(auto, unfolding(crate::specs::Memory::blank_words))]
fn zeros() -> [u16; 32768]
    ensures { result ≡ blank_words }
{
    [0; 32768]
}
