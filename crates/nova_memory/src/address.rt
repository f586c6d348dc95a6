ghost use Rattle.std.specs.Prelude.{◌≡◌, ℕ, ◌%◌, ◌^◌, ◌<◌, ◌≤◌, nat_lt, IfOk};
ghost use Rattle.std.specs.Result.{result_ok};
ghost use Rattle.nova_memory.specs.Memory.{get, put};
ghost use Rattle.nova_memory.specs.Address.{IsAutoIndex, displaced, indexed, changed, tested, chain, address};

use crate::words::Words;
use nova_word::{Addr, Word};

/// The 16th word of an indirect chain whose bit 0 is tested still has it set.
#[derive(Clone, Copy, Debug, PartialEq, Eq)]
pub struct ChainLimit;

impl Words {
    /// The effective address of the memory reference `word`, which stands at `pc`.
    ///
    /// Each level of an indirect chain that passes 20 to 27 (octal) adds one to the word there, each that passes 30 to
    /// 37 takes one from it. Words that were changed stay so after `ChainLimit`.
    #[tactic(auto, unfolding(crate::specs::Address::address))]
    pub fn address(&mut self, word: Word, pc: Addr, acs: [Word; 4]) -> Result<Addr, ChainLimit>
        ensures memory { self.new ≡ (address self.old word pc acs).memory }
        ensures address { result_ok result ≡ (address self.old word pc acs).address }
        ensures range { IfOk result (λ a. a < 2 ^ 15) }

        // No word outside 20 to 37 (octal) changes, and the size never does.
        ensures elsewhere { (a : ℕ) → ¬ IsAutoIndex a → get self.new a ≡ get self.old a }
        ensures size { self.new.size ≡ self.old.size }
    {
        let at = indexed(word, pc, &acs);
        if (word.0 >> 10) & 1 == 1 {
            self.chain(at)
        } else {
            Ok(at)
        }
    }

    /// Follows an indirect reference through that address, up to 16 levels.
    pub fn chain(&mut self, from: Addr) -> Result<Addr, ChainLimit>
        ensures memory { self.new ≡ (chain 16 self.old from).memory }
        ensures address { result_ok result ≡ (chain 16 self.old from).address }
        ensures range { IfOk result (λ a. a < 2 ^ 15) }
    {
        let mut at = from;
        for _level in 0..16u8 {
            let level = self.follow(at);
            match Addr::new(level.0) {
                Some(end) => return Ok(end),
                None => at = Addr::of_word(level),
            }
        }
        Err(ChainLimit)
    }

    /// Changes the word through which an indirect reference passes there. The answer's low 15 bits are where the
    /// reference goes, and its bit 0 says whether it goes on.
    #[inline(always)]
    fn follow(&mut self, at: Addr) -> Word
        ensures address { result % 2 ^ 15 ≡ changed at (get self.old at) % 2 ^ 15 }
        ensures ends { nat_lt result (2 ^ 15)
            ≡ nat_lt (tested self.old.before (get self.old at) (changed at (get self.old at))) (2 ^ 15) }
        ensures memory { self.new ≡ put self.old at (changed at (get self.old at)) }
    {
        let word = self.read(at);
        if at.number() / 16 != 1 {
            return word;
        }
        if self.before {
            return self.follow_by_old(at, word);
        }
        let used = changed(at, word);
        self.write_low(at, used);
        used
    }

    /// The same through one of 20 to 37 (octal) whose word is tested before its change. It stands apart
    /// and is no call: over one the host would keep PC elsewhere, and move it at each skip.
    #[inline(always)]
    fn follow_by_old(&mut self, at: Addr, word: Word) -> Word
        ensures address { result % 2 ^ 15 ≡ changed at word % 2 ^ 15 }
        ensures ends { nat_lt result (2 ^ 15) ≡ nat_lt word (2 ^ 15) }
        ensures memory { self.new ≡ put self.old at (changed at word) }
    {
        let used = changed(at, word);
        self.write(at, used);
        Word(used.0 % 0o100000 + word.0 / 0o100000 * 0o100000)
    }
}

/// The address that a memory reference, which stands at `pc`, names before it is followed. One accumulator is read at
/// the most.
#[inline(always)]
#[tactic(auto, unfolding(crate::specs::Address::indexed))]
pub fn indexed(word: Word, pc: Addr, acs: &[Word; 4]) -> Addr
    ensures { result ≡ indexed word pc acs.now }
{
    let displacement = word.0 % 256;
    let index = (word.0 >> 8) % 4;
    if index == 0 {
        Addr::of_word(Word(displacement))
    } else if index == 1 {
        displaced(Word(pc.number()), displacement)
    } else {
        displaced(acs[usize::from(index)], displacement)
    }
}

/// A base plus a signed displacement of 8 bits, around the end of memory.
#[inline(always)]
fn displaced(base: Word, displacement: u16) -> Addr
    requires { displacement < 2 ^ 8 }
    ensures { result ≡ displaced base displacement }
{
    // Half of its range on both sides of 0, in place of a choice by its sign.
    Addr::of_word(base).plus((displacement + 128) % 256 + 32640)
}

/// What an indirect reference through an address makes of the word there.
#[inline(always)]
fn changed(at: Addr, word: Word) -> Word
    ensures { result ≡ changed at word }
{
    match at.number() {
        0o20..=0o27 => Word(word.0.wrapping_add(1)),
        0o30..=0o37 => Word(word.0.wrapping_sub(1)),
        _ => word,
    }
}
