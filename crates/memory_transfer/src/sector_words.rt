// The words of a sector of the disk, in memory.
ghost use Rattle.std.specs.Prelude.{◌≡◌, ◌<◌, ◌^◌};
ghost use Rattle.memory_transfer.specs.Words.{sector_words, words_put, bytes_got};

use crate::word_bytes::{sector_bytes, sector_word};
use nova_memory::Memory;
use nova_word::{Addr, Word};

/// How many words a sector has.
const SECTOR_WORDS: u16 = 256;

/// Puts the words of a sector into memory, from an address on.
#[tactic(auto, unfolding(crate::specs::Words::words_put, crate::specs::Words::word_in, crate::specs::Words::sector_words))]
pub fn put_words(memory: &mut Memory, address: u16, bytes: &[u8; 512])
    requires { address < 2 ^ 15 }
    ensures { memory.new ≡ words_put sector_words address bytes.now memory.old }
{
    for n in 0..SECTOR_WORDS {
        let place = 2 * usize::from(n);
        let word = sector_word(bytes[place], bytes[place + 1]);
        memory.write(Addr::of_word(Word(address + n)), Word(word));
    }
}

/// The bytes of the words of a sector, which stand in memory from an address on.
#[tactic(auto, unfolding(crate::specs::Words::bytes_got, crate::specs::Words::sector_words))]
pub fn bytes_of(memory: &Memory, address: u16) -> [u8; 512]
    requires { address < 2 ^ 15 }
    ensures { result ≡ bytes_got sector_words address memory.now }
{
    let mut bytes = [0; 512];
    for n in 0..SECTOR_WORDS {
        let word = memory.read(Addr::of_word(Word(address + n)));
        let place = 2 * usize::from(n);
        let [low, high] = sector_bytes(word.0);
        bytes[place] = low;
        bytes[place + 1] = high;
    }
    bytes
}
