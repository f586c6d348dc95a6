ghost use Rattle.std.specs.Prelude.{◌≡◌};
ghost use Rattle.command_words.specs.Counts.{count_in, count_of};

use command_session::is_count;
use nova_word::{NumberFault, read_decimal};

/// A decimal count of instructions, from 1 to 2^48.
pub fn read_count(text: &[u8]) -> Option<u64>
    ensures { result ≡ count_of text.now }
{
    count_in(read_decimal(text))
}

fn count_in(read: Result<u64, NumberFault>) -> Option<u64>
    ensures { result ≡ count_in read }
{
    match read {
        Ok(count) => { if is_count(count) { Some(count) } else { None } }
        Err(_) => None,
    }
}
