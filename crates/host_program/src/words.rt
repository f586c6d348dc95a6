ghost use Rattle.std.specs.Prelude.{◌≡◌, [], All, IfOk, string_bytes, vec_len};

use std::alloc::{AllocError as OutOfMemory, Global};
use std::env;
use std::env::Env;
use std::io::ErrorKind;

/// The words of the command line behind the program's name. Where one is not UTF-8, all of them are replaced by one
/// empty word: no command line may hold an empty word, so the session refuses it as it should refuse such bytes.
pub fn command_line<R: Env + AllocGlobal>(rt: &R) -> Result<Vec<String>, OutOfMemory> {
    match env::args(rt) {
        Ok(arguments) => arguments.skip(1).collect(rt.alloc()),
        Err(error) => {
            if error.kind() == ErrorKind::InvalidData {
                one_empty_word(rt.alloc())
            } else {
                Err(OutOfMemory)
            }
        }
    }
}

fn one_empty_word(alloc: Global) -> Result<Vec<String>, OutOfMemory>
    ensures one { IfOk result (λ words. vec_len words ≡ 1) }
    ensures empty { IfOk result (λ words. All (λ word. string_bytes word ≡ []) words.items) }
{
    let mut words = Vec::new(alloc);
    words.push(String::new(alloc))?;
    Ok(words)
}
