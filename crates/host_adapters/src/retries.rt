// Which calls are made again, and how often.
ghost use Rattle.std.specs.Prelude.{◌≡◌, ◌↔◌, IsTrue};

use std::io::ErrorKind;

/// How often in a row a call that a signal cut short is made again.
pub const RETRIES: u32 = 64;

/// Whether a call that met an error of that kind is made again: exactly one that a signal cut short.
pub fn is_tried_again(kind: ErrorKind) -> bool
    ensures { IsTrue result ↔ kind ≡ ErrorKind.Interrupted }
{
    kind == ErrorKind::Interrupted
}
