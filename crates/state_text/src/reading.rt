ghost use Rattle.std.specs.Prelude.{◌≡◌, IfOk, Ok};
ghost use Rattle.saved_session.specs.Parts.{State, state_in};
ghost use Rattle.saved_session.specs.Valid.{Valid, Fits};
ghost use Rattle.state_text.specs.Text.{IsTextOf};
ghost use Rattle.state_text.specs.Reading.{reading};
ghost use Rattle.state_text.specs.Gives.{Gives};

use crate::fault::StateFault;
use crate::state_reader::StateReader;
use saved_session::Saved;
use std::alloc::Global;

/// Reads a state file, from all of its bytes, to a session that is valid and whose text they are, in this version or in
/// the first one. The error is the first fault of the bytes from the left, and the digest's where there is no other; or
/// `OutOfMemory`, where there is none for what they say. Nothing else is left behind either.
pub fn read_state(alloc: Global, bytes: &[u8]) -> Result<Saved, StateFault>
    // What is read is valid, and the bytes are its text, in this version or in the first one.
    ensures found { IfOk result (λ s. Valid (state_in s) × IsTextOf (state_in s) bytes.now) }
    // The texts of what is valid are read, unless memory runs out.
    ensures only { (s : State) → Valid s → IsTextOf s bytes.now → Gives state_in result (Ok s) }
    // What is read can be written again.
    ensures fits { IfOk result (λ s. Fits (state_in s)) }
    // Other bytes have their one fault.
    ensures exact { Gives state_in result (reading bytes.now) }
{
    let mut reader = StateReader::new(alloc)?;
    reader.take(bytes)?;
    reader.finish()
}
