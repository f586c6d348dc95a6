ghost use Rattle.std.specs.Prelude.{◌≡◌, ◌≤◌, IsTrue};
ghost use Rattle.file_traits.specs.OneList.{longest_list, shown};
ghost use Rattle.simh_tape.specs.Reading.{said, failure, AnswerWithin, FailsReading, CountsFailed};
ghost use Rattle.simh_tape.specs.Spacing.{item_act, space_act, SpacedWithin};

use crate::items::{Item, TapeFault};
use crate::reading::{read_next, read_previous};
use file_traits::Bytes;
use unit_trait::TapeEnd;

/// Where spacing ended: the place of the tape then, and how many blocks it has passed.
#[derive(Clone, Copy, Debug, PartialEq, Eq)]
pub struct Spaced {
    pub place: u64,
    pub passed: u16,
    pub end: TapeEnd,
}

/// Passes over at most `count` blocks, from a place on. A tape mark is passed too, and ends it. So do the end of the
/// medium and the load point. After a fault the tape is where it was.
pub fn space<B: Bytes>(
    tape: &mut B,
    place: u64,
    count: u16,
    forward: bool,
) -> Result<Spaced, TapeFault>
    requires { place ≤ longest_list }
    ensures spaced { IsTrue B.tells → result ≡ space_act (shown (B.content tape.old)) place count forward (failure result) }
    ensures bound { SpacedWithin count result }
    ensures same { B.content tape.new ≡ B.content tape.old }
    ensures writable { B.writable tape.new ≡ B.writable tape.old }
    ensures behind { B.behind tape.new ≡ B.behind tape.old }
    ensures call { FailsReading forward result }
    ensures counts { CountsFailed (B.fault_count tape.old) (B.fault_count tape.new) result }
{
    let mut at = place;
    let mut passed = 0;
    while passed < count {
        match read_item(tape, at, forward) {
            Ok(Item::Block { place: behind, .. }) => {
                at = behind;
                passed += 1;
            }
            Ok(Item::Mark { place: behind }) => {
                return Ok(Spaced {
                    place: behind,
                    passed,
                    end: TapeEnd::Mark,
                });
            }
            Ok(Item::EndOfMedium) => {
                return Ok(Spaced {
                    place: at,
                    passed,
                    end: TapeEnd::Medium,
                });
            }
            Ok(Item::LoadPoint) => {
                return Ok(Spaced {
                    place: 0,
                    passed,
                    end: TapeEnd::LoadPoint,
                });
            }
            Err(fault) => return Err(fault),
        }
    }
    Ok(Spaced {
        place: at,
        passed,
        end: TapeEnd::Plain,
    })
}

// The item behind a place, or before it. No data are read.
fn read_item<B: Bytes>(tape: &mut B, place: u64, forward: bool) -> Result<Item, TapeFault>
    requires { place ≤ longest_list }
    ensures item { IsTrue B.tells → said result ≡ item_act (shown (B.content tape.old)) place forward (failure result) }
    ensures bound { AnswerWithin 0 result }
    ensures same { B.content tape.new ≡ B.content tape.old }
    ensures writable { B.writable tape.new ≡ B.writable tape.old }
    ensures behind { B.behind tape.new ≡ B.behind tape.old }
    ensures call { FailsReading forward result }
    ensures counts { CountsFailed (B.fault_count tape.old) (B.fault_count tape.new) result }
{
    let mut nothing = [0u8; 0];
    if forward {
        read_next(tape, place, &mut nothing)
    } else {
        read_previous(tape, place, &mut nothing)
    }
}
