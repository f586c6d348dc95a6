ghost use Rattle.std.specs.Prelude.{◌≡◌, ◌<◌, map, None, IfSome, is_some, option_map};
ghost use Rattle.unit_trait.specs.Calls.{Io};
ghost use Rattle.unit_trait.specs.Kinds.{units_of};
ghost use Rattle.unit_trait.specs.Row.{row, moved, Fits, IsLater};
ghost use Rattle.unit_list.specs.Bus.{unit_at, row_at, after_at, flags_of, kinds_of, AllFit};
ghost use Rattle.unit_list.specs.Places.{places_in};

use crate::places::Places;
use unit_trait::{BUSY, DONE, IoAnswer, IoOp, Kind, Pulse, Unit};

/// The flags of a device: whether it is at work, and whether it has done its work.
#[derive(Clone, Copy, Debug, PartialEq, Eq)]
pub struct Flags {
    pub busy: bool,
    pub done: bool,
}

/// What the device with a code says to a word of input or output.
#[derive(Clone, Copy, Debug, PartialEq, Eq)]
pub struct BusAnswer {
    /// The kind of the device.
    pub kind: Kind,
    /// What it says.
    pub answer: IoAnswer,
}

/// Whether a unit has that code.
pub fn has_unit<U: Unit>(places: &Places, units: &[U], code: u8) -> bool
    requires { places.now ≡ places_in (kinds_of (map U.unit_state units.now)) }
    ensures { result ≡ is_some (unit_at code (map U.unit_state units.now)) }
{
    places.of(units, code).is_some()
}

/// The flags of the device with that code; none where no unit has it.
#[tactic(auto, using(crate::proofs::Standing::standing))]
pub fn flags_at<U: Unit>(places: &Places, units: &[U], code: u8) -> Option<Flags>
    requires { places.now ≡ places_in (kinds_of (map U.unit_state units.now)) }
    ensures { result ≡ option_map flags_of (unit_at code (map U.unit_state units.now)) }
{
    match places.of(units, code) {
        Some(place) => Some(flags_of(&units[place])),
        None => None,
    }
}

fn flags_of<U: Unit>(unit: &U) -> Flags
    ensures { result ≡ flags_of (U.unit_state unit.now) }
{
    Flags {
        busy: unit.reg(BUSY) == 1,
        done: unit.reg(DONE) == 1,
    }
}

/// A word of input or output for the device with that code: its function, its pulse, and the word that is sent. None
/// exactly where no unit has the code, and then nothing has changed.
#[tactic(auto, using(crate::proofs::Standing::standing))]
pub fn io_at<U: Unit>(
    places: &Places,
    units: &mut [U],
    code: u8,
    op: IoOp,
    pulse: Pulse,
    word: u16,
) -> Option<BusAnswer>
    requires { places.now ≡ places_in (kinds_of (map U.unit_state units.old)) }
    ensures kind { option_map (λ a. a.kind) result
        ≡ option_map (λ u. u.kind) (unit_at code (map U.unit_state units.old)) }
    ensures word { IfSome result (λ a. a.answer.word
        ≡ (row_at code (Io op pulse word) (map U.unit_state units.old)).word) }
    ensures queue { IfSome result (λ a. a.answer.queue
        ≡ (row_at code (Io op pulse word) (map U.unit_state units.old)).queue) }
    ensures unit { IfSome result (λ a. a.answer.unit
        ≡ (row_at code (Io op pulse word) (map U.unit_state units.old)).unit) }
    ensures units { map U.unit_state units.new ≡ after_at code (Io op pulse word) (map U.unit_state units.old) }
    ensures none { result ≡ None → units.new ≡ units.old }
    ensures later { IfSome result (λ a. IsLater a.answer.queue) }
    ensures low { IfSome result (λ a. a.answer.unit < units_of a.kind) }
    ensures fits { AllFit (map U.unit_state units.old) → AllFit (map U.unit_state units.new) }
    ensures kinds { kinds_of (map U.unit_state units.new) ≡ kinds_of (map U.unit_state units.old) }
{
    match places.of(units, code) {
        Some(place) => Some(io_of(&mut units[place], op, pulse, word)),
        None => None,
    }
}

fn io_of<U: Unit>(unit: &mut U, op: IoOp, pulse: Pulse, word: u16) -> BusAnswer
    ensures kind { result.kind ≡ (U.unit_state unit.old).kind }
    ensures word { result.answer.word ≡ (row (U.unit_state unit.old) (Io op pulse word)).word }
    ensures queue { result.answer.queue ≡ (row (U.unit_state unit.old) (Io op pulse word)).queue }
    ensures unit { result.answer.unit ≡ (row (U.unit_state unit.old) (Io op pulse word)).unit }
    ensures moved { U.unit_state unit.new ≡ moved (U.unit_state unit.old) (Io op pulse word) }
    ensures fits { Fits (U.unit_state unit.new) }
    ensures later { IsLater result.answer.queue }
    ensures low { result.answer.unit < units_of result.kind }
{
    let kind = unit.kind();
    BusAnswer {
        kind,
        answer: unit.io(op, pulse, word),
    }
}
