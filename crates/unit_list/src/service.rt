ghost use Rattle.std.specs.Prelude.{◌≡◌, ◌<◌, map};
ghost use Rattle.unit_trait.specs.Calls.{Due, Answered};
ghost use Rattle.unit_trait.specs.Kinds.{code_of, units_of};
ghost use Rattle.unit_trait.specs.Row.{IsAgain};
ghost use Rattle.unit_list.specs.Bus.{row_at, after_at, kinds_of, AllFit, TakesAnswerIn};
ghost use Rattle.unit_list.specs.Places.{places_in};

use crate::places::Places;
use unit_trait::{After, Got, Queue, Unit, UnitName, UnitStop, Want};

/// The event of a unit is due: what it wants of the machine. Nothing where no unit has its kind.
#[tactic(auto, using(crate::proofs::Standing::standing))]
pub fn due_at<U: Unit>(places: &Places, units: &mut [U], unit: UnitName) -> Want
    requires places { places.now ≡ places_in (kinds_of (map U.unit_state units.old)) }
    requires number { unit.unit < units_of unit.kind }
    ensures want { result ≡ (row_at (code_of unit.kind) (Due unit.unit) (map U.unit_state units.old)).want }
    ensures units { map U.unit_state units.new
        ≡ after_at (code_of unit.kind) (Due unit.unit) (map U.unit_state units.old) }
    ensures fits { AllFit (map U.unit_state units.old) → AllFit (map U.unit_state units.new) }
    ensures kinds { kinds_of (map U.unit_state units.new) ≡ kinds_of (map U.unit_state units.old) }
{
    match places.of_kind(units, unit.kind) {
        Some(place) => units[place].due(unit.unit),
        None => Want::Nothing,
    }
}

/// The machine's answer to what a unit wanted: none that would move a unit on whose POS is at its largest value, and
/// none that leaves a tape behind the largest place. Its device wishes for nothing, and does not stop, where no unit
/// has its kind.
#[tactic(auto, using(crate::proofs::Standing::standing))]
pub fn got_at<U: Unit>(places: &Places, units: &mut [U], unit: UnitName, got: Got) -> After
    requires places { places.now ≡ places_in (kinds_of (map U.unit_state units.old)) }
    requires number { unit.unit < units_of unit.kind }
    requires room { TakesAnswerIn unit.kind got (map U.unit_state units.old) }
    ensures queue { result.queue
        ≡ (row_at (code_of unit.kind) (Answered unit.unit got) (map U.unit_state units.old)).queue }
    ensures stop { result.stop
        ≡ (row_at (code_of unit.kind) (Answered unit.unit got) (map U.unit_state units.old)).stop }
    ensures units { map U.unit_state units.new
        ≡ after_at (code_of unit.kind) (Answered unit.unit got) (map U.unit_state units.old) }
    ensures again { IsAgain result.queue }
    ensures fits { AllFit (map U.unit_state units.old) → AllFit (map U.unit_state units.new) }
    ensures kinds { kinds_of (map U.unit_state units.new) ≡ kinds_of (map U.unit_state units.old) }
{
    match places.of_kind(units, unit.kind) {
        Some(place) => units[place].got(unit.unit, got),
        None => After {
            queue: Queue::Keep,
            stop: UnitStop::Go,
        },
    }
}
