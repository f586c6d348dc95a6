ghost use Rattle.std.specs.Prelude.{◌≡◌, ◌↔◌, map, slice_get, IsOk, OnOk, OnErr, IsTrue};
ghost use Rattle.unit_list.specs.Bus.{register_in, takes_value_in, with_register_in, kinds_of, AllFit};
ghost use Rattle.unit_list.specs.Places.{places_in};

use crate::places::Places;
use unit_trait::{Kind, RegFault, Unit, reg_limit};

/// What a register of the unit of that kind holds, by its number from 0; none past the last one, and where no unit has
/// the kind.
#[tactic(auto, using(crate::proofs::Standing::standing))]
pub fn reg_at<U: Unit>(places: &Places, units: &[U], kind: Kind, i: u8) -> Option<u32>
    requires { places.now ≡ places_in (kinds_of (map U.unit_state units.now)) }
    ensures { result ≡ register_in kind i (map U.unit_state units.now) }
{
    match places.of_kind(units, kind) {
        Some(place) => register_of(&units[place], i),
        None => None,
    }
}

#[tactic(auto, using(crate::proofs::Held::absent))]
fn register_of<U: Unit>(unit: &U, i: u8) -> Option<u32>
    ensures { result ≡ slice_get (U.unit_state unit.now).registers i }
{
    match reg_limit(unit.kind(), i) {
        Some(_limits) => Some(unit.reg(i)),
        None => None,
    }
}

/// Sets a register of the unit of that kind, by its number from 0. Refused, and nothing has changed then, are a value
/// outside its limits, every number past the last one, and every register where no unit has the kind.
#[tactic(auto, using(crate::proofs::Standing::standing))]
pub fn set_reg_at<U: Unit>(
    places: &Places,
    units: &mut [U],
    kind: Kind,
    i: u8,
    value: u32,
) -> Result<(), RegFault>
    requires { places.now ≡ places_in (kinds_of (map U.unit_state units.old)) }
    ensures taken { IsOk result ↔ IsTrue (takes_value_in kind i value (map U.unit_state units.old)) }
    ensures set { OnOk result
        (map U.unit_state units.new ≡ with_register_in kind i value (map U.unit_state units.old)) }
    ensures refused { OnErr result (map U.unit_state units.new ≡ map U.unit_state units.old) }
    ensures fits { AllFit (map U.unit_state units.old) → AllFit (map U.unit_state units.new) }
    ensures kinds { kinds_of (map U.unit_state units.new) ≡ kinds_of (map U.unit_state units.old) }
{
    match places.of_kind(units, kind) {
        Some(place) => units[place].set_reg(i, value),
        None => Err(RegFault::OutOfRange),
    }
}

/// The registers of every unit are within their limits.
pub fn all_fit<U: Unit>(units: &[U])
    ensures { AllFit (map U.unit_state units.now) }
{
    for unit in units {
        unit.kind();
    }
}
