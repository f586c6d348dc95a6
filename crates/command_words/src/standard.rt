ghost use Rattle.std.specs.Prelude.{◌≡◌, ◌↔◌, map, IsTrue};
ghost use Rattle.unit_trait.specs.Registers.{registers};
ghost use Rattle.unit_trait.specs.Row.{initial_unit};
ghost use Rattle.command_words.specs.Standard.{IsStandard};

use unit_trait::{Kind, Unit, reg_initial};

/// The kinds that each machine of this program has, in bus order.
const STANDARD_KINDS: [Kind; 10] = [
    Kind::Dsk,
    Kind::Mta,
    Kind::Lpt,
    Kind::Ptr,
    Kind::Ptp,
    Kind::Clk,
    Kind::Tti,
    Kind::Tto,
    Kind::Tti1,
    Kind::Tto1,
];

/// These, and the multiplexer behind them.
const ALL_KINDS: [Kind; 11] = [
    Kind::Dsk,
    Kind::Mta,
    Kind::Lpt,
    Kind::Ptr,
    Kind::Ptp,
    Kind::Clk,
    Kind::Tti,
    Kind::Tto,
    Kind::Tti1,
    Kind::Tto1,
    Kind::Qty,
];

/// Whether the units are those that a machine of this program has: one of each of the ten kinds, in bus order, or these
/// and the multiplexer behind them, each with what its registers hold at first.
pub fn is_standard<U: Unit>(units: &[U]) -> bool
    ensures { IsTrue result ↔ IsStandard (map U.unit_state units.now) }
{
    are_initial(units, &STANDARD_KINDS) || are_initial(units, &ALL_KINDS)
}

// Whether the units are of these kinds, each before anything was asked of it.
fn are_initial<U: Unit>(units: &[U], kinds: &[Kind]) -> bool
    ensures { IsTrue result ↔ (map U.unit_state units.now ≡ map initial_unit kinds.now) }
{
    match units.split_first() {
        None => kinds.is_empty(),
        Some((unit, more)) => match kinds.split_first() {
            None => false,
            Some((kind, others)) => is_initial(unit, *kind) && are_initial(more, others),
        },
    }
}

// Whether a unit is one of that kind before anything was asked of it.
fn is_initial<U: Unit>(unit: &U, kind: Kind) -> bool
    ensures { IsTrue result ↔ (U.unit_state unit.now ≡ initial_unit kind) }
{
    unit.kind() == kind && holds_initial(unit)
}

// Whether each register of a unit holds what it holds at first.
fn holds_initial<U: Unit>(unit: &U) -> bool
    ensures { IsTrue result ↔ ((U.unit_state unit.now).registers
        ≡ map (λ r. r.initial) (registers (U.unit_state unit.now).kind)) }
{
    let kind = unit.kind();
    for i in 0..u8::MAX {
        match reg_initial(kind, i) {
            Some(initial) => {
                if unit.reg(i) != initial {
                    return false;
                }
            }
            None => return true,
        }
    }
    true
}
