ghost use Rattle.std.specs.Prelude.{◌≡◌, ◌<◌, ◌&&◌, ◌||◌, not, false};
ghost use Rattle.unit_trait.specs.declared.kind.UnitName.{UnitName as Unit};
ghost use Rattle.unit_trait.specs.Kinds.{units_of, same_unit};
ghost use Rattle.event_queue.specs.Active.{first_of, number, is_active};

use unit_trait::{Kind, UnitName};

/// Which units are active: each of the 81 has a bit of its own.
#[derive(Drop)]
pub(crate) struct Active {
    pub(crate) bits: u128,
}

impl Active {
    /// No unit.
    pub(crate) fn none() -> Active
        ensures { (u : Unit) → u.unit < units_of u.kind → is_active result.bits u ≡ false }
    {
        Active { bits: 0 }
    }

    /// Whether a unit is active.
    #[inline]
    pub(crate) fn has(&self, unit: UnitName) -> bool
        requires { unit.unit < units_of unit.kind }
        ensures { result ≡ is_active self.now.bits unit }
    {
        (self.bits >> number(unit)) & 1 == 1
    }

    /// A unit becomes active.
    pub(crate) fn set(&mut self, unit: UnitName)
        requires { unit.unit < units_of unit.kind }
        ensures { (u : Unit) → u.unit < units_of u.kind
            → is_active self.new.bits u ≡ (same_unit unit u || is_active self.old.bits u) }
    {
        self.bits |= 1u128 << number(unit);
    }

    /// A unit is active no more.
    pub(crate) fn unset(&mut self, unit: UnitName)
        requires { unit.unit < units_of unit.kind }
        ensures { (u : Unit) → u.unit < units_of u.kind
            → is_active self.new.bits u ≡ (not (same_unit unit u) && is_active self.old.bits u) }
    {
        self.bits &= !(1u128 << number(unit));
    }
}

/// The number of a unit, one of its own below 81.
fn number(unit: UnitName) -> u8
    requires { unit.unit < units_of unit.kind }
    ensures number { result ≡ number unit }
    ensures low { result < 81 }
{
    first_of(unit.kind) + unit.unit
}

/// The number of the first unit of a kind.
fn first_of(kind: Kind) -> u8
    ensures { result ≡ first_of kind }
{
    match kind {
        Kind::Dsk => 0,
        Kind::Mta => 1,
        Kind::Lpt => 9,
        Kind::Ptr => 10,
        Kind::Ptp => 11,
        Kind::Clk => 12,
        Kind::Tti => 13,
        Kind::Tto => 14,
        Kind::Tti1 => 15,
        Kind::Tto1 => 16,
        Kind::Qty => 17,
    }
}
