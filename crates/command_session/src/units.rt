// Which units have files, and which ones have ports.
ghost use Rattle.std.specs.Prelude.{◌≡◌, ◌<◌, true, false};
ghost use Rattle.command_session.specs.LineEffects.{is_terminal};
ghost use Rattle.command_session.specs.FileEffects.{lacks_unit};

use nova_machine::Machine;
use unit_trait::{Kind, Unit, UnitName};

/// Whether a unit has ports in place of a file: the second teletype has one, and the multiplexer 64.
pub fn is_terminal(unit: UnitName) -> bool
    ensures { result ≡ is_terminal unit }
{
    match unit.kind {
        Kind::Tti1 | Kind::Qty => true,
        _ => false,
    }
}

/// Whether a unit has no files, or a machine no unit of its kind.
pub fn lacks_unit<U: Unit>(machine: &Machine<U>, unit: UnitName) -> bool
    ensures { result ≡ lacks_unit machine.now unit }
{
    match unit.kind {
        Kind::Dsk | Kind::Mta | Kind::Lpt | Kind::Ptr | Kind::Ptp => {
            !machine.has_unit(unit.kind)
        }
        _ => true,
    }
}
