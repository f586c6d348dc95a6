// The units of a standard machine.
ghost use Rattle.std.specs.Prelude.{◌≡◌, map, IfOk};
ghost use Rattle.command_words.specs.Standard.{IsStandard, standard_units as ten_units, all_units as eleven_units};

use standard_units::{boxed_multiplexer, boxed_units, in_bus_order, with_multiplexer};
use std::alloc::{AllocError, Global};
use unit_trait::Unit;

/// A new unit of each kind but the multiplexer, in bus order.
pub fn standard_units(alloc: Global) -> Result<Vec<Box<dyn Unit>>, AllocError>
    ensures listed { IfOk result (λ units. map ⟦<Box<dyn Unit> as Unit>⟧.unit_state units.items ≡ ten_units) }
    ensures standard { IfOk result (λ units. IsStandard (map ⟦<Box<dyn Unit> as Unit>⟧.unit_state units.items)) }
{
    let (
        disk,
        tape,
        printer,
        reader,
        punch,
        clock,
        keyboard,
        teleprinter,
        keyboard_1,
        teleprinter_1,
    ) = boxed_units(alloc)?;
    // The others become such boxes too, since they go into one list with it.
    let disk: Box<dyn Unit> = disk;
    in_bus_order(
        alloc,
        disk,
        tape,
        printer,
        reader,
        punch,
        clock,
        keyboard,
        teleprinter,
        keyboard_1,
        teleprinter_1,
    )
}

/// These, and a new multiplexer behind them.
pub fn all_units(alloc: Global) -> Result<Vec<Box<dyn Unit>>, AllocError>
    ensures listed { IfOk result (λ units. map ⟦<Box<dyn Unit> as Unit>⟧.unit_state units.items ≡ eleven_units) }
    ensures standard { IfOk result (λ units. IsStandard (map ⟦<Box<dyn Unit> as Unit>⟧.unit_state units.items)) }
{
    let units = standard_units(alloc)?;
    let multiplexer: Box<dyn Unit> = boxed_multiplexer(alloc)?;
    with_multiplexer(units, multiplexer)
}
