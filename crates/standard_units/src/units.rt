ghost use Rattle.std.specs.Prelude.{◌≡◌, IfOk, map};
ghost use Rattle.unit_trait.specs.declared.kind.Kind.TheVariants.{Dsk as disks, Mta as tapes, Lpt as printers, Ptr as readers};
ghost use Rattle.unit_trait.specs.declared.kind.Kind.TheVariants.{Ptp as punches, Clk as clocks, Tti as keyboards};
ghost use Rattle.unit_trait.specs.declared.kind.Kind.TheVariants.{Tto as teleprinters};
ghost use Rattle.unit_trait.specs.declared.kind.Kind.TheVariants.{Tti1 as second_keyboards, Tto1 as second_printers};
ghost use Rattle.unit_trait.specs.declared.kind.Kind.TheVariants.{Qty as multiplexers};
ghost use Rattle.unit_trait.specs.Row.{initial_unit};
ghost use Rattle.command_words.specs.Standard.{standard_units as ten_units, all_units as eleven_units};

use crate::boxes::{four, push_four, push_two, two};
use clock_unit::Clk;
use disk_unit::Dsk;
use paper_tape::{Lpt, Ptp, Ptr};
use qty_mux::Qty;
use std::alloc::{AllocError as OutOfMemory, Global};
use tape_unit::Mta;
use tty_units::{Tti, Tti1, Tto, Tto1};
use unit_trait::Unit;

/// A box of each kind of unit but the multiplexer, in bus order.
pub type Boxes = (
    Box<Dsk>,
    Box<Mta>,
    Box<Lpt>,
    Box<Ptr>,
    Box<Ptp>,
    Box<Clk>,
    Box<Tti>,
    Box<Tto>,
    Box<Tti1>,
    Box<Tto1>,
);

/// A new unit of each kind but the multiplexer, each in a box.
pub fn boxed_units(alloc: Global) -> Result<Boxes, OutOfMemory>
    ensures disk { IfOk result (λ b. ⟦<Dsk as Unit>⟧.unit_state b.0.value ≡ initial_unit disks) }
    ensures tape { IfOk result (λ b. ⟦<Mta as Unit>⟧.unit_state b.1.value ≡ initial_unit tapes) }
    ensures printer { IfOk result (λ b. ⟦<Lpt as Unit>⟧.unit_state b.2.value ≡ initial_unit printers) }
    ensures reader { IfOk result (λ b. ⟦<Ptr as Unit>⟧.unit_state b.3.value ≡ initial_unit readers) }
    ensures punch { IfOk result (λ b. ⟦<Ptp as Unit>⟧.unit_state b.4.value ≡ initial_unit punches) }
    ensures clock { IfOk result (λ b. ⟦<Clk as Unit>⟧.unit_state b.5.value ≡ initial_unit clocks) }
    ensures keyboard { IfOk result (λ b. ⟦<Tti as Unit>⟧.unit_state b.6.value ≡ initial_unit keyboards) }
    ensures teleprinter { IfOk result (λ b. ⟦<Tto as Unit>⟧.unit_state b.7.value ≡ initial_unit teleprinters) }
    ensures keyboard_1 { IfOk result (λ b. ⟦<Tti1 as Unit>⟧.unit_state b.8.value ≡ initial_unit second_keyboards) }
    ensures teleprinter_1 { IfOk result (λ b. ⟦<Tto1 as Unit>⟧.unit_state b.9.value ≡ initial_unit second_printers) }
{
    let (disk, tape, printer, reader) = four(
        alloc,
        Dsk::new(),
        Mta::new(),
        Lpt::new(),
        Ptr::new(),
    )?;
    let (punch, clock, keyboard, teleprinter) = four(
        alloc,
        Ptp::new(),
        Clk::new(),
        Tti::new(),
        Tto::new(),
    )?;
    let (keyboard_1, teleprinter_1) = two(alloc, Tti1::new(), Tto1::new())?;
    Ok((
        disk,
        tape,
        printer,
        reader,
        punch,
        clock,
        keyboard,
        teleprinter,
        keyboard_1,
        teleprinter_1,
    ))
}

/// A list of these units, which are the standard ones without the multiplexer, in bus order.
pub fn in_bus_order<U: Unit>(
    alloc: Global,
    disk: U,
    tape: U,
    printer: U,
    reader: U,
    punch: U,
    clock: U,
    keyboard: U,
    teleprinter: U,
    keyboard_1: U,
    teleprinter_1: U,
) -> Result<Vec<U>, OutOfMemory>
    requires disk { U.unit_state disk ≡ initial_unit disks }
    requires tape { U.unit_state tape ≡ initial_unit tapes }
    requires printer { U.unit_state printer ≡ initial_unit printers }
    requires reader { U.unit_state reader ≡ initial_unit readers }
    requires punch { U.unit_state punch ≡ initial_unit punches }
    requires clock { U.unit_state clock ≡ initial_unit clocks }
    requires keyboard { U.unit_state keyboard ≡ initial_unit keyboards }
    requires teleprinter { U.unit_state teleprinter ≡ initial_unit teleprinters }
    requires keyboard_1 { U.unit_state keyboard_1 ≡ initial_unit second_keyboards }
    requires teleprinter_1 { U.unit_state teleprinter_1 ≡ initial_unit second_printers }
    ensures { IfOk result (λ units. map U.unit_state units.items ≡ ten_units) }
{
    let mut units = Vec::new(alloc);
    push_four(&mut units, disk, tape, printer, reader)?;
    push_four(&mut units, punch, clock, keyboard, teleprinter)?;
    push_two(&mut units, keyboard_1, teleprinter_1)?;
    Ok(units)
}

/// A new multiplexer, in a box.
pub fn boxed_multiplexer(alloc: Global) -> Result<Box<Qty>, OutOfMemory>
    ensures { IfOk result (λ b. ⟦<Qty as Unit>⟧.unit_state b.value ≡ initial_unit multiplexers) }
{
    Ok(Box::new(alloc, Qty::new())?)
}

/// These units, which are the standard ones without the multiplexer, and a multiplexer behind them.
pub fn with_multiplexer<U: Unit>(units: Vec<U>, multiplexer: U) -> Result<Vec<U>, OutOfMemory>
    requires units { map U.unit_state units.items ≡ ten_units }
    requires multiplexer { U.unit_state multiplexer ≡ initial_unit multiplexers }
    ensures { IfOk result (λ units. map U.unit_state units.items ≡ eleven_units) }
{
    let mut units = units;
    units.push(multiplexer)?;
    Ok(units)
}
