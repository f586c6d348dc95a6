// That the machine calls the units that it is handed: each call is counted by a wrapper round the unit.
ghost use Rattle.std.specs.Prelude.{◌≡◌};
ghost use Rattle.unit_trait.specs.declared.kind.Kind.TheVariants.{Dsk as disks, Mta as tapes, Lpt as printers, Ptr as readers};
ghost use Rattle.unit_trait.specs.declared.kind.Kind.TheVariants.{Ptp as punches, Clk as clocks, Tti as keyboards};
ghost use Rattle.unit_trait.specs.declared.kind.Kind.TheVariants.{Tto as teleprinters};
ghost use Rattle.unit_trait.specs.declared.kind.Kind.TheVariants.{Tti1 as second_keyboards, Tto1 as second_printers};
ghost use Rattle.unit_trait.specs.Row.{initial_unit};

use crate::checked::holds;
use crate::play::with_units;
use crate::row::{Row, decimal, text};
use standard_units::{boxed_units, in_bus_order};
use std::alloc::{AllocError, Global};
use std::cell::Cell;
use std::process::Abort;
use std::rc::Rc;
use std::test::Fail;
use unit_trait::{After, Got, IoAnswer, IoOp, Kind, Pulse, Queue, RegFault, Unit, Want};

/// How often each call of a unit was made.
#[derive(Drop)]
struct Calls {
    io: Cell<u64>,
    due: Cell<u64>,
    got: Cell<u64>,
    set_reg: Cell<u64>,
    reset: Cell<u64>,
}

impl Calls {
    fn new() -> Calls {
        Calls {
            io: Cell::new(0),
            due: Cell::new(0),
            got: Cell::new(0),
            set_reg: Cell::new(0),
            reset: Cell::new(0),
        }
    }
}

fn count(cell: &Cell<u64>) {
    cell.set(cell.get().saturating_add(1));
}

/// The calls of a clock and those of a printer.
#[derive(Drop)]
struct Counters {
    clock: Rc<Calls>,
    printer: Rc<Calls>,
}

fn new_counters(alloc: Global) -> Result<Counters, AllocError> {
    let clock = Rc::new(alloc, Calls::new())?;
    let printer = Rc::new(alloc, Calls::new())?;
    Ok(Counters { clock, printer })
}

/// A unit that passes each call on to another, and may count it.
#[derive(Drop)]
struct Counted<U: Unit> {
    inner: U,
    calls: Option<Rc<Calls>>,
}

impl<U: Unit> Counted<U> {
    fn new(inner: U, calls: Option<Rc<Calls>>) -> Counted<U>
        ensures { ⟦<Counted<U> as Unit>⟧.unit_state result ≡ U.unit_state inner }
    {
        Counted { inner, calls }
    }
}

impl<U: Unit> Unit for Counted<U> {
    ghost unit_state = { λ c. U.unit_state c.inner };

    fn kind(&self) -> Kind {
        self.inner.kind()
    }

    fn reg(&self, i: u8) -> u32 {
        self.inner.reg(i)
    }

    fn set_reg(&mut self, i: u8, value: u32) -> Result<(), RegFault> {
        if let Some(calls) = &self.calls {
            count(&calls.set_reg);
        }
        self.inner.set_reg(i, value)
    }

    fn io(&mut self, op: IoOp, pulse: Pulse, word: u16) -> IoAnswer {
        if let Some(calls) = &self.calls {
            count(&calls.io);
        }
        self.inner.io(op, pulse, word)
    }

    fn due(&mut self, unit: u8) -> Want {
        if let Some(calls) = &self.calls {
            count(&calls.due);
        }
        self.inner.due(unit)
    }

    fn got(&mut self, unit: u8, got: Got) -> After {
        if let Some(calls) = &self.calls {
            count(&calls.got);
        }
        self.inner.got(unit, got)
    }

    fn reset(&mut self) -> Queue {
        if let Some(calls) = &self.calls {
            count(&calls.reset);
        }
        self.inner.reset()
    }
}

/// Plays a row with a counted clock and a counted printer, whose calls are those of its fields `clock` and `printer`.
fn counts(rt: &impl Abort, alloc: Global, row: Row<'_>) -> Result<(), AllocError> {
    let counters = new_counters(alloc)?;
    play(rt, alloc, &counters, row)?;
    holds(
        rt,
        are_made(&counters.clock, text(row, "clock").unwrap_or("")),
        row.line,
    );
    holds(
        rt,
        are_made(&counters.printer, text(row, "printer").unwrap_or("")),
        row.line,
    );
    Ok(())
}

/// Plays a row with a new unit of each kind, of which the clock and the printer are counted.
fn play(
    rt: &impl Abort,
    alloc: Global,
    counters: &Counters,
    row: Row<'_>,
) -> Result<(), AllocError> {
    let (
        disk,
        tape,
        printer,
        reader,
        punch,
        clock,
        keyboard,
        teleprinter,
        keyboard_1,
        teleprinter_1,
    ) = boxed_units(alloc)?;
    // The others become such boxes too, since they go into one list with it.
    let disk: Box<dyn Unit> = disk;
    play_counted(
        rt,
        alloc,
        disk,
        tape,
        printer,
        reader,
        punch,
        clock,
        keyboard,
        teleprinter,
        keyboard_1,
        teleprinter_1,
        counters,
        row,
    )
}

/// Plays a row with these units, in bus order.
fn play_counted<U: Unit>(
    rt: &impl Abort,
    alloc: Global,
    disk: U,
    tape: U,
    printer: U,
    reader: U,
    punch: U,
    clock: U,
    keyboard: U,
    teleprinter: U,
    keyboard_1: U,
    teleprinter_1: U,
    counters: &Counters,
    row: Row<'_>,
) -> Result<(), AllocError>
    requires disk { U.unit_state disk ≡ initial_unit disks }
    requires tape { U.unit_state tape ≡ initial_unit tapes }
    requires printer { U.unit_state printer ≡ initial_unit printers }
    requires reader { U.unit_state reader ≡ initial_unit readers }
    requires punch { U.unit_state punch ≡ initial_unit punches }
    requires clock { U.unit_state clock ≡ initial_unit clocks }
    requires keyboard { U.unit_state keyboard ≡ initial_unit keyboards }
    requires teleprinter { U.unit_state teleprinter ≡ initial_unit teleprinters }
    requires keyboard_1 { U.unit_state keyboard_1 ≡ initial_unit second_keyboards }
    requires teleprinter_1 { U.unit_state teleprinter_1 ≡ initial_unit second_printers }
{
    let clock_calls = counters.clock.clone()?;
    let printer_calls = counters.printer.clone()?;
    let units = in_bus_order(
        alloc,
        Counted::new(disk, None),
        Counted::new(tape, None),
        Counted::new(printer, None),
        Counted::new(reader, None),
        Counted::new(punch, None),
        Counted::new(clock, Some(clock_calls)),
        Counted::new(keyboard, None),
        Counted::new(teleprinter, Some(printer_calls)),
        Counted::new(keyboard_1, None),
        Counted::new(teleprinter_1, None),
    )?;
    with_units(rt, alloc, units, row)
}

/// Whether the calls were made as often as a text says: `io`, `due`, `got`, `set_reg` and `reset`.
fn are_made(calls: &Calls, wanted: &str) -> bool {
    let mut words = wanted.split_whitespace();
    is_made(&calls.io, words.next())
        && is_made(&calls.due, words.next())
        && is_made(&calls.got, words.next())
        && is_made(&calls.set_reg, words.next())
        && is_made(&calls.reset, words.next())
}

fn is_made(count: &Cell<u64>, wanted: Option<&str>) -> bool {
    match wanted {
        Some(digits) => count.get() == decimal(digits),
        None => false,
    }
}

/// A tick of the clock, a printed A, and resets: by RESET, by RUN, and by IORST. A new machine is reset once.
const CALLS: &str =
    "clock=1 1 1 0 1 | printer=0 0 0 0 1 | lines=D AC0 3~D 100 61114~D 101 63614~D 102 777~D 103 63077~GO 100~SHOW TIME~ | prints=~HALT instruction, PC: 00104 (000000)~Time: 1003~
clock=0 0 0 0 1 | printer=1 1 1 0 1 | lines=D AC0 101~D 100 61111~D 101 63611~D 102 777~D 103 63077~GO 100~SHOW TIME~ | prints=A~HALT instruction, PC: 00104 (000000)~Time: 103~
clock=0 0 0 0 4 | printer=0 0 0 1 4 | lines=RESET~D 100 62677~D 101 63077~RUN 100~D TTO BUF 1~ | prints=~HALT instruction, PC: 00102 (000000)~";

#[test]
fn the_units_that_are_handed_in_are_called(rt: HostRuntime) -> Result<(), Fail> {
    for line in CALLS.lines() {
        let row = Row {
            base: "words=-q",
            line,
        };
        counts(&rt, rt.alloc(), row)?;
    }
    Ok(())
}
