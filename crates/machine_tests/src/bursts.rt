// A run against its turns, one by one, on machines with programs by chance: events, interrupts and stops come in the middle
// of bursts.
ghost use Rattle.std.specs.Prelude.{◌≡◌, ◌∷◌, [], map};
ghost use Rattle.unit_trait.specs.declared.kind.Kind.TheVariants.{Clk as clock, Tti as keyboard, Tto as printer};
ghost use Rattle.unit_trait.specs.Row.{initial_unit};
ghost use Rattle.unit_files.specs.Open.{AllOpen};

use crate::acts::{run, turn};
use crate::chance::set;
use crate::lines::no_lines;
use crate::machines::console_units;
use crate::places::{REGISTERS, held};
use event_queue::Events;
use expect_actions::{Keys, Watch};
use host_files::{ByteSink, Files, MemFiles, Sink};
use host_lines::Lines;
use nova_machine::{Machine, RunLimit, Stop, Turn};
use nova_memory::Memory;
use nova_word::{Addr, Word};
use std::alloc::{AllocError, Global};
use std::process::Abort;
use std::test::Fail;
use unit_files::Attached;
use unit_trait::Unit;

const MACHINES: u32 = 300;

/// How a machine goes on.
#[derive(Clone, Copy)]
pub enum Way {
    Run,
    Turns,
}

#[test]
fn a_run_is_its_turns(rt: HostRuntime) -> Result<(), Fail> {
    for seed in 0..MACHINES {
        one_way(&rt, rt.alloc(), seed)?;
    }
    Ok(())
}

/// A machine that runs.
fn one_way(rt: &impl Abort, alloc: Global, seed: u32) -> Result<(), AllocError> {
    let units = console_units(alloc)?;
    with_run(rt, alloc, units, seed)
}

fn with_run<U: Unit>(
    rt: &impl Abort,
    alloc: Global,
    units: Vec<U>,
    seed: u32,
) -> Result<(), AllocError>
    requires { map U.unit_state units.items ≡ map initial_unit (clock ∷ keyboard ∷ printer ∷ []) }
{
    let mut machine = begun(rt, alloc, units, seed)?;
    runs(rt, alloc, &mut machine, seed)
}

/// A machine with a program by chance.
fn begun<U: Unit>(
    rt: &impl Abort,
    alloc: Global,
    units: Vec<U>,
    seed: u32,
) -> Result<Machine<U>, AllocError>
    requires { map U.unit_state units.items ≡ map initial_unit (clock ∷ keyboard ∷ printer ∷ []) }
{
    let mut machine = Machine::new(alloc, units)?;
    agree(rt, set(&mut machine, seed).is_ok(), seed);
    Ok(machine)
}

fn runs<U: Unit>(
    rt: &impl Abort,
    alloc: Global,
    machine: &mut Machine<U>,
    seed: u32,
) -> Result<(), AllocError> {
    let mut console = ByteSink::with_room(alloc, 20)?;
    let stop = goes(alloc, machine, Way::Run, seed, &mut console)?;
    other_way(rt, alloc, machine, &console, stop, seed)
}

/// The other machine, which makes turns.
fn other_way<U: Unit>(
    rt: &impl Abort,
    alloc: Global,
    run: &Machine<U>,
    console: &ByteSink,
    stop: Stop,
    seed: u32,
) -> Result<(), AllocError> {
    let units = console_units(alloc)?;
    with_turns(rt, alloc, run, console, stop, units, seed)
}

fn with_turns<U: Unit, V: Unit>(
    rt: &impl Abort,
    alloc: Global,
    run: &Machine<U>,
    console: &ByteSink,
    stop: Stop,
    units: Vec<V>,
    seed: u32,
) -> Result<(), AllocError>
    requires { map V.unit_state units.items ≡ map initial_unit (clock ∷ keyboard ∷ printer ∷ []) }
{
    let mut machine = begun(rt, alloc, units, seed)?;
    compare(rt, alloc, run, console, stop, &mut machine, seed)
}

fn compare<U: Unit, V: Unit>(
    rt: &impl Abort,
    alloc: Global,
    run: &Machine<U>,
    console: &ByteSink,
    stop: Stop,
    machine: &mut Machine<V>,
    seed: u32,
) -> Result<(), AllocError> {
    let turns = takes_turns(alloc, machine, console, seed)?;
    agree(rt, turns == Some(stop) && same(run, machine), seed);
    Ok(())
}

/// The end of the turns, where they print the same.
fn takes_turns<U: Unit>(
    alloc: Global,
    machine: &mut Machine<U>,
    console: &ByteSink,
    seed: u32,
) -> Result<Option<Stop>, AllocError> {
    let mut other = ByteSink::with_room(alloc, 20)?;
    let stop = goes(alloc, machine, Way::Turns, seed, &mut other)?;
    Ok(if console.bytes() == other.bytes() {
        Some(stop)
    } else {
        None
    })
}

/// They come to the same by that chance.
fn agree(rt: &impl Abort, so: bool, seed: u32) {
    assert!(rt; so, "{seed}");
}

/// A machine goes on for some instructions.
fn goes<U: Unit, S: Sink>(
    alloc: Global,
    machine: &mut Machine<U>,
    way: Way,
    seed: u32,
    out: &mut S,
) -> Result<Stop, AllocError> {
    *machine.attached_mut() = Attached::new(alloc)?;
    let mut files = MemFiles::with_room(alloc, 0)?;
    let mut lines = no_lines(alloc)?;
    with_files(
        alloc,
        machine,
        way,
        u64::from(seed) * 3,
        &mut files,
        &mut lines,
        out,
    )
}

pub fn with_files<U: Unit, F: Files, L: Lines, S: Sink>(
    alloc: Global,
    machine: &mut Machine<U>,
    way: Way,
    count: u64,
    files: &mut F,
    lines: &mut L,
    out: &mut S,
) -> Result<Stop, AllocError>
    requires { AllOpen machine.old.slots (F.state files.old).opened }
{
    let mut watch = Watch::new(alloc)?;
    let keys = Keys::none(alloc);
    Ok(with_watch(machine, way, count, &mut watch, &keys, files, lines, out))
}

fn with_watch<U: Unit, F: Files, L: Lines, S: Sink>(
    machine: &mut Machine<U>,
    way: Way,
    count: u64,
    watch: &mut Watch,
    keys: &Keys,
    files: &mut F,
    lines: &mut L,
    out: &mut S,
) -> Stop
    requires { AllOpen machine.old.slots (F.state files.old).opened }
{
    match way {
        Way::Run => {
            let limit = RunLimit { count, step: true };
            run(machine, limit, watch, keys, files, lines, out)
        }
        Way::Turns => turns(machine, count, watch, keys, files, lines, out),
    }
}

/// As many turns as that, up to one that stops.
fn turns<U: Unit, F: Files, L: Lines, S: Sink>(
    machine: &mut Machine<U>,
    count: u64,
    watch: &mut Watch,
    keys: &Keys,
    files: &mut F,
    lines: &mut L,
    out: &mut S,
) -> Stop
    requires { AllOpen machine.old.slots (F.state files.old).opened }
{
    for done in 0..count {
        match turn(machine, done == 0, watch, keys, files, lines, out) {
            Some(Turn::Executed) => (),
            Some(Turn::Stopped(stop)) => return stop,
            None => return Stop::Limit,
        }
    }
    Stop::Stepped
}

fn same<U: Unit, V: Unit>(run: &Machine<U>, turned: &Machine<V>) -> bool {
    run.time() == turned.time()
        && same_registers(run, turned)
        && same_words(run.memory(), turned.memory())
        && same_events(run.events(), turned.events())
}

fn same_registers<U: Unit, V: Unit>(run: &Machine<U>, turned: &Machine<V>) -> bool {
    for place in REGISTERS.iter() {
        if held(run, *place) != held(turned, *place) {
            return false;
        }
    }
    true
}

fn same_words(run: &Memory, turned: &Memory) -> bool {
    let mut at = Addr::of_word(Word(0));
    for _ in 0..32768u16 {
        if run.read(at) != turned.read(at) {
            return false;
        }
        at = at.plus(1);
    }
    true
}

pub fn same_events(run: &Events, turned: &Events) -> bool {
    for place in 0..3usize {
        if run.in_order(place) != turned.in_order(place) {
            return false;
        }
    }
    run.len() == turned.len()
}
