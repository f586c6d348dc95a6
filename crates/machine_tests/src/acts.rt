// What is done with a machine.
ghost use Rattle.unit_files.specs.Open.{AllOpen};

use crate::names::{mode_of, number_of, place_of, stop_of, unit_of};
use crate::places::{held, put};
use crate::row::{Row, check, cut, decimal, text};
use expect_actions::{Keys, Watch};
use host_files::{Files, Sink};
use host_lines::Lines;
use nova_machine::{Machine, RunLimit, Stop, Turn};
use std::alloc::Global;
use std::process::Abort;
use unit_files::AttachFault;
use unit_trait::Unit;

pub fn attach_all<U: Unit, F: Files>(
    rt: &impl Abort,
    alloc: Global,
    machine: &mut Machine<U>,
    files: &mut F,
    words: &str,
)
    requires { AllOpen machine.old.slots (F.state files.old).opened }
    ensures { AllOpen machine.new.slots (F.state files.new).opened }
{
    for word in words.split_whitespace() {
        attach(rt, alloc, machine, files, word);
    }
}

/// Attaches a file, which has that length.
fn attach<U: Unit, F: Files>(
    rt: &impl Abort,
    alloc: Global,
    machine: &mut Machine<U>,
    files: &mut F,
    word: &str,
)
    requires { AllOpen machine.old.slots (F.state files.old).opened }
    ensures { AllOpen machine.new.slots (F.state files.new).opened }
{
    let (call, length) = cut(word, '=');
    let (unit, rest) = cut(call, ':');
    let (name, mode) = cut(rest, ':');
    if name.is_empty() || name.len() > 255 {
        check(rt, false, word);
        return;
    }
    let said = machine
        .attached_mut()
        .attach(alloc, unit_of(unit), name, mode_of(mode), files);
    check(rt, is_length(said, decimal(length)), word);
}

fn is_length(said: Result<u64, AttachFault>, wanted: u64) -> bool {
    match said {
        Ok(length) => length == wanted,
        Err(_) => false,
    }
}

pub fn act_all<U: Unit, F: Files, L: Lines, S: Sink>(
    rt: &impl Abort,
    machine: &mut Machine<U>,
    watch: &mut Watch,
    keys: &Keys,
    files: &mut F,
    lines: &mut L,
    out: &mut S,
    row: Row<'_>,
)
    requires { AllOpen machine.old.slots (F.state files.old).opened }
{
    for word in text(row, "do").split_whitespace() {
        act(rt, machine, watch, keys, files, lines, out, word);
    }
}

fn act<U: Unit, F: Files, L: Lines, S: Sink>(
    rt: &impl Abort,
    machine: &mut Machine<U>,
    watch: &mut Watch,
    keys: &Keys,
    files: &mut F,
    lines: &mut L,
    out: &mut S,
    word: &str,
)
    requires { AllOpen machine.old.slots (F.state files.old).opened }
    ensures { AllOpen machine.new.slots (F.state files.new).opened }
{
    let (verb, how) = cut(word, '=');
    match verb {
        "run" | "step" => {
            let stop = run(machine, limit_of(word), watch, keys, files, lines, out);
            check(rt, stop_is(stop, how), word);
        }
        "turn" => {
            let turn = turn(machine, true, watch, keys, files, lines, out);
            check(rt, turn_is(turn, how), word);
        }
        _ => act_apart(rt, machine, files, word),
    }
}

/// What is done apart from runs.
fn act_apart<U: Unit, F: Files>(
    rt: &impl Abort,
    machine: &mut Machine<U>,
    files: &mut F,
    word: &str,
)
    requires { AllOpen machine.old.slots (F.state files.old).opened }
    ensures { AllOpen machine.new.slots (F.state files.new).opened }
{
    let (verb, how) = cut(word, '=');
    match verb {
        "detach" => check(rt, detach(machine, files, how), word),
        "reset" => machine.reset(),
        _ => check(rt, put(machine, word) || is_now(machine, word), word),
    }
}

/// How far a run goes: `run=9:Halt`, `step=9:Stepped`.
fn limit_of(word: &str) -> RunLimit {
    let (verb, how) = cut(word, '=');
    RunLimit {
        count: decimal(cut(how, ':').0),
        step: verb == "step",
    }
}

fn stop_is(stop: Stop, how: &str) -> bool {
    stop_of(cut(how, ':').1) == Some(stop)
}

/// A run.
pub fn run<U: Unit, F: Files, L: Lines, S: Sink>(
    machine: &mut Machine<U>,
    limit: RunLimit,
    watch: &mut Watch,
    keys: &Keys,
    files: &mut F,
    lines: &mut L,
    out: &mut S,
) -> Stop
    requires { AllOpen machine.old.slots (F.state files.old).opened }
    ensures { AllOpen machine.new.slots (F.state files.new).opened }
{
    machine.run(limit, watch, keys, files, lines, out)
}

/// A turn; none at the end of time.
pub fn turn<U: Unit, F: Files, L: Lines, S: Sink>(
    machine: &mut Machine<U>,
    first: bool,
    watch: &mut Watch,
    keys: &Keys,
    files: &mut F,
    lines: &mut L,
    out: &mut S,
) -> Option<Turn>
    requires { AllOpen machine.old.slots (F.state files.old).opened }
    ensures { AllOpen machine.new.slots (F.state files.new).opened }
{
    if machine.time() >= 1 << 60 {
        return None;
    }
    Some(machine.turn(first, watch, keys, files, lines, out))
}

fn turn_is(turn: Option<Turn>, how: &str) -> bool {
    match turn {
        Some(Turn::Executed) => how == "Executed",
        Some(Turn::Stopped(stop)) => stop_of(how) == Some(stop),
        None => false,
    }
}

/// Whether the file of a unit is taken away.
fn detach<U: Unit, F: Files>(machine: &mut Machine<U>, files: &mut F, unit: &str) -> bool
    requires { AllOpen machine.old.slots (F.state files.old).opened }
    ensures { AllOpen machine.new.slots (F.state files.new).opened }
{
    let said = machine.attached_mut().detach(unit_of(unit), files);
    matches!(said, Ok(None))
}

/// Whether it is so: `AC0?101`, `time?300`, `taken?1`.
fn is_now<U: Unit>(machine: &Machine<U>, word: &str) -> bool {
    let (name, value) = cut(word, '?');
    match name {
        "time" => machine.time() == decimal(value),
        "taken" => machine.keys_taken() == decimal(value),
        _ => match place_of(name) {
            Some(place) => held(machine, place) == number_of(value),
            None => false,
        },
    }
}
