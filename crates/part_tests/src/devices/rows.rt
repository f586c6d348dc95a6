// Rows of tables: what the registers of a device are set to, and then, with bars between them, what is called and what
// it answers, or what the registers hold.
ghost use Rattle.std.specs.Prelude.{◌<◌, IsTrue};
ghost use Rattle.unit_trait.specs.Kinds.{units_of};
ghost use Rattle.unit_trait.specs.Row.{TakesAnswer};

use crate::checked::holds;
use crate::devices::words::{after, byte, cut, got, io_answer, io_call, number, queue, want};
use std::process::Abort;
use unit_trait::{Got, Unit, units_of};

/// Plays each row on the same device, whose registers a row sets first, from number 0 on.
///
/// | call and answer | what is called |
/// |---|---|
/// | `DOAS 0o7 = 0 after:9 3` | a word to the device: what it answers, its wish, and the unit, where it is not 0 |
/// | `due 3 = key` | the event of a unit is due: what it wants |
/// | `got 3 no_key = after:9 go` | the machine's answer to a unit: the wish, and whether the machine stops |
/// | `reset = keep` | a reset: the wish |
/// | `set 2 9 = taken 9` | a register is set: whether it takes the value, and what it holds then |
/// | `from 9 = 0 0` | what the registers from that one on hold |
/// | `kind = CLK` | the name of the kind |
pub fn all<U: Unit>(rt: &impl Abort, unit: &mut U, table: &str) {
    for row in table.lines() {
        plays(rt, unit, row);
    }
}

pub fn plays<U: Unit>(rt: &impl Abort, unit: &mut U, row: &str) {
    let (before, steps) = row.split_once("| ").unwrap_or((row, ""));
    holds(rt, takes(unit, before), row);
    for step in steps.split(" | ") {
        holds(rt, goes(unit, step), row);
    }
}

/// Whether the registers take these values, from number 0 on.
fn takes<U: Unit>(unit: &mut U, values: &str) -> bool {
    for (i, word) in (0..131u8).zip(values.split_whitespace()) {
        if !is_set(unit, i, word) {
            return false;
        }
    }
    true
}

fn is_set<U: Unit>(unit: &mut U, i: u8, word: &str) -> bool {
    match number(word) {
        Some(value) => unit.set_reg(i, value).is_ok(),
        None => false,
    }
}

/// Whether the registers hold these values, from that number on.
fn hold<U: Unit>(unit: &U, first: u8, values: &str) -> bool {
    for (i, word) in (first..131).zip(values.split_whitespace()) {
        if number(word) != Some(unit.reg(i)) {
            return false;
        }
    }
    !values.is_empty()
}

fn goes<U: Unit>(unit: &mut U, step: &str) -> bool {
    match step.split_once(" = ") {
        Some((call, answer)) => answers(unit, call, answer),
        None => hold(unit, 0, step),
    }
}

fn answers<U: Unit>(unit: &mut U, call: &str, answer: &str) -> bool {
    let (name, operands) = cut(call);
    match name {
        "due" => wants(unit, operands, answer),
        "got" => gets(unit, operands, answer),
        "reset" => Some(unit.reset()) == queue(answer),
        "set" => sets(unit, operands, answer),
        "from" => hold(unit, byte(operands).unwrap_or(131), answer),
        "kind" => unit.kind().name() == answer,
        _ => says(unit, name, operands, answer),
    }
}

fn says<U: Unit>(unit: &mut U, name: &str, word: &str, answer: &str) -> bool {
    match (io_call(name), number(word)) {
        (Some((op, pulse)), Some(word)) => {
            Some(unit.io(op, pulse, (word % 65536) as u16)) == io_answer(answer)
        }
        _ => false,
    }
}

fn wants<U: Unit>(unit: &mut U, drive: &str, answer: &str) -> bool {
    match byte(drive) {
        Some(drive) if drive < units_of(unit.kind()) => Some(unit.due(drive)) == want(answer),
        _ => false,
    }
}

fn gets<U: Unit>(unit: &mut U, operands: &str, answer: &str) -> bool {
    let (drive, said) = cut(operands);
    match (byte(drive), got(said)) {
        (Some(drive), Some(got)) if can_get(unit, drive, got) => {
            Some(unit.got(drive, got)) == after(answer)
        }
        _ => false,
    }
}

/// Whether the device has that unit, and can be given that answer.
fn can_get<U: Unit>(unit: &U, drive: u8, got: Got) -> bool
    ensures number { IsTrue result → drive < units_of (U.unit_state unit.now).kind }
    ensures room { IsTrue result → TakesAnswer (U.unit_state unit.now) got }
{
    drive < units_of(unit.kind()) && has_room(unit, got)
}

/// Whether the answer moves it to a place that it can stand at.
fn has_room<U: Unit>(unit: &U, got: Got) -> bool
    ensures { IsTrue result → TakesAnswer (U.unit_state unit.now) got }
{
    match got {
        Got::Done | Got::Byte(_) => unit.reg(5) < 0o100000000,
        Got::Tape(done) => done.place <= 0o400000000,
        _ => true,
    }
}

fn sets<U: Unit>(unit: &mut U, operands: &str, answer: &str) -> bool {
    let (register, value) = cut(operands);
    let (said, held) = cut(answer);
    match byte(register) {
        Some(i) => {
            let taken = is_set(unit, i, value);
            taken == (said == "taken") && number(held) == Some(unit.reg(i))
        }
        None => false,
    }
}
