// The tables of a watch together, as lines that name a table before what is called of it.
use crate::checked::holds;
use crate::watched::breaks::address;
use crate::watched::texts::cut;
use crate::watched::{breaks, expects, sends};
use expect_actions::{Breaks, Sends, Watch};
use std::alloc::Global;
use std::process::Abort;
use std::test::Fail;

fn all(rt: &impl Abort, watch: &mut Watch, table: &str) {
    for line in table.lines() {
        holds(rt, is_so(watch, line), line);
    }
}

/// Whether a call comes to what its line says.
fn is_so(watch: &mut Watch, line: &str) -> bool {
    let (table, call) = cut(line, ' ');
    match table {
        "has" => watch.breaks.has(address(call)),
        "lacks" => !watch.breaks.has(address(call)),
        "breaks" => breaks::is_so(&mut watch.breaks, call),
        "expects" => expects::is_so(&mut watch.expects, call),
        "sends" => sends::is_so(&mut watch.sends, call),
        "forget" => {
            watch.forget();
            true
        }
        _ => false,
    }
}

/// Plays the lines on new tables.
fn plays(rt: &impl Abort, alloc: Global, table: &str) -> Result<(), Fail> {
    let mut watch = Watch::new(alloc)?;
    all(rt, &mut watch, table);
    Ok(())
}

const APART: &str = "breaks empty
expects empty
sends empty
breaks add 64:1:
expects add 1:k:CONT
sends send 0:0:1000:y
has 64
lacks 65
breaks clear
lacks 64
expects stops 0 k
sends takes 0:y";

#[test]
fn the_tables_of_a_watch_are_apart(rt: HostRuntime) -> Result<(), Fail> {
    plays(&rt, rt.alloc(), APART)
}

// A stop at the break keeps its actions until they are forgotten.
const FORGOTTEN: &str = "breaks add 64:1:EX AC0
breaks stops 64 0
breaks actions EX AC0
forget
breaks actions
has 64";

#[test]
fn the_actions_of_a_stop_are_forgotten(rt: HostRuntime) -> Result<(), Fail> {
    plays(&rt, rt.alloc(), FORGOTTEN)
}

/// Adds each break of a table to another.
fn add_breaks(breaks: &Breaks, again: &mut Breaks) -> bool {
    for k in 0..breaks.len() {
        let Some((at, count, actions)) = breaks.in_order(k) else {
            return false;
        };
        if actions.len() > 512 || again.add(at, count, actions).is_err() {
            return false;
        }
    }
    true
}

/// Queues each byte of a table in another, at its own time.
fn add_sends(sends: &Sends, again: &mut Sends) -> bool {
    for k in 0..sends.len() {
        let Some((time, byte)) = sends.in_order(k) else {
            return false;
        };
        if again.add(time, 0, 0, &[byte]).is_err() {
            return false;
        }
    }
    true
}

fn are_added(rt: &impl Abort, watch: &Watch, again: &mut Watch) {
    let so = add_breaks(&watch.breaks, &mut again.breaks)
        && add_sends(&watch.sends, &mut again.sends);
    holds(rt, so, "added again");
}

const FILLED: &str = "breaks add 65:4:EX
breaks add 64:0:
sends send 10:5:1000:ab
sends send 0:0:0:c";

const THE_SAME: &str = "breaks are 64:0:|65:4:EX
sends are 15:a|1015:b|1015:c";

/// New tables to which the entries of these are added have the same.
fn are_the_same(rt: &impl Abort, alloc: Global, watch: &Watch) -> Result<(), Fail> {
    let mut again = Watch::new(alloc)?;
    are_added(rt, watch, &mut again);
    all(rt, &mut again, THE_SAME);
    Ok(())
}

#[test]
fn tables_are_filled_again(rt: HostRuntime) -> Result<(), Fail> {
    let mut watch = Watch::new(rt.alloc())?;
    all(&rt, &mut watch, FILLED);
    are_the_same(&rt, rt.alloc(), &watch)
}
