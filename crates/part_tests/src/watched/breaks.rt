// The list of the breaks, as lines that say what is called and what it comes to. A break is its address, its count and its
// actions, with colons between them.
use crate::checked::holds;
use crate::watched::texts::{count, cut, place};
use expect_actions::{AddFault, Breaks};
use nova_word::{Addr, Word};
use std::process::Abort;
use std::test::Fail;

pub fn address(digits: &str) -> Addr {
    Addr::of_word(Word((count(digits) % 65536) as u16))
}

fn all(rt: &impl Abort, breaks: &mut Breaks, table: &str) {
    for line in table.lines() {
        holds(rt, is_so(breaks, line), line);
    }
}

/// Whether a call comes to what its line says.
pub fn is_so(breaks: &mut Breaks, line: &str) -> bool {
    let (verb, rest) = cut(line, ' ');
    match verb {
        "add" => add(breaks, rest) == Some(Ok(())),
        "full" => add(breaks, rest) == Some(Err(AddFault::Full)),
        "removed" => breaks.remove(address(rest)),
        "missing" => !breaks.remove(address(rest)),
        "clear" => {
            breaks.clear();
            true
        }
        _ => is_tested(breaks, verb, rest),
    }
}

/// Whether it is so of a test of a break, or of the breaks that are there.
fn is_tested(breaks: &mut Breaks, verb: &str, rest: &str) -> bool {
    match verb {
        "goes" => breaks.test(address(rest)).is_none(),
        "stops" => {
            let (at, wanted) = cut(rest, ' ');
            wanted != "" && breaks.test(address(at)) == place(wanted)
        }
        "empty" => breaks.is_empty(),
        "are" => are(breaks, rest),
        "actions" => breaks.actions_of() == rest.as_bytes(),
        _ => false,
    }
}

/// What comes of adding a break, if its actions are short enough.
fn add(breaks: &mut Breaks, entry: &str) -> Option<Result<(), AddFault>> {
    let (at, rest) = cut(entry, ':');
    let (number, actions) = cut(rest, ':');
    if actions.len() > 512 {
        return None;
    }
    Some(breaks.add(address(at), count(number), actions.as_bytes()))
}

/// Whether the breaks are these, with bars between them, in this order.
fn are(breaks: &Breaks, entries: &str) -> bool {
    for (k, entry) in entries.split('|').enumerate() {
        if !stands(breaks, k, entry) {
            return false;
        }
    }
    breaks.len() == entries.split('|').count() && breaks.in_order(breaks.len()).is_none()
}

fn stands(breaks: &Breaks, k: usize, entry: &str) -> bool {
    let (at, rest) = cut(entry, ':');
    let (number, actions) = cut(rest, ':');
    match breaks.in_order(k) {
        Some(found) => {
            found.0 == address(at) && found.1 == count(number) && found.2 == actions.as_bytes()
        }
        None => false,
    }
}

const RISING: &str = "empty
add 64:1:E AC0
add 32767:2:
add 0:0:CONT;CONT
are 0:0:CONT;CONT|64:1:E AC0|32767:2:
add 64:7:x
are 0:0:CONT;CONT|64:7:x|32767:2:
removed 0
missing 0
missing 1
are 64:7:x|32767:2:
clear
empty
goes 64";

#[test]
fn breaks_stand_in_rising_address(rt: HostRuntime) -> Result<(), Fail> {
    let mut breaks = Breaks::new(rt.alloc())?;
    all(&rt, &mut breaks, RISING);
    Ok(())
}

// The actions of a break stay those of the last one that stopped, where it goes.
const LOWERED: &str = "actions
add 100:3:a;b
add 50:0:c
goes 99
goes 100
goes 100
are 50:0:c|100:1:a;b
actions
stops 100 1
are 50:0:c|100:0:a;b
actions a;b
stops 100 1
stops 50 0
actions c
removed 50
goes 50
actions c
clear
actions c";

#[test]
fn a_count_is_lowered_until_the_break_stops(rt: HostRuntime) -> Result<(), Fail> {
    let mut breaks = Breaks::new(rt.alloc())?;
    all(&rt, &mut breaks, LOWERED);
    Ok(())
}

/// Whether breaks at all even addresses below 512 are added.
fn adds_256(breaks: &mut Breaks) -> bool {
    for number in 0..256u16 {
        let at = Addr::of_word(Word(number * 2));
        if breaks.add(at, 1, b"").is_err() {
            return false;
        }
    }
    true
}

const FULL: &str = "full 1:1:
goes 1
add 510:4:z
removed 0
add 1:1:
stops 1 0
goes 510";

#[test]
fn no_more_than_256_breaks_are_there(rt: HostRuntime) -> Result<(), Fail> {
    let mut breaks = Breaks::new(rt.alloc())?;
    holds(&rt, adds_256(&mut breaks), "256 breaks");
    all(&rt, &mut breaks, FULL);
    Ok(())
}
