// The list of the texts that are waited for, and the tail of what was printed, as lines that say what is called and what it
// comes to. A text that is waited for is its count, its bytes and its actions, with colons between them.
use crate::checked::holds;
use crate::watched::texts::{count, cut, place};
use expect_actions::{AddFault, Expects};
use std::process::Abort;
use std::test::Fail;

fn all(rt: &impl Abort, expects: &mut Expects, table: &str) {
    for line in table.lines() {
        holds(rt, is_so(expects, line), line);
    }
}

/// Whether a call comes to what its line says.
pub fn is_so(expects: &mut Expects, line: &str) -> bool {
    let (verb, rest) = cut(line, ' ');
    match verb {
        "add" => add(expects, rest) == Some(Ok(())),
        "full" => add(expects, rest) == Some(Err(AddFault::Full)),
        "goes" => print(expects, rest).is_none(),
        "stops" => {
            let (wanted, text) = cut(rest, ' ');
            text != "" && print(expects, text) == place(wanted)
        }
        "actions" => expects.actions_of() == rest.as_bytes(),
        "tail" => has_tail(expects, rest.as_bytes()),
        "empty" => expects.in_order(0).is_none(),
        _ => false,
    }
}

/// What comes of adding a text, if it and its actions have lengths that they may have.
fn add(expects: &mut Expects, entry: &str) -> Option<Result<(), AddFault>> {
    let (number, rest) = cut(entry, ':');
    let (text, actions) = cut(rest, ':');
    let number = count(number);
    if number == 0 || text.is_empty() || text.len() > 64 || actions.len() > 512 {
        return None;
    }
    Some(expects.add(number, text.as_bytes(), actions.as_bytes()))
}

/// Prints a text, whose last byte stops at that place, or at none.
fn print(expects: &mut Expects, text: &str) -> Option<usize> {
    let mut stop = None;
    for b in text.as_bytes() {
        stop = expects.printed(*b);
    }
    stop
}

fn has_tail(expects: &Expects, wanted: &[u8]) -> bool {
    let mut out = [0; 64];
    let count = expects.tail(&mut out);
    &out[..count] == wanted
}

const FOUND: &str = "add 2:aa:x;y
add 1:b:
goes aaa
actions
stops 0 a
actions x;y
stops 0 b
empty";

#[test]
fn a_text_is_found_since_the_last_match(rt: HostRuntime) -> Result<(), Fail> {
    let mut expects = Expects::new(rt.alloc())?;
    all(&rt, &mut expects, FOUND);
    Ok(())
}

// 64 letters
const TAIL: &str = "add 1:aaaaaaaaaaaaaaaaaaaaaaaaaaaaaaaaaaaaaaaaaaaaaaaaaaaaaaaaaaaaaaaa:
goes baaaaaaaaaaaaaaaaaaaaaaaaaaaaaaaaaaaaaaaaaaaaaaaaaaaaaaaaaaaaaaa
tail baaaaaaaaaaaaaaaaaaaaaaaaaaaaaaaaaaaaaaaaaaaaaaaaaaaaaaaaaaaaaaa
stops 0 a
tail";

/// Whether the list can be cleared, and the tail stays.
fn keeps_its_tail(expects: &mut Expects) -> bool {
    expects.set_tail(b"cd");
    expects.clear();
    has_tail(expects, b"cd")
}

#[test]
fn the_tail_has_64_bytes(rt: HostRuntime) -> Result<(), Fail> {
    let mut expects = Expects::new(rt.alloc())?;
    all(&rt, &mut expects, TAIL);
    holds(&rt, keeps_its_tail(&mut expects), "a tail");
    Ok(())
}

const FIRST: &str = "add 1:z:
add 1:bc:x
add 1:abc:y
stops 1 abc
actions x
goes bc
stops 1 abc
actions y";

#[test]
fn the_first_expect_that_was_added_matches(rt: HostRuntime) -> Result<(), Fail> {
    let mut expects = Expects::new(rt.alloc())?;
    all(&rt, &mut expects, FIRST);
    Ok(())
}

fn adds_64(expects: &mut Expects) -> bool {
    for _ in 0..64u8 {
        if add(expects, "1:ab:") != Some(Ok(())) {
            return false;
        }
    }
    true
}

const FULL: &str = "full 1:c:
stops 0 ab
add 1:c:
stops 63 c";

#[test]
fn no_more_than_64_expects_are_there(rt: HostRuntime) -> Result<(), Fail> {
    let mut expects = Expects::new(rt.alloc())?;
    holds(&rt, adds_64(&mut expects), "64 texts");
    all(&rt, &mut expects, FULL);
    Ok(())
}
