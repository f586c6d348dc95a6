// Actions of breaks and expects: texts that are split at semicolons, and wait.
use crate::checked::holds;
use expect_actions::Actions;
use std::process::Abort;
use std::test::Fail;

/// Whether a text is put in front.
fn put(actions: &mut Actions, text: &[u8]) -> bool {
    text.len() <= 512 && actions.put_first(text).is_ok()
}

/// Whether there is no room for the actions of a text, and so many wait.
fn are_too_many(actions: &mut Actions, text: &[u8], waiting: usize) -> bool {
    text.len() <= 512 && actions.put_first(text).is_err() && actions.len() == waiting
}

/// Whether that action is the first, and is taken.
fn takes(actions: &mut Actions, wanted: &[u8]) -> bool {
    let mut out = [0; 512];
    match actions.take(&mut out) {
        Some(count) => &out[..count] == wanted,
        None => false,
    }
}

/// Whether the actions that wait are these, with bars between them, in this order. Takes them all.
fn give(actions: &mut Actions, wanted: &str) -> bool {
    for action in wanted.split('|') {
        if !takes(actions, action.as_bytes()) {
            return false;
        }
    }
    actions.is_empty() && actions.take(&mut [0; 512]).is_none()
}

/// Whether a text is split as a line says: into what stands behind its bars.
fn is_split(actions: &mut Actions, line: &str) -> bool {
    match line.split_once('|') {
        Some((text, wanted)) => {
            put(actions, text.as_bytes())
                && actions.len() == wanted.split('|').count()
                && give(actions, wanted)
        }
        None => put(actions, line.as_bytes()) && actions.is_empty(),
    }
}

fn all(rt: &impl Abort, actions: &mut Actions, table: &str) {
    for line in table.lines() {
        holds(rt, is_split(actions, line), line);
    }
}

const TEXTS: &str = "
;||
;;|||
CONT|CONT
E AC0;CONT|E AC0|CONT
 E AC0 ; CONT | E AC0 | CONT 
CONT;|CONT|
SEND \"a;b\";CONT|SEND \"a;b\"|CONT
SEND \"a\\\";b\";CONT|SEND \"a\\\";b\"|CONT
SEND \"a\\\\\";CONT|SEND \"a\\\\\"|CONT
SEND \"a\\n;\";C|SEND \"a\\n;\"|C
ECHO \\\";a;\"b;c|ECHO \\\";a;\"b|c
ECHO \"a;b;c|ECHO \"a;b;c
ECHO \"a;b\\|ECHO \"a;b\\";

#[test]
fn texts_are_split_outside_of_quotes(rt: HostRuntime) -> Result<(), Fail> {
    let mut actions = Actions::new(rt.alloc())?;
    all(&rt, &mut actions, TEXTS);
    Ok(())
}

/// Whether the first action is `c`, and no byte behind it is written.
fn takes_c_alone(actions: &mut Actions) -> bool {
    let mut out = [7; 512];
    actions.take(&mut out) == Some(1) && out[0] == b'c' && out[1] == 7
}

fn go_in_front(actions: &mut Actions) -> bool {
    put(actions, b"a;b")
        && put(actions, b"c;d")
        && takes_c_alone(actions)
        && put(actions, b"e")
        && actions.len() == 4
        && give(actions, "e|d|a|b")
}

fn are_taken_away(actions: &mut Actions) -> bool {
    let waited = put(actions, b"f;g");
    actions.clear();
    waited && actions.is_empty()
}

#[test]
fn actions_go_in_front_of_those_that_wait(rt: HostRuntime) -> Result<(), Fail> {
    let mut actions = Actions::new(rt.alloc())?;
    holds(&rt, go_in_front(&mut actions), "in front");
    holds(&rt, are_taken_away(&mut actions), "taken away");
    Ok(())
}

const ENDS: [u8; 512] = [b';'; 512];

fn are_64_at_most(actions: &mut Actions) -> bool {
    are_too_many(actions, &ENDS[..64], 0)
        && put(actions, &ENDS[..61])
        && are_too_many(actions, b"a;b;c", 62)
        && put(actions, b"a;b")
        && are_too_many(actions, b"c", 64)
        && put(actions, b"")
        && actions.len() == 64
        && takes(actions, b"a")
}

#[test]
fn no_more_than_64_actions_wait(rt: HostRuntime) -> Result<(), Fail> {
    let mut actions = Actions::new(rt.alloc())?;
    holds(&rt, are_64_at_most(&mut actions), "64 actions");
    Ok(())
}

fn keeps(actions: &mut Actions, text: &[u8]) -> bool {
    put(actions, text) && actions.len() == 1 && takes(actions, text) && actions.is_empty()
}

#[test]
fn an_action_of_512_bytes_is_kept(rt: HostRuntime) -> Result<(), Fail> {
    let mut actions = Actions::new(rt.alloc())?;
    holds(&rt, keeps(&mut actions, &[b'x'; 512]), "512 bytes");
    Ok(())
}
