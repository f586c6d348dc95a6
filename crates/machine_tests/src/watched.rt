// What is watched in runs: breaks, texts that are waited for, and bytes that are sent.
use crate::row::{Row, check, count, cut, octal_word, small, text};
use expect_actions::{Breaks, Expects, Sends, Watch};
use nova_word::{Addr, Word};
use std::process::Abort;

pub fn watch_all(rt: &impl Abort, watch: &mut Watch, row: Row<'_>) {
    for word in text(row, "breaks").split_whitespace() {
        check(rt, adds_break(&mut watch.breaks, word), word);
    }
    for word in text(row, "expects").split_whitespace() {
        check(rt, adds_expect(&mut watch.expects, word), word);
    }
    for word in text(row, "sends").split_whitespace() {
        check(rt, adds_send(&mut watch.sends, word), word);
    }
}

fn adds_break(breaks: &mut Breaks, word: &str) -> bool {
    let (at, number) = cut(word, ':');
    let at = Addr::of_word(Word(octal_word(at)));
    breaks.add(at, count(number), b"").is_ok()
}

fn adds_expect(expects: &mut Expects, word: &str) -> bool {
    let (number, text) = cut(word, ':');
    let number = count(number);
    if number == 0 || text.is_empty() || text.len() > 64 {
        return false;
    }
    expects.add(number, text.as_bytes(), b"").is_ok()
}

fn adds_send(sends: &mut Sends, word: &str) -> bool {
    let (after, rest) = cut(word, ':');
    let (delay, text) = cut(rest, ':');
    sends
        .add(0, count(after), count(delay), text.as_bytes())
        .is_ok()
}

pub fn watch_stands(rt: &impl Abort, watch: &Watch, row: Row<'_>) {
    check(
        rt,
        breaks_stand(&watch.breaks, text(row, "counts")),
        row.line,
    );
    check(
        rt,
        expects_stand(&watch.expects, text(row, "matches")),
        row.line,
    );
    check(
        rt,
        watch.sends.len() == small(text(row, "waiting")),
        row.line,
    );
}

/// Whether the breaks have these counts, and there are no others.
fn breaks_stand(breaks: &Breaks, counts: &str) -> bool {
    let mut counts = counts.split_whitespace();
    for place in 0..8usize {
        match (breaks.in_order(place), counts.next()) {
            (Some(found), Some(wanted)) => {
                if found.1 != count(wanted) {
                    return false;
                }
            }
            (None, None) => return true,
            _ => return false,
        }
    }
    false
}

/// Whether the texts have these counts, and there are no others.
fn expects_stand(expects: &Expects, counts: &str) -> bool {
    let mut counts = counts.split_whitespace();
    for place in 0..8usize {
        match (expects.in_order(place), counts.next()) {
            (Some(found), Some(wanted)) => {
                if found.0 != count(wanted) {
                    return false;
                }
            }
            (None, None) => return true,
            _ => return false,
        }
    }
    false
}
