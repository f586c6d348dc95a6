// Bytes that are sent to the keyboard, as lines that say what is called and what it comes to. What is sent is the time then,
// AFTER, DELAY and the bytes, with colons between them; a byte that waits is its time and itself.
use crate::checked::holds;
use crate::watched::texts::{count, cut, number, place};
use expect_actions::{Full, Sends};
use std::process::Abort;
use std::test::Fail;

fn all(rt: &impl Abort, sends: &mut Sends, table: &str) {
    for line in table.lines() {
        holds(rt, is_so(sends, line), line);
    }
}

/// Whether a call comes to what its line says.
pub fn is_so(sends: &mut Sends, line: &str) -> bool {
    let (verb, rest) = cut(line, ' ');
    match verb {
        "send" => send(sends, rest) == Ok(()),
        "full" => send(sends, rest) == Err(Full),
        "waits" => sends.take(number(rest)).is_none(),
        "takes" => {
            let (now, byte) = cut(rest, ':');
            byte != "" && sends.take(number(now)) == byte.bytes().next()
        }
        "clear" => {
            sends.clear();
            true
        }
        _ => is_there(sends, verb, rest),
    }
}

fn is_there(sends: &Sends, verb: &str, rest: &str) -> bool {
    match verb {
        "are" => are(sends, rest),
        "empty" => sends.is_empty() && sends.len() == 0 && sends.in_order(0).is_none(),
        "length" => Some(sends.len()) == place(rest),
        "last" => stands(sends, 4095, rest),
        _ => false,
    }
}

fn send(sends: &mut Sends, sending: &str) -> Result<(), Full> {
    let (now, rest) = cut(sending, ':');
    let (after, rest) = cut(rest, ':');
    let (delay, text) = cut(rest, ':');
    sends.add(number(now), count(after), count(delay), text.as_bytes())
}

/// Whether the bytes that wait are these, with bars between them, in this order.
fn are(sends: &Sends, entries: &str) -> bool {
    for (k, entry) in entries.split('|').enumerate() {
        if !stands(sends, k, entry) {
            return false;
        }
    }
    sends.len() == entries.split('|').count() && sends.in_order(sends.len()).is_none()
}

fn stands(sends: &Sends, k: usize, entry: &str) -> bool {
    let (time, byte) = cut(entry, ':');
    match sends.in_order(k) {
        Some(found) => found.0 == number(time) && Some(found.1) == byte.bytes().next(),
        None => false,
    }
}

// The last of these times is 2^62.
const TIMES: &str = "send 0:0:1000:
empty
send 0:0:1000:abc
are 0:a|1000:b|2000:c
clear
send 7:5:0:ab
are 12:a|12:b
clear
send 100:4294967295:1:a
are 4294967395:a
clear
send 4611686018427387903:0:1:abc
are 4611686018427387903:a|4611686018427387904:b|4611686018427387904:c
clear
send 4611686018427387913:0:0:a
are 4611686018427387904:a
clear
send 18446744073709551615:4294967295:4294967295:ab
are 4611686018427387904:a|4611686018427387904:b";

#[test]
fn bytes_have_their_times(rt: HostRuntime) -> Result<(), Fail> {
    let mut sends = Sends::new(rt.alloc())?;
    all(&rt, &mut sends, TIMES);
    Ok(())
}

const FROM_THE_LAST: &str = "send 10:5:100:ab
send 20:1:1:c
are 15:a|115:b|116:c
send 200:1:1:d
are 15:a|115:b|116:c|201:d
takes 201:a
takes 201:b
takes 201:c
takes 201:d
empty
send 3:4:1:e
are 7:e";

#[test]
fn a_text_is_timed_from_the_last_byte_that_waits(rt: HostRuntime) -> Result<(), Fail> {
    let mut sends = Sends::new(rt.alloc())?;
    all(&rt, &mut sends, FROM_THE_LAST);
    Ok(())
}

const TAKEN: &str = "waits 18446744073709551615
send 0:5:2:ab
waits 4
takes 5:a
waits 6
takes 1000:b
waits 1000";

#[test]
fn a_byte_is_taken_at_its_time_and_not_before(rt: HostRuntime) -> Result<(), Fail> {
    let mut sends = Sends::new(rt.alloc())?;
    all(&rt, &mut sends, TAKEN);
    Ok(())
}

const MANY: &str = "full 0:0:1:ab
length 4095
send 0:0:1:a
full 0:0:1:b
send 0:0:1:
last 4094:a
takes 0:a
send 0:0:1:b
last 4094:b
clear
empty";

#[test]
fn no_more_than_4096_bytes_wait(rt: HostRuntime) -> Result<(), Fail> {
    let mut sends = Sends::new(rt.alloc())?;
    holds(&rt, sends.add(0, 0, 1, &[b'a'; 4095]).is_ok(), "4095 bytes");
    all(&rt, &mut sends, MANY);
    Ok(())
}
