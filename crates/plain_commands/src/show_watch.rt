// SHOW BREAK, SHOW EXPECT and SHOW SEND.
ghost use Rattle.std.specs.Prelude.{◌≤◌, length, IsTrue};
ghost use Rattle.fault_counts.specs.Faults.{CountsFault};
ghost use Rattle.file_traits.specs.Streams.{Puts};
ghost use Rattle.expect_actions.specs.Breaks.{break_at};
ghost use Rattle.expect_actions.specs.Expects.{expect_of};
ghost use Rattle.plain_commands.specs.WatchTexts.{break_line, breaks_text, expect_line, expects_text, sends_text};

use crate::quoted_text::quoted_text;
use expect_actions::{Breaks, Expects, Sends};
use file_traits::{Failed, Sink, put_pieces};
use itoa::Buffer;
use line_text::Text;
use nova_word::Addr;

/// Prints a line for each break, in rising address.
pub fn put_breaks<S: Sink>(breaks: &Breaks, out: &mut S) -> Result<(), Failed>
    ensures told { IsTrue S.tells → Puts (S.written out.old) (breaks_text breaks.now.list) result (S.written out.new) }
    ensures counts { CountsFault (S.fault_count out.old) (S.fault_count out.new) result }
{
    for k in 0..breaks.len() {
        match breaks.in_order(k) {
            Some((at, count, actions)) => put_break(at, count, actions, out)?,
            None => return Ok(()),
        }
    }
    Ok(())
}

// Prints the line of a break: its address, how many tests are left to its stop, in decimal, and its actions.
fn put_break<S: Sink>(at: Addr, count: u32, actions: &[u8], out: &mut S) -> Result<(), Failed>
    ensures told { IsTrue S.tells
        → Puts (S.written out.old) (break_line (break_at at count actions.now)) result (S.written out.new) }
    ensures counts { CountsFault (S.fault_count out.old) (S.fault_count out.new) result }
{
    let mut address = Text::<12>::new();
    address.push_octal(u32::from(at.number()), 5);
    let at = address.as_slice();
    let mut buffer = Buffer::new();
    let count = buffer.format(count).as_bytes();
    if actions.is_empty() {
        put_pieces(out, &[at, b":\t[", count, b"]\n"])
    } else {
        put_pieces(out, &[at, b":\t[", count, b"]; ", actions, b"\n"])
    }
}

/// Prints a line for each expect, in the order in which they were added.
pub fn put_expects<S: Sink>(expects: &Expects, out: &mut S) -> Result<(), Failed>
    ensures told { IsTrue S.tells
        → Puts (S.written out.old) (expects_text expects.now.list) result (S.written out.new) }
    ensures counts { CountsFault (S.fault_count out.old) (S.fault_count out.new) result }
{
    for k in 0..expects.len() {
        match expects.in_order(k) {
            Some((count, text, actions)) => put_expect(count, text, actions, out)?,
            None => return Ok(()),
        }
    }
    Ok(())
}

// Prints the line of an expect: how many matches are left to its stop, in decimal, its text, and its actions.
fn put_expect<S: Sink>(count: u32, text: &[u8], actions: &[u8], out: &mut S) -> Result<(), Failed>
    requires { length text.now ≤ 64 }
    ensures told { IsTrue S.tells → Puts (S.written out.old) (expect_line (expect_of count text.now actions.now)) result
        (S.written out.new) }
    ensures counts { CountsFault (S.fault_count out.old) (S.fault_count out.new) result }
{
    let quoted = quoted_text(text);
    let text = quoted.as_slice();
    let mut buffer = Buffer::new();
    let count = buffer.format(count).as_bytes();
    if actions.is_empty() {
        put_pieces(out, &[b"[", count, b"] ", text, b"\n"])
    } else {
        put_pieces(out, &[b"[", count, b"] ", text, b" ", actions, b"\n"])
    }
}

/// Prints how many bytes wait for the keyboard, in decimal.
pub fn put_sends<S: Sink>(sends: &Sends, out: &mut S) -> Result<(), Failed>
    ensures told { IsTrue S.tells → Puts (S.written out.old) (sends_text sends.now) result (S.written out.new) }
    ensures counts { CountsFault (S.fault_count out.old) (S.fault_count out.new) result }
{
    let count = sends.len();
    let mut buffer = Buffer::new();
    put_pieces(
        out,
        &[b"Send: ", buffer.format(count).as_bytes(), b" bytes\n"],
    )
}
