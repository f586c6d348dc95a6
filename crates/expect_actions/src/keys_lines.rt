ghost use Rattle.std.specs.Prelude.{◌≡◌, ◌++◌, ◌∷◌, ◌<◌, ◌≤◌, ◌==◌, ◌+◌, length, map, take, option_map, IfSome, IfOk};
ghost use Rattle.std.specs.Prelude.{OnOk, ◌^◌};
ghost use Rattle.std.specs.List.{position};
ghost use Rattle.nova_word.specs.Numbers.{number_read};
ghost use Rattle.expect_actions.specs.KeysFile.{first_line, behind_line, line_read, next_read, time_read, keys_said};
ghost use Rattle.expect_actions.specs.KeysFile.{says_read};
ghost use Rattle.nova_word.specs.Quoted.{quoted_read};

use nova_word::{read_decimal, read_quoted};
use std::alloc::AllocError;

/// The largest time of a key.
const LATEST_TIME: u64 = 1 << 60;

/// How many keys a file has at most.
const MOST_KEYS: usize = 65536;

/// The bytes before the first LF, or all where there is none, and those behind it.
pub(crate) fn split_line(text: &[u8]) -> (&[u8], &[u8])
    ensures line { result.0.now ≡ first_line text.now }
    ensures behind { result.1.now ≡ behind_line text.now }
{
    match place_of(b'\n', text) {
        Some(place) => (&text[..place], &text[place + 1..]),
        None => text.split_at(text.len()),
    }
}

// What a line says: its time and how many bytes its text has, which stand first in `out`. `None` where it is no line
// of a keys file.
#[tactic(auto, unfolding(crate::specs::KeysFile::line_read))]
fn read_line(line: &[u8], out: &mut [u8]) -> Option<(u64, usize)>
    requires room { length line.now ≤ length out.old }
    ensures exact { line_read line.now ≡ option_map (λ q. (q.0, take q.1 out.new)) result }
    ensures count { IfSome result (λ q. q.1 ≤ length out.new) }
{
    match place_of(b' ', line) {
        Some(blank) => read_parts(&line[..blank], &line[blank + 1..], out),
        None => None,
    }
}

// The same by its digits and by what stands behind its space.
fn read_parts(digits: &[u8], quoted: &[u8], out: &mut [u8]) -> Option<(u64, usize)>
    requires room { length quoted.now ≤ length out.old }
    ensures exact { says_read (time_read (number_read 10 (2 ^ 63) digits.now)) (quoted_read quoted.now)
        ≡ option_map (λ q. (q.0, take q.1 out.new)) result }
    ensures count { IfSome result (λ q. q.1 ≤ length out.new) }
{
    match read_time(digits) {
        None => None,
        Some(time) => match read_quoted(quoted, out) {
            None => None,
            Some((count, place)) => {
                if place == quoted.len() {
                    Some((time, count))
                } else {
                    None
                }
            }
        },
    }
}

// The time that digits stand for, up to the latest.
fn read_time(digits: &[u8]) -> Option<u64>
    ensures { result ≡ time_read (number_read 10 (2 ^ 63) digits.now) }
{
    match read_decimal(digits) {
        Ok(time) => {
            if time <= LATEST_TIME {
                Some(time)
            } else {
                None
            }
        }
        Err(_) => None,
    }
}

// The place of the first such byte.
fn place_of(byte: u8, text: &[u8]) -> Option<usize>
    ensures { result ≡ position (λ b. b == byte) text.now }
{
    text.iter().position(|b| *b == byte)
}

/// Adds the keys of the line that follows lines of which the last has that time, and answers its own time. `None` where
/// it can't follow, and then nothing is added. Where memory runs out, some of its keys have been added.
#[tactic(auto, unfolding(crate::specs::KeysFile::next_read))]
pub(crate) fn take_line(
    list: &mut Vec<(u64, u8)>,
    time: u64,
    line: &[u8],
    out: &mut [u8],
) -> Result<Option<u64>, AllocError>
    requires few { length list.old.items ≤ 65536 }
    requires room { length line.now ≤ length out.old }
    ensures time { IfOk result
        (λ t. t ≡ option_map (λ says. says.0) (next_read time (length list.old.items) line.now)) }
    ensures keys { OnOk result
        (list.new.items ≡ list.old.items ++ keys_said (next_read time (length list.old.items) line.now)) }
    ensures few { OnOk result (length list.new.items ≤ 65536) }
{
    match read_line(line, out) {
        None => Ok(None),
        Some((next, count)) => {
            if next < time || count > MOST_KEYS - list.len() {
                return Ok(None);
            }
            add_keys(list, next, &out[..count])?;
            Ok(Some(next))
        }
    }
}

// Adds a key for each byte of a text. Where memory runs out, some of them have been added.
fn add_keys(list: &mut Vec<(u64, u8)>, time: u64, text: &[u8]) -> Result<(), AllocError>
    ensures { OnOk result (list.new.items ≡ list.old.items ++ map (λ b. (time, b)) text.now) }
{
    for b in text {
        list.push((time, *b))?;
    }
    Ok(())
}
