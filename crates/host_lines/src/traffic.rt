ghost use Rattle.std.specs.Prelude.{◌≡◌, ◌≤◌, ◌<◌, ◌+◌, ◌∷◌, ◌++◌, [], length, take, drop, get_or, sum_by, vec_len, vec_capacity, OnOk, OnErr, Ok};
ghost use Rattle.std.specs.List.{position};
ghost use Rattle.host_lines.specs.Traffic.{connects_to, comes_from, is_input, Caller, sent_bytes, input_answer, input_left, entries_behind, Happening};
ghost use Rattle.host_lines.specs.LineCalls.{receive_answer, received_count, LeavesRest};
ghost use Rattle.host_lines.specs.MemLines.{happens, connects_of};

use crate::entry::{CallerAct, Entry};
use crate::lines::{Received, Sent};
use std::alloc::{AllocError, Global};

/// Puts an entry behind the others. Where there is no memory, nothing changes.
pub(crate) fn add_entry(
    alloc: Global,
    entries: &mut Vec<Entry>,
    time: u64,
    caller: u32,
    does: CallerAct,
    bytes: &[u8],
) -> Result<(), AllocError>
    ensures ok { OnOk result (entries.new.items ≡ entries.old.items ++ happens time caller does bytes.now ∷ []) }
    ensures refused { OnErr result (entries.new.items ≡ entries.old.items) }
{
    entries.reserve(1)?;
    let entry = Entry::new(alloc, time, caller, does, bytes)?;
    let _ = entries.push(entry);
    Ok(())
}

/// The place of the first entry that connects to a port and is due.
pub(crate) fn first_connect(entries: &[Entry], port: u16, now: u64) -> Option<usize>
    ensures { result ≡ position (connects_to port now) entries.now }
{
    entries.iter().position(|e| e.does() == CallerAct::Connects(port) && e.time() <= now)
}

/// The place of the first entry that comes from a caller on its connection and is due.
pub(crate) fn first_input(entries: &[Entry], caller: u32, now: u64) -> Option<usize>
    ensures { result ≡ position (comes_from caller now) entries.now }
{
    entries.iter().position(|e| is_input(e.does()) && e.caller() == caller && e.time() <= now)
}

fn is_input(does: CallerAct) -> bool
    ensures { result ≡ is_input does }
{
    match does {
        CallerAct::Connects(_) => false,
        CallerAct::Sends | CallerAct::HangsUp => true,
    }
}

/// Takes what the entry at a place gives, and answers that.
pub(crate) fn take_input(entries: &mut Vec<Entry>, place: usize, buf: &mut [u8]) -> Received
    requires { place < length entries.old.items }
    ensures bound { received_count (Ok result) ≤ length buf.new }
    ensures lent { LeavesRest (Ok result) buf.old buf.new }
    ensures answer { (d : Happening) → receive_answer buf.new (Ok result)
        ≡ input_answer (length buf.old) (get_or entries.old.items place d).does (get_or entries.old.items place d).bytes }
    ensures left { (d : Happening) → entries.new.items
        ≡ input_left (length buf.old) place (get_or entries.old.items place d).does (get_or entries.old.items place d) entries.old.items }
    ensures connects { sum_by connects_of entries.new.items ≤ sum_by connects_of entries.old.items }
{
    match entries[place].does() {
        CallerAct::HangsUp => {
            let _ = entries.remove(place);
            Received::HungUp
        }
        CallerAct::Connects(_) => Received::NoneYet,
        CallerAct::Sends => Received::Bytes(take_bytes(entries, place, buf)),
    }
}

/// Takes first bytes of the entry at a place, as many as fit, and answers how many. It stays where some are left.
fn take_bytes(entries: &mut Vec<Entry>, place: usize, buf: &mut [u8]) -> usize
    requires { place < length entries.old.items }
    ensures bound { result ≤ length buf.new }
    ensures length { length buf.new ≡ length buf.old }
    ensures rest { drop result buf.new ≡ drop result buf.old }
    ensures bytes { (d : Happening) → take result buf.new ≡ take (length buf.old) (get_or entries.old.items place d).bytes }
    ensures left { (d : Happening) → entries.new.items
        ≡ entries_behind (length buf.old) place (get_or entries.old.items place d) entries.old.items }
    ensures connects { sum_by connects_of entries.new.items ≤ sum_by connects_of entries.old.items }
{
    let is_more = entries[place].len() > buf.len();
    let count = entries[place].take(buf);
    if !is_more {
        let _ = entries.remove(place);
    }
    count
}

/// Puts sent bytes behind the others, for which there is room.
pub(crate) fn keep_sent(sent: &mut Vec<Sent>, caller: u32, bytes: &[u8])
    requires { vec_len sent.old + length bytes.now ≤ vec_capacity sent.old }
    ensures sent { sent.new.items ≡ sent.old.items ++ sent_bytes (Caller caller) bytes.now }
    ensures length { vec_len sent.new ≡ vec_len sent.old + length bytes.now }
    ensures capacity { vec_capacity sent.old ≤ vec_capacity sent.new }
{
    for byte in bytes {
        let _ = sent.push(Sent {
            caller,
            byte: *byte,
        });
    }
}
