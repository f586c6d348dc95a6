// BREAK, NOBREAK, EXPECT, NOEXPECT, SEND and NOSEND.
ghost use Rattle.std.specs.Prelude.{◌≡◌, ◌≤◌, ◌&&◌, nat_le, take, length, Bool, Err};
ghost use Rattle.nova_machine.specs.Comes.{Output};
ghost use Rattle.command_session.specs.declared.fault.CommandFault.TheVariants.{OutOfMemory};
ghost use Rattle.command_session.specs.Live.{standing, live_in, Beyond};
ghost use Rattle.command_session.specs.RunEffects.{last_address};
ghost use Rattle.command_session.specs.WatchEffects.{largest_count, text_of_quoted, added_answer, can_be_expected};
ghost use Rattle.command_session.specs.WatchEffects.{break_reply, no_break_reply, expect_reply, no_expect_reply, send_reply, no_send_reply};
ghost use Rattle.scp_parser.specs.Command.{Break, Expect};
ghost use Rattle.command_session.specs.Refusals.{IsUnrefused};
ghost use Rattle.command_session.specs.Doing.{Does, IsOwn, IsPlain, IsExitAnswer, IsRefused};

use command_session::{CommandFault, Next, Session};
use expect_actions::{AddFault, Full};
use nova_word::{Addr, read_quoted};
use scp_parser::LONGEST_LINE;
use unit_trait::Unit;

/// The largest address.
const LAST_ADDRESS: u64 = 0o77777;

/// The largest count of a BREAK and an EXPECT, and the largest number of AFTER and of DELAY.
const LARGEST_COUNT: u64 = 0xffff_ffff;

/// How many bytes a text has at most that is waited for.
const LONGEST_TEXT: usize = 64;

/// BREAK puts a break at an address, where it replaces one that is there. It prints nothing.
///
/// `OutOfRange` comes where the address is above 77777 or the count above 2^32 - 1, and `Full` where it would be the
/// 257th break. After `OutOfMemory` nothing has changed.
#[tactic(auto, unfolding(command_session::specs::WatchEffects::break_reply))]
pub fn add_break<U: Unit>(
    session: &mut Session<U>,
    at: u64,
    count: u64,
    actions: &[u8],
) -> Result<Next, CommandFault>
    requires { length actions.now ≤ 512 }
    ensures refused { IsRefused result
        → (session.new.machine ≡ session.old.machine) × (session.new.watch ≡ session.old.watch) }
    ensures told { (files : Beyond) (tells : Bool) (text : Output)
        → Does (break_reply (live_in session.old files) at count actions.now) result
        (standing 0 (live_in session.new files)) tells text text }
    ensures unrefused { result ≡ Err OutOfMemory
        → IsUnrefused (Break at count actions.now) session.old.machine session.old.watch }
    ensures undone { result ≡ Err OutOfMemory → session.new ≡ session.old }
    ensures own { IsOwn result }
    ensures exit { IsExitAnswer result }
    ensures rest { session.new ≡ record session.old { watch = session.new.watch } }
{
    if !is_break(at, count) {
        return Err(CommandFault::OutOfRange);
    }
    let at = address_of(at);
    added(session.watch.breaks.add(at, count as u32, actions))
}

// Whether a break can be at an address and have that count.
fn is_break(at: u64, count: u64) -> bool
    ensures { result ≡ (nat_le at last_address && nat_le count largest_count) }
{
    at <= LAST_ADDRESS && count <= LARGEST_COUNT
}

// An address by its number.
fn address_of(at: u64) -> Addr
    requires { at ≤ last_address }
    ensures { result ≡ at }
{
    Addr::new(at as u16).unwrap()
}

// What is answered of a break or an expect that was added, or not.
fn added(added: Result<(), AddFault>) -> Result<Next, CommandFault>
    ensures { result ≡ added_answer added }
{
    match added {
        Ok(()) => Ok(Next::Go),
        Err(fault) => Err(CommandFault::of_add(fault)),
    }
}

/// NOBREAK removes the break of an address, if one is there, and NOBREAK ALL all of them. It prints nothing.
/// `OutOfRange` comes where the address is above 77777.
#[tactic(auto, unfolding(command_session::specs::WatchEffects::no_break_reply))]
pub fn remove_breaks<U: Unit>(
    session: &mut Session<U>,
    at: Option<u64>,
) -> Result<Next, CommandFault>
    ensures refused { IsRefused result
        → (session.new.machine ≡ session.old.machine) × (session.new.watch ≡ session.old.watch) }
    ensures told { (files : Beyond) (tells : Bool) (text : Output)
        → Does (no_break_reply (live_in session.old files) at) result (standing 0 (live_in session.new files)) tells
        text text }
    ensures own { IsPlain result }
    ensures exit { IsExitAnswer result }
    ensures rest { session.new ≡ record session.old { watch = session.new.watch } }
{
    match at {
        None => session.watch.breaks.clear(),
        Some(at) => {
            if at > LAST_ADDRESS {
                return Err(CommandFault::OutOfRange);
            }
            let _there = session.watch.breaks.remove(address_of(at));
        }
    }
    Ok(Next::Go)
}

/// EXPECT waits for a text on the console, behind all that are waited for already. It prints nothing.
///
/// `OutOfRange` comes where the count is not 1 to 2^32 - 1, or the text has not 1 to 64 bytes, and `Full` where it
/// would be the 65th text. After `OutOfMemory` nothing has changed.
#[tactic(auto, unfolding(command_session::specs::WatchEffects::expect_reply))]
pub fn add_expect<U: Unit>(
    session: &mut Session<U>,
    count: u64,
    quoted: &[u8],
    actions: &[u8],
) -> Result<Next, CommandFault>
    requires short { length quoted.now ≤ 512 }
    requires actions { length actions.now ≤ 512 }
    ensures refused { IsRefused result
        → (session.new.machine ≡ session.old.machine) × (session.new.watch ≡ session.old.watch) }
    ensures told { (files : Beyond) (tells : Bool) (text : Output)
        → Does (expect_reply (live_in session.old files) count quoted.now actions.now) result
        (standing 0 (live_in session.new files)) tells text text }
    ensures unrefused { result ≡ Err OutOfMemory
        → IsUnrefused (Expect count quoted.now actions.now) session.old.machine session.old.watch }
    ensures undone { result ≡ Err OutOfMemory → session.new ≡ session.old }
    ensures own { IsOwn result }
    ensures exit { IsExitAnswer result }
    ensures rest { session.new ≡ record session.old { watch = session.new.watch } }
{
    let mut bytes = [0; LONGEST_LINE];
    let length = read_text(quoted, &mut bytes);
    let text = &bytes[..length];
    if !can_be_expected(count, text) {
        return Err(CommandFault::OutOfRange);
    }
    added(session.watch.expects.add(count as u32, text, actions))
}

// Whether a text can be waited for, with that count.
fn can_be_expected(count: u64, text: &[u8]) -> bool
    ensures { result ≡ can_be_expected count text.now }
{
    1 <= count && count <= LARGEST_COUNT && 1 <= text.len() && text.len() <= LONGEST_TEXT
}

// Reads a quoted text, and answers how many bytes it has. They stand first in `out`.
fn read_text(quoted: &[u8], out: &mut [u8; LONGEST_LINE]) -> usize
    requires { length quoted.now ≤ 512 }
    ensures text { take result out.new ≡ text_of_quoted quoted.now }
    ensures most { result ≤ 512 }
{
    match read_quoted(quoted, out) {
        Some((length, _)) => length,
        None => 0,
    }
}

/// NOEXPECT waits for no text any more. The bytes that were printed stay. It prints nothing.
#[tactic(auto, unfolding(command_session::specs::WatchEffects::no_expect_reply))]
pub fn remove_expects<U: Unit>(session: &mut Session<U>) -> Result<Next, CommandFault>
    ensures refused { IsRefused result
        → (session.new.machine ≡ session.old.machine) × (session.new.watch ≡ session.old.watch) }
    ensures told { (files : Beyond) (tells : Bool) (text : Output)
        → Does (no_expect_reply (live_in session.old files)) result (standing 0 (live_in session.new files)) tells
        text text }
    ensures own { IsPlain result }
    ensures exit { IsExitAnswer result }
    ensures rest { session.new ≡ record session.old { watch = session.new.watch } }
{
    session.watch.expects.clear();
    Ok(Next::Go)
}

/// SEND queues the bytes of a text for the keyboard: the first so many instructions after now, or after the last byte
/// that is still queued, and each further one so much later than the one before it. It prints nothing and takes no
/// memory.
///
/// `OutOfRange` comes where a number is above 2^32 - 1, and `Full` where more than 4096 bytes would wait.
#[tactic(auto, unfolding(command_session::specs::WatchEffects::send_reply))]
pub fn send<U: Unit>(
    session: &mut Session<U>,
    after: u64,
    delay: u64,
    quoted: &[u8],
) -> Result<Next, CommandFault>
    requires { length quoted.now ≤ 512 }
    ensures refused { IsRefused result
        → (session.new.machine ≡ session.old.machine) × (session.new.watch ≡ session.old.watch) }
    ensures told { (files : Beyond) (tells : Bool) (text : Output)
        → Does (send_reply (live_in session.old files) after delay quoted.now) result
        (standing 0 (live_in session.new files)) tells text text }
    ensures own { IsPlain result }
    ensures exit { IsExitAnswer result }
    ensures rest { session.new ≡ record session.old { watch = session.new.watch } }
{
    if after > LARGEST_COUNT || delay > LARGEST_COUNT {
        return Err(CommandFault::OutOfRange);
    }
    let mut bytes = [0; LONGEST_LINE];
    let length = read_text(quoted, &mut bytes);
    let now = session.machine.time();
    match session
        .watch
        .sends
        .add(now, after as u32, delay as u32, &bytes[..length])
    {
        Ok(()) => Ok(Next::Go),
        Err(Full) => Err(CommandFault::Full),
    }
}

/// NOSEND removes the bytes that wait for the keyboard. It prints nothing.
#[tactic(auto, unfolding(command_session::specs::WatchEffects::no_send_reply))]
pub fn remove_sends<U: Unit>(session: &mut Session<U>) -> Result<Next, CommandFault>
    ensures refused { IsRefused result
        → (session.new.machine ≡ session.old.machine) × (session.new.watch ≡ session.old.watch) }
    ensures told { (files : Beyond) (tells : Bool) (text : Output)
        → Does (no_send_reply (live_in session.old files)) result (standing 0 (live_in session.new files)) tells
        text text }
    ensures own { IsPlain result }
    ensures exit { IsExitAnswer result }
    ensures rest { session.new ≡ record session.old { watch = session.new.watch } }
{
    session.watch.sends.clear();
    Ok(Next::Go)
}
