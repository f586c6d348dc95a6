// What a run watches is taken as it is saved: breaks, texts that are waited for, the printed tail, and bytes that are
// sent.
ghost use Rattle.std.specs.Prelude.{◌≡◌, ◌≤◌, map, option_map, slice_get, take, length, IfOk};
ghost use Rattle.expect_actions.specs.Breaks.{break_at};
ghost use Rattle.expect_actions.specs.Expects.{expect_of};
ghost use Rattle.saved_session.specs.Fields.{watch_in};
ghost use Rattle.saved_session.specs.Parts.{break_in, expect_in};
ghost use Rattle.saved_session.specs.Valid.{BreaksFit, ExpectsFit, WatchFits};
ghost use Rattle.saved_session.specs.SavedWatch.{saved_break, saved_expect, saved_send, saved_watch};

use crate::fields::WatchFields;
use crate::saved::{SavedBreak, SavedExpect, SavedSend};
use expect_actions::{Breaks, Expects, Sends, Watch};
use nova_word::Addr;
use std::alloc::{AllocError, Global};

/// How many of the printed bytes are kept at most.
const LONGEST_TAIL: usize = 64;

// A break, by its address, count and actions, as it is saved.
fn saved_break(alloc: Global, found: (Addr, u32, &[u8])) -> Result<SavedBreak, AllocError>
    ensures { IfOk result (λ b. break_in b ≡ saved_break (break_at found.entry.0 found.entry.1 found.entry.2.now)) }
{
    let (at, count, actions) = found;
    Ok(SavedBreak {
        address: at.number(),
        count,
        actions: Vec::from_slice(alloc, actions)?,
    })
}

/// The breaks, by rising addresses.
pub fn taken_breaks(alloc: Global, breaks: &Breaks) -> Result<Vec<SavedBreak>, AllocError>
    ensures breaks { IfOk result (λ v. map break_in v.items ≡ map saved_break breaks.now.list) }
    ensures fit { IfOk result (λ v. BreaksFit (map break_in v.items)) }
{
    let mut taken = Vec::new(alloc);
    for k in 0..breaks.len() {
        match breaks.in_order(k) {
            Some(found) => taken.push(saved_break(alloc, found)?)?,
            None => return Ok(taken),
        }
    }
    Ok(taken)
}

// A text that is waited for as it is saved.
fn saved_expect(
    alloc: Global,
    count: u32,
    text: &[u8],
    actions: &[u8],
) -> Result<SavedExpect, AllocError>
    ensures { IfOk result (λ e. expect_in e ≡ saved_expect (expect_of count text.now actions.now)) }
{
    Ok(SavedExpect {
        count,
        text: Vec::from_slice(alloc, text)?,
        actions: Vec::from_slice(alloc, actions)?,
    })
}

/// The texts that are waited for, in the order in which they were added.
pub fn taken_expects(alloc: Global, expects: &Expects) -> Result<Vec<SavedExpect>, AllocError>
    ensures expects { IfOk result (λ v. map expect_in v.items ≡ map saved_expect expects.now.list) }
    ensures fit { IfOk result (λ v. ExpectsFit (map expect_in v.items)) }
{
    let mut taken = Vec::new(alloc);
    for k in 0..expects.len() {
        match expects.in_order(k) {
            Some((count, text, actions)) => taken.push(saved_expect(alloc, count, text, actions)?)?,
            None => return Ok(taken),
        }
    }
    Ok(taken)
}

/// The bytes that were printed last.
pub fn taken_tail(alloc: Global, expects: &Expects) -> Result<Vec<u8>, AllocError>
    ensures tail { IfOk result (λ v. v.items ≡ expects.now.tail) }
    ensures short { IfOk result (λ v. length v.items ≤ 64) }
{
    let mut bytes = [0; LONGEST_TAIL];
    let count = expects.tail(&mut bytes);
    Vec::from_slice(alloc, &bytes[..count])
}

/// The bytes that wait to be sent, the next one first.
pub fn taken_sends(alloc: Global, sends: &Sends) -> Result<Vec<SavedSend>, AllocError>
    ensures sends { IfOk result (λ v. v.items ≡ map saved_send sends.now) }
    ensures few { IfOk result (λ v. length v.items ≤ 4096) }
{
    let mut taken = Vec::new(alloc);
    for k in 0..sends.len() {
        match sends.in_order(k) {
            Some((time, byte)) => taken.push(SavedSend { time, byte })?,
            None => return Ok(taken),
        }
    }
    Ok(taken)
}

/// All that is saved of what a run watches.
#[tactic(auto, unfolding(crate::specs::SavedWatch::saved_watch))]
pub fn taken_watch(alloc: Global, watch: &Watch) -> Result<WatchFields, AllocError>
    ensures watch { IfOk result (λ f. watch_in f ≡ saved_watch watch.now) }
    ensures fit { IfOk result (λ f. WatchFits (watch_in f)) }
{
    let _most_breaks = watch.breaks.len();
    let _most_expects = watch.expects.len();
    let breaks = taken_breaks(alloc, &watch.breaks)?;
    let expects = taken_expects(alloc, &watch.expects)?;
    let tail = taken_tail(alloc, &watch.expects)?;
    let sends = taken_sends(alloc, &watch.sends)?;
    Ok(WatchFields {
        breaks,
        expects,
        tail,
        sends,
    })
}
