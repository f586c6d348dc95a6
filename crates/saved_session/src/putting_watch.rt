// What was saved of the watch tables is built: breaks, texts that are waited for, and bytes that are sent.
ghost use Rattle.std.specs.Prelude.{◌≡◌, ◌≤◌, ◌<◌, ◌^◌, [], ◌∷◌, length, map, IfOk, OnOk, IsTrue, nat_le};
ghost use Rattle.std.specs.List.{AllByRecursion};
ghost use Rattle.expect_actions.specs.Breaks.{break_at, with_break};
ghost use Rattle.expect_actions.specs.Breaks.{table as break_table};
ghost use Rattle.expect_actions.specs.Expects.{expect_of, with_expect, table as expect_table};
ghost use Rattle.expect_actions.specs.Sends.{queued};
ghost use Rattle.saved_session.specs.Parts.{break_in, expect_in, state_in};
ghost use Rattle.saved_session.specs.SavedWatch.{break_from, expect_from, send_from, watch_from};
ghost use Rattle.saved_session.specs.Ranges.{is_address, longest_actions, longest_text, most_breaks, most_expects, most_sends};
ghost use Rattle.saved_session.specs.Order.{behind_break, behind_send};
ghost use Rattle.saved_session.specs.Valid.{Follow, IsBreak, IsExpect, IsSend, IsWatch};

use crate::saved::{Saved, SavedBreak, SavedExpect, SavedSend};
use expect_actions::{AddFault, Breaks, Expects, Sends, Watch};
use nova_word::{Addr, Word};
use std::alloc::{AllocError, Global};

// Adds a break, for which there is room.
fn add_break(breaks: &mut Breaks, entry: &SavedBreak) -> Result<(), AllocError>
    requires room { length breaks.old.list < most_breaks }
    requires address { entry.now.address < 2 ^ 15 }
    requires short { length entry.now.actions.items ≤ longest_actions }
    ensures { OnOk result (breaks.new ≡ break_table (with_break (break_from (break_in entry.now)) breaks.old.list)
        breaks.old.actions) }
{
    let at = Addr::of_word(Word(entry.address));
    match breaks.add(at, entry.count, entry.actions.as_slice()) {
        Ok(()) => Ok(()),
        Err(AddFault::OutOfMemory) => Err(AllocError),
        Err(AddFault::Full) => unreachable!(),
    }
}

/// The breaks, with no actions of a stop.
pub fn breaks_from(alloc: Global, saved: &[SavedBreak]) -> Result<Breaks, AllocError>
    requires few { length saved.now ≤ most_breaks }
    requires valid { Follow IsBreak behind_break 0 (map break_in saved.now) }
    ensures { IfOk result (λ breaks. breaks ≡ break_table (map break_from (map break_in saved.now)) []) }
{
    let mut breaks = Breaks::new(alloc)?;
    for entry in saved {
        add_break(&mut breaks, entry)?;
    }
    Ok(breaks)
}

// Adds a text that is waited for, for which there is room.
fn add_expect(expects: &mut Expects, entry: &SavedExpect) -> Result<(), AllocError>
    requires room { length expects.old.list < most_expects }
    requires valid { IsExpect (expect_in entry.now) }
    ensures { OnOk result (expects.new ≡ with_expect (expect_from (expect_in entry.now)) expects.old) }
{
    match expects.add(entry.count, entry.text.as_slice(), entry.actions.as_slice()) {
        Ok(()) => Ok(()),
        Err(AddFault::OutOfMemory) => Err(AllocError),
        Err(AddFault::Full) => unreachable!(),
    }
}

/// The texts that are waited for, and the bytes that were printed last, with no actions of a stop.
pub fn expects_from(
    alloc: Global,
    saved: &[SavedExpect],
    tail: &[u8],
) -> Result<Expects, AllocError>
    requires few { length saved.now ≤ most_expects }
    requires valid { AllByRecursion IsExpect (map expect_in saved.now) }
    requires tail { length tail.now ≤ longest_text }
    ensures { IfOk result (λ expects. expects ≡ expect_table (map expect_from (map expect_in saved.now)) tail.now []) }
{
    let mut expects = Expects::new(alloc)?;
    for entry in saved {
        add_expect(&mut expects, entry)?;
    }
    expects.set_tail(tail);
    Ok(expects)
}

// Adds a byte that is sent, for which there is room.
fn add_send(sends: &mut Sends, send: &SavedSend)
    requires { length sends.old < most_sends }
    ensures { sends.new ≡ queued send.now.time 0 0 (send.now.byte ∷ []) sends.old }
{
    let _room = sends.add(send.time, 0, 0, &[send.byte]);
}

/// The bytes that are sent, each at its time.
pub fn sends_from(alloc: Global, saved: &[SavedSend]) -> Result<Sends, AllocError>
    requires few { length saved.now ≤ most_sends }
    requires valid { Follow IsSend behind_send 0 saved.now }
    ensures { IfOk result (λ sends. sends ≡ map send_from saved.now) }
{
    let mut sends = Sends::new(alloc)?;
    for send in saved {
        add_send(&mut sends, send);
    }
    Ok(sends)
}

/// The watch tables of a saved session.
#[tactic(auto, unfolding(crate::specs::SavedWatch::watch_from))]
pub fn watch_from(alloc: Global, saved: &Saved) -> Result<Watch, AllocError>
    requires { IsWatch (state_in saved.now).watch }
    ensures { IfOk result (λ watch. watch ≡ watch_from (state_in saved.now).watch) }
{
    Ok(Watch {
        breaks: breaks_from(alloc, &saved.breaks)?,
        expects: expects_from(alloc, &saved.expects, &saved.tail)?,
        sends: sends_from(alloc, &saved.sends)?,
    })
}
