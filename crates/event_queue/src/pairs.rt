ghost use Rattle.std.specs.Prelude.{◌≡◌, ◌<◌, true, false, slice_get, IfSome};
ghost use Rattle.event_queue.specs.Idle.{looked};
ghost use Rattle.event_queue.specs.EventList.{Sound};
ghost use Rattle.event_queue.specs.Deltas.{events_of};

use crate::delta::Delta;
use crate::differences::bring_nearer;

/// Asks for the events of the first two entries again after so many instructions, where they are due and then stand in
/// front of the others; answers whether.
pub(crate) fn look_both(deltas: &mut [Delta], period: u32) -> bool
    requires { Sound (events_of deltas.old) }
    ensures looked { result ≡ true → events_of deltas.new ≡ looked period (events_of deltas.old) }
    ensures same { result ≡ false → deltas.new ≡ deltas.old }
{
    let (Some(first), Some(second)) = (at(deltas, 0), at(deltas, 1)) else {
        return false;
    };
    if first.after > 0 || second.after > 0 || !is_later(at(deltas, 2), period) {
        return false;
    }
    deltas[0] = Delta {
        unit: first.unit,
        after: period,
    };
    bring_nearer(deltas, 2, period);
    true
}

/// The same, where one of the others then stands in front of them.
pub(crate) fn look_behind_one(deltas: &mut [Delta], period: u32) -> bool
    requires { Sound (events_of deltas.old) }
    ensures looked { result ≡ true → events_of deltas.new ≡ looked period (events_of deltas.old) }
    ensures same { result ≡ false → deltas.new ≡ deltas.old }
{
    let (Some(first), Some(second), Some(third)) = (at(deltas, 0), at(deltas, 1), at(deltas, 2))
    else {
        return false;
    };
    if first.after > 0 || second.after > 0 || third.after == 0 || third.after > period {
        return false;
    }
    let rest = period - third.after;
    if !is_later(at(deltas, 3), rest) {
        return false;
    }
    deltas[0] = third;
    deltas[1] = Delta {
        unit: first.unit,
        after: rest,
    };
    deltas[2] = second;
    bring_nearer(deltas, 3, rest);
    true
}

/// An entry by its place from 0.
fn at(deltas: &[Delta], k: usize) -> Option<Delta>
    ensures { result ≡ slice_get deltas.now k }
{
    deltas.get(k).copied()
}

/// Whether an entry is due more than so many instructions after the one before it, where there is one.
fn is_later(entry: Option<Delta>, period: u32) -> bool
    ensures { result ≡ true → IfSome entry (λ d. period < d.after) }
{
    match entry {
        Some(entry) => entry.after > period,
        None => true,
    }
}
