ghost use Rattle.std.specs.Prelude.{◌≡◌, ◌<◌, ◌≤◌, ◌+◌, ◌^◌, ◌++◌, ◌∷◌, length, take, drop, slice_get, IfSome};
ghost use Rattle.std.specs.List.{AllByRecursion};
ghost use Rattle.unit_trait.specs.declared.kind.UnitName.{UnitName as Unit};
ghost use Rattle.event_queue.specs.EventList.{Event};
ghost use Rattle.event_queue.specs.Deltas.{events_of, delta, nearer, further, entered};

use crate::delta::Delta;
use crate::waiting::Waiting;

/// The place behind all entries that are due no later, and what is left of the delay behind them.
pub(crate) fn place(deltas: &[Delta], delay: u32) -> (usize, u32)
    ensures within { result.0 ≤ length deltas.now }
    ensures next { IfSome (slice_get deltas.now result.0) (λ d. result.1 ≤ d.after) }
    ensures entered { (u : Unit)
        → take result.0 deltas.now ++ delta u result.1 ∷ nearer result.1 (drop result.0 deltas.now)
        ≡ entered u delay deltas.now }
{
    let mut left = delay;
    for (k, entry) in deltas.iter().enumerate() {
        if entry.after > left {
            return (k, left);
        }
        left -= entry.after;
    }
    (deltas.len(), left)
}

/// Lowers the difference of an entry, where there is one: it and all behind it come so much sooner.
#[inline]
pub(crate) fn bring_nearer(deltas: &mut [Delta], at: usize, by: u32)
    requires { IfSome (slice_get deltas.old at) (λ d. by ≤ d.after) }
    ensures { deltas.new ≡ take at deltas.old ++ nearer by (drop at deltas.old) }
{
    if at < deltas.len() {
        deltas[at].after -= by;
    }
}

/// Raises the difference of an entry, where there is one: it and all behind it come so much later.
pub(crate) fn put_off(deltas: &mut [Delta], at: usize, by: u32)
    requires { IfSome (slice_get deltas.old at) (λ d. d.after + by < 2 ^ 32) }
    ensures { deltas.new ≡ take at deltas.old ++ further by (drop at deltas.old) }
{
    if at < deltas.len() {
        deltas[at].after += by;
    }
}

/// An event by its place from 0.
pub(crate) fn event_at(deltas: &[Delta], k: usize) -> Option<Waiting>
    requires { AllByRecursion (λ (e : Event). e.remaining < 2 ^ 32) (events_of deltas.now) }
    ensures { result ≡ slice_get (events_of deltas.now) k }
{
    let mut remaining = 0;
    for (at, entry) in deltas.iter().enumerate() {
        remaining += entry.after;
        if at == k {
            return Some(Waiting {
                unit: entry.unit,
                remaining,
            });
        }
    }
    None
}
