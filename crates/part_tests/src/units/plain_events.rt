// A plain list of events, each with the instructions that remain to it, beside which the events are held.
use event_queue::Events;
use unit_trait::{Kind, UnitName, code_of};

/// A unit that waits, and the instructions that remain to its event.
#[derive(Clone, Copy)]
pub struct Waiting {
    pub unit: UnitName,
    pub left: u32,
}

/// Asks for an event: behind all that are due no later, where the unit has none.
pub fn ask(plain: &mut Vec<Waiting>, unit: UnitName, delay: u32) {
    if plain.iter().any(|waiting| waiting.unit.is(unit)) {
        return;
    }
    let sooner = plain.iter().filter(|waiting| waiting.left <= delay).count();
    let at = sooner.min(plain.len());
    let _ = plain.insert(at, Waiting { unit, left: delay });
}

/// Takes out the events of all units of a kind.
pub fn cancel(plain: &mut Vec<Waiting>, kind: Kind) {
    plain.retain(|waiting| code_of(waiting.unit.kind) != code_of(kind));
}

/// Takes out the first event, where it is due.
pub fn take(plain: &mut Vec<Waiting>) -> Option<UnitName> {
    let first = plain.first().copied()?;
    if first.left > 0 || plain.is_empty() {
        return None;
    }
    plain.remove(0);
    Some(first.unit)
}

/// Lets so many instructions pass.
pub fn pass(plain: &mut Vec<Waiting>, count: u32) {
    for waiting in plain.iter_mut() {
        waiting.left = waiting.left.saturating_sub(count);
    }
}

/// Whether the event with that number is that one, with the instructions that remain to it.
fn stands_at(events: &Events, place: usize, waiting: Waiting) -> bool {
    match events.in_order(place) {
        Some((unit, left)) => unit.is(waiting.unit) && left == u64::from(waiting.left),
        None => false,
    }
}

/// Whether the events are those of the list, in its order, and no others.
pub fn stand(events: &Events, plain: &[Waiting]) -> bool {
    for (place, waiting) in plain.iter().enumerate() {
        if !stands_at(events, place, *waiting) {
            return false;
        }
    }
    events.len() == plain.len() && events.in_order(plain.len()).is_none()
}

/// Whether the differences that the events are kept by add up to the instructions that remain in the list.
pub fn add_up(events: &Events, plain: &[Waiting]) -> bool {
    let mut passed: u32 = 0;
    for (entry, waiting) in events.entries().iter().zip(plain.iter()) {
        passed = passed.wrapping_add(entry.after);
        if passed != waiting.left || !entry.unit.is(waiting.unit) {
            return false;
        }
    }
    events.entries().len() == plain.len()
}
