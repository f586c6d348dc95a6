ghost use Rattle.std.specs.Prelude.{◌≡◌, map, None};
ghost use Rattle.unit_trait.specs.Calls.{Reset};
ghost use Rattle.unit_trait.specs.Row.{row, moved, Fits};
ghost use Rattle.event_queue.specs.EventList.{wished, due};
ghost use Rattle.unit_list.specs.Bus.{kinds_of, AllFit};
ghost use Rattle.unit_list.specs.Reset.{first_unit, reset_units, reset_events};

use event_queue::Events;
use unit_trait::{Unit, UnitName};

/// Resets each unit, in bus order, and lets the queue do what each device then wishes for its first unit. Events that
/// wait already stay.
pub fn reset_all<U: Unit>(units: &mut [U], events: &mut Events)
    ensures units { map U.unit_state units.new ≡ reset_units (map U.unit_state units.old) }
    ensures events { events.new ≡ reset_events (map U.unit_state units.old) events.old }
    ensures later { due events.old ≡ None → due events.new ≡ None }
    ensures fits { AllFit (map U.unit_state units.old) → AllFit (map U.unit_state units.new) }
    ensures kinds { kinds_of (map U.unit_state units.new) ≡ kinds_of (map U.unit_state units.old) }
{
    for unit in units.iter_mut() {
        reset_unit(unit, events);
    }
}

#[tactic(auto, using(crate::proofs::Resets::resets))]
fn reset_unit<U: Unit>(unit: &mut U, events: &mut Events)
    ensures moved { U.unit_state unit.new ≡ moved (U.unit_state unit.old) Reset }
    ensures events { events.new
        ≡ wished (first_unit (U.unit_state unit.old).kind) (row (U.unit_state unit.old) Reset).queue events.old }
    ensures later { due events.old ≡ None → due events.new ≡ None }
    ensures fits { Fits (U.unit_state unit.new) }
{
    let unit_name = UnitName {
        kind: unit.kind(),
        unit: 0,
    };
    let wish = unit.reset();
    events.wish(unit_name, wish);
}
