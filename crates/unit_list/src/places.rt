ghost use Rattle.std.specs.Prelude.{◌≡◌, ◌<◌, length, map, None, IfSome, is_some};
ghost use Rattle.unit_trait.specs.Kinds.{code_of};
ghost use Rattle.unit_list.specs.Bus.{unit_at, kinds_of};
ghost use Rattle.unit_list.specs.Places.{StandsAt, place_in, places_in};

use std::marker::Model;
use unit_trait::{Kind, Unit, code_of};

/// How many codes the bus has.
const CODES: usize = 64;

/// Where the unit with each code stands in a list of units, so that a call finds it without a search. It holds as long
/// as the kinds of the units stay.
#[derive(Drop)]
pub struct Places {
    table: [usize; CODES],
}

impl Model for Places {
    ghost use Rattle.std.specs.Prelude.{ℕ, List};

    ghost Value = { List ℕ };

    ghost view = { λ p. p.table };
}

impl Places {
    /// The places of these units, the first one for a code that several have.
    pub fn new<U: Unit>(units: &[U]) -> Places
        ensures { result ≡ places_in (kinds_of (map U.unit_state units.now)) }
    {
        let mut table = [0; CODES];
        for code in 0..64u8 {
            table[usize::from(code)] = first_place(units, code);
        }
        Places { table }
    }

    // Where the unit with that code stands.
    pub(crate) fn of<U: Unit>(&self, units: &[U], code: u8) -> Option<usize>
        requires { self.now ≡ places_in (kinds_of (map U.unit_state units.now)) }
        ensures stands { IfSome result (λ place. StandsAt code (map U.unit_state units.now) place) }
        ensures within { IfSome result (λ place. place < length units.now) }
        ensures found { is_some result ≡ is_some (unit_at code (map U.unit_state units.now)) }
        ensures none { result ≡ None → unit_at code (map U.unit_state units.now) ≡ None }
    {
        if usize::from(code) >= CODES {
            return None;
        }
        let place = self.table[usize::from(code)];
        if place < units.len() {
            Some(place)
        } else {
            None
        }
    }

    // Where the unit of that kind stands.
    pub(crate) fn of_kind<U: Unit>(&self, units: &[U], kind: Kind) -> Option<usize>
        requires { self.now ≡ places_in (kinds_of (map U.unit_state units.now)) }
        ensures stands { IfSome result (λ place. StandsAt (code_of kind) (map U.unit_state units.now) place) }
        ensures within { IfSome result (λ place. place < length units.now) }
        ensures none { result ≡ None → unit_at (code_of kind) (map U.unit_state units.now) ≡ None }
    {
        self.of(units, code_of(kind))
    }
}

// Where the first unit with that code stands; the number of units, where none has it.
fn first_place<U: Unit>(units: &[U], code: u8) -> usize
    ensures { result ≡ place_in code (kinds_of (map U.unit_state units.now)) }
{
    for (place, unit) in units.iter().enumerate() {
        if code_of(unit.kind()) == code {
            return place;
        }
    }
    units.len()
}
