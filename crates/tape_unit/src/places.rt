ghost use Rattle.std.specs.Prelude.{◌≡◌, ◌<◌, ◌≤◌, map, slice_index, slice_set};
ghost use Rattle.unit_trait.specs.Row.{InRange};
ghost use Rattle.unit_trait.specs.Tape.{tape_length, tape_positions};
ghost use Rattle.tape_unit.specs.Ranges.{in_range_prop};

/// The largest place of a tape.
pub const LAST_PLACE: u32 = 0o400000000;

/// Where the tape of each drive stands, in bytes from the first place of its file.
#[derive(Drop)]
pub struct Places {
    places: [u32; 8],
    ghost range: { InRange tape_positions places } by { in_range_prop tape_positions places },
}

impl Places {
    /// Every tape stands at its first place.
    pub fn new() -> Places
        ensures { result.places ≡ map (λ r. r.initial) tape_positions }
    {
        Places { places: [0; 8] }
    }

    /// Where the tape of a drive stands; 0 past the last drive.
    pub fn at(&self, drive: u8) -> u32
        ensures { result ≡ slice_index self.now.places drive }
    {
        match self.places.get(usize::from(drive)) {
            Some(place) => *place,
            None => 0,
        }
    }

    /// Puts the tape of a drive at a place.
    #[tactic(auto, using(crate::proofs::Drives::drives))]
    pub fn put(&mut self, drive: u8, place: u32)
        requires drive { drive < 8 }
        requires place { place ≤ tape_length }
        ensures { self.new.places ≡ slice_set self.old.places drive place }
    {
        self.places[usize::from(drive)] = place;
    }
}
