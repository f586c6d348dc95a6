ghost use Rattle.std.specs.Prelude.{◌≡◌, map, option_map};
ghost use Rattle.nova_interrupts.specs.Requests.{asks, first_asking, requested, acknowledged};

use unit_trait::{DONE, Kind, Unit, code_of, mask_of};

/// What of the processor belongs to interrupts (How to Use the Nova Computers, "Program Interrupt").
#[derive(Clone, Copy, Debug, PartialEq, Eq)]
pub struct Ints {
    /// The interrupt mask word: a device whose bit is 1 asks for none.
    pub mask: u16,
    /// Interrupts are on.
    pub on: bool,
    /// Interrupts wait for one more instruction.
    pub hold: bool,
}

impl Ints {
    ghost use Rattle.nova_interrupts.specs.Interrupts.{no_interrupts, masked_out, enabled, disabled, released};

    /// Interrupts off, none waiting, and a mask of 0.
    pub fn new() -> Ints
        ensures { result ≡ no_interrupts }
    {
        Ints {
            mask: 0,
            on: false,
            hold: false,
        }
    }

    /// Whether a device asks for an interrupt: its DONE is 1, and its bit of the mask is 0. The units are those of the
    /// machine, in bus order. Whether interrupts are on has no part in it.
    pub fn requested<U: Unit>(&self, units: &[U]) -> bool
        ensures { result ≡ requested self.now.mask (map U.unit_state units.now) }
    {
        first_asking(self.mask, units).is_some()
    }

    /// The code of the first device in bus order that asks for an interrupt, or 0.
    pub fn acknowledge<U: Unit>(&self, units: &[U]) -> u16
        ensures { result ≡ acknowledged self.now.mask (map U.unit_state units.now) }
    {
        match first_asking(self.mask, units) {
            Some(kind) => u16::from(code_of(kind)),
            None => 0,
        }
    }

    /// Sets the mask: each device is masked out whose bit of the word is 1, and no other.
    pub fn mask_out(&mut self, word: u16)
        ensures { self.new ≡ masked_out word self.old }
    {
        self.mask = word;
    }

    /// Turns interrupts on, behind the next instruction.
    pub fn enable(&mut self)
        ensures { self.new ≡ enabled self.old }
    {
        self.on = true;
        self.hold = true;
    }

    /// Turns interrupts off.
    pub fn disable(&mut self)
        ensures { self.new ≡ disabled self.old }
    {
        self.on = false;
        self.release();
    }

    /// Lets interrupts wait no longer.
    #[inline]
    pub fn release(&mut self)
        ensures { self.new ≡ released self.old }
    {
        self.hold = false;
    }

    /// Turns interrupts off, lets none wait, and clears the mask.
    pub fn reset(&mut self)
        ensures { self.new ≡ no_interrupts }
    {
        *self = Ints::new();
    }
}

// The kind of the first device that asks for an interrupt.
fn first_asking<U: Unit>(mask: u16, units: &[U]) -> Option<Kind>
    ensures { result ≡ option_map (λ u. u.kind) (first_asking mask (map U.unit_state units.now)) }
{
    for unit in units {
        if asks(mask, unit) {
            return Some(unit.kind());
        }
    }
    None
}

// Whether a device asks for an interrupt under that mask.
fn asks<U: Unit>(mask: u16, unit: &U) -> bool
    ensures { result ≡ asks mask (U.unit_state unit.now) }
{
    unit.reg(DONE) == 1 && mask / mask_of(unit.kind()) % 2 == 0
}
