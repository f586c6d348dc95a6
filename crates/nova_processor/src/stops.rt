use nova_word::Addr;

/// Addresses at which a burst of the processor ends, before the instruction there.
pub trait Stops {
    ghost use Rattle.std.specs.Prelude.{◌≡◌, ℕ, Bool};

    ghost stops: { Self → ℕ → Bool };

    fn is_at(&self, address: Addr) -> bool
        ensures { result ≡ Self.stops self.now address };
}

/// No stop.
pub struct Nowhere;

impl Stops for Nowhere {
    ghost use Rattle.std.specs.Prelude.{false};

    ghost stops = { λ _ _. false };

    #[inline(always)]
    fn is_at(&self, _address: Addr) -> bool {
        false
    }
}
