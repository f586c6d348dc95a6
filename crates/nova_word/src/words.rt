ghost use Rattle.std.specs.Prelude.{◌≡◌, ◌+◌, ◌%◌, ◌^◌, ◌<◌, ◌≤◌, MatchOption};

use std::marker::Model;

/// A word of 16 bits. Bit 0 is the most significant one.
#[derive(Clone, Copy, Debug, PartialEq, Eq)]
pub struct Word(pub u16);

impl Model for Word {
    ghost use Rattle.std.specs.Prelude.{ℕ};

    ghost Value = { ℕ };

    ghost view = { λ w. w.0 };

    ghost inverse = { λ n. record { 0 = n } };
}

/// An address of a word in memory, below 32768.
#[derive(Clone, Copy, Debug, PartialEq, Eq)]
pub struct Addr(u16);

impl Model for Addr {
    ghost use Rattle.std.specs.Prelude.{ℕ, ◌^◌, ◌<◌};

    ghost Value = { ℕ };

    ghost view = { λ a. a.0 };

    ghost invariant = { λ a. a.0 < 2 ^ 15 };

    ghost inverse = { λ n. record { 0 = n } };
}

impl Addr {
    /// The address of that number, where it is one.
    pub fn new(n: u16) -> Option<Addr>
        ensures { MatchOption result (2 ^ 15 ≤ n) (λ a. (n < 2 ^ 15) × (a ≡ n)) }
    {
        if n < 32768 { Some(Addr(n)) } else { None }
    }

    /// The low 15 bits of a word.
    pub fn of_word(w: Word) -> Addr
        ensures { result ≡ w % 2 ^ 15 }
    {
        Addr(w.0 % 32768)
    }

    /// The number of the address, below 32768.
    pub fn number(self) -> u16
        ensures value { result ≡ self }
        ensures range { result < 2 ^ 15 }
    {
        self.0
    }

    /// The address that many words further on, around the end of memory.
    pub fn plus(self, n: u16) -> Addr
        ensures { result ≡ (self + n) % 2 ^ 15 }
    {
        Addr(((u32::from(self.0) + u32::from(n)) % 32768) as u16)
    }
}
