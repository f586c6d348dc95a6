ghost use Rattle.std.specs.Prelude.{◌≡◌, ◌+◌, ◌≤◌, ◌<◌, ◌^◌, ◌++◌, ◌∷◌, ◌↔◌, [], IsTrue, length, drop, take};
ghost use Rattle.std.specs.Prelude.{nat_lt, if◌then◌else◌};
ghost use Rattle.nova_word.specs.Numbers.{octal_digits};

use nova_word::write_octal;
use std::marker::Model;

/// A text of at most `N` bytes that is put together before it is printed.
#[derive(Drop)]
pub struct Text<const N: usize> {
    bytes: [u8; N],
    length: usize,
}

impl<const N: usize> Model for Text<N> {
    ghost use Rattle.std.specs.Prelude.{◌≤◌, List, ℕ, take};

    ghost Value = { List ℕ };

    ghost view = { λ t. take t.length t.bytes };

    ghost invariant = { λ t. t.length ≤ N };
}

impl<const N: usize> Text<N> {
    /// The empty text.
    pub fn new() -> Self
        ensures { result ≡ [] }
    {
        Text {
            bytes: [0; N],
            length: 0,
        }
    }

    /// How many bytes the text has.
    pub fn len(&self) -> usize
        ensures length { result ≡ length self.now }
        ensures bound { result ≤ N }
    {
        self.length
    }

    /// Whether the text has no byte.
    pub fn is_empty(&self) -> bool
        ensures { IsTrue result ↔ (self.now ≡ []) }
    {
        self.length == 0
    }

    /// Whether the text has no room for another byte.
    pub fn is_full(&self) -> bool
        ensures { IsTrue result ↔ (length self.now ≡ N) }
    {
        self.length == N
    }

    /// The bytes of the text.
    pub fn as_slice(&self) -> &[u8]
        ensures { result.now ≡ self.now }
    {
        &self.bytes[..self.length]
    }

    /// Writes the text first into `out`, and answers how many bytes it has.
    pub fn copy_to(&self, out: &mut [u8; N]) -> usize
        ensures count { result ≡ length self.now }
        ensures text { out.new ≡ self.now ++ drop (length self.now) out.old }
    {
        out[..self.length].copy_from_slice(self.as_slice());
        self.length
    }

    /// Adds a byte.
    pub fn push(&mut self, b: u8)
        requires { length self.old < N }
        ensures { self.new ≡ self.old ++ b ∷ [] }
    {
        self.bytes[self.length] = b;
        self.length += 1;
    }

    /// Adds a byte where there is room, and else nothing.
    pub fn keep(&mut self, b: u8)
        ensures { self.new ≡ (if nat_lt (length self.old) N then self.old ++ b ∷ [] else self.old) }
    {
        if self.length < N {
            self.push(b);
        }
    }

    /// Takes the last bytes off, so that this many are left; a text that has no more stays as it is.
    pub fn truncate(&mut self, count: usize)
        ensures { self.new ≡ take count self.old }
    {
        self.length = self.length.min(count);
    }

    /// Makes the text empty.
    pub fn clear(&mut self)
        ensures { self.new ≡ [] }
    {
        self.length = 0;
    }

    /// Adds bytes.
    pub fn push_all(&mut self, bytes: &[u8])
        requires { length self.old + length bytes.now ≤ N }
        ensures { self.new ≡ self.old ++ bytes.now }
    {
        for b in bytes {
            self.push(*b);
        }
    }

    /// Adds that many octal digits of a number.
    pub fn push_octal(&mut self, n: u32, digits: usize)
        requires digits { 0 < digits × digits ≤ 11 }
        requires fits { n < 8 ^ digits }
        requires room { length self.old + digits ≤ N }
        ensures { self.new ≡ self.old ++ octal_digits digits n }
    {
        let mut out = [0; 12];
        let count = write_octal(n, digits, &mut out);
        self.push_all(&out[..count]);
    }
}
