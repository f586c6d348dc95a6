// The bytes of a text that came and are not read yet.
ghost use Rattle.std.specs.Prelude.{◌≡◌, ◌++◌, ◌+◌, ◌<◌, ◌^◌, List, [], ℕ, IsTrue, IfOk, OnOk, length};
ghost use Rattle.sha2.specs.Hashers.{Holds256};
ghost use Rattle.sha2.specs.Sha256.{sha256};
ghost use Rattle.byte_layouts.specs.Held.{Held, IsBytes, IsPassed, IsThere, at_in};

use crate::cursor::Cursor;
use sha2::{Digest, Sha256};
use std::alloc::{AllocError, Global};
use std::marker::Model;

/// How many bytes there is room for from the first: a piece of 4096 bytes, and what may wait before it of a record of
/// 795 bytes. Where more bytes wait, more room is taken.
const ROOM: usize = 4096 + 794;

/// The bytes that came, of which the first ones were read, the place behind those in all bytes, and what hashed them.
#[derive(Drop)]
pub struct Pending {
    bytes: Vec<u8>,
    start: usize,
    place: usize,
    hasher: Sha256,
}

impl Model for Pending {
    ghost use Rattle.std.specs.Prelude.{◌<◌, ◌≤◌, ◌+◌, ◌^◌, length, drop};
    ghost use Rattle.byte_layouts.specs.Held.{Held};

    ghost Value = { Held };

    ghost view = { λ p. record { hasher = p.hasher; place = p.place; rest = drop p.start p.bytes.items } };

    ghost invariant = { λ p. (p.start ≤ length p.bytes.items)
        × (p.place + length p.bytes.items < 2 ^ 64 + p.start) };
}

impl Pending {
    /// No byte has come.
    pub fn new(alloc: Global) -> Result<Pending, AllocError>
        ensures hasher { IfOk result (λ p. Holds256 p.hasher []) }
        ensures place { IfOk result (λ p. p.place ≡ 0) }
        ensures rest { IfOk result (λ p. p.rest ≡ []) }
    {
        let bytes = Vec::with_capacity(alloc, ROOM)?;
        Ok(Pending {
            bytes,
            start: 0,
            place: 0,
            hasher: Sha256::new(),
        })
    }

    /// How many bytes came and are not read yet.
    pub fn len(&self) -> usize
        ensures { result ≡ length self.now.rest }
    {
        self.bytes.len() - self.start
    }

    /// How many bytes were read.
    pub fn place(&self) -> usize
        ensures { result ≡ self.now.place }
    {
        self.place
    }

    // Lets go what was read.
    fn let_go(&mut self)
        ensures same { self.new ≡ self.old }
    {
        let left = self.len();
        self.bytes.rotate_left(self.start);
        self.bytes.truncate(left);
        self.start = 0;
    }

    // Whether so many more bytes can be counted.
    fn can_count(&self, more: usize) -> bool
        ensures { IsTrue result → self.now.place + length self.now.rest + more < 2 ^ 64 }
    {
        match self.place.checked_add(more) {
            Some(place) => self.len() <= usize::MAX - place,
            None => false,
        }
    }

    /// Takes a piece in, and lets go what was read.
    pub fn take_in(&mut self, piece: &[u8]) -> Result<(), AllocError>
        ensures hasher { self.new.hasher ≡ self.old.hasher }
        ensures place { self.new.place ≡ self.old.place }
        ensures rest { OnOk result (self.new.rest ≡ self.old.rest ++ piece.now) }
    {
        self.let_go();
        if !self.can_count(piece.len()) {
            return Err(AllocError);
        }
        self.bytes.extend_from_slice(piece)
    }

    /// What is not read yet.
    pub fn cursor(&self) -> Cursor<'_>
        ensures at { result ≡ at_in self.now }
        ensures bytes { IsBytes self.now.rest }
    {
        Cursor::at(&self.bytes[self.start..], self.place)
    }

    /// All before that place is read.
    pub fn pass_to(&mut self, place: usize)
        requires { IsThere self.old place }
        ensures { IsPassed self.old self.new place }
    {
        let count = place - self.place;
        self.hasher
            .update(&self.bytes[self.start..self.start + count]);
        self.start += count;
        self.place = place;
    }

    /// The SHA-256 of all that was read.
    pub fn digest(self) -> [u8; 32]
        ensures { (m : List ℕ) → Holds256 self.hasher m → result ≡ sha256 m }
    {
        self.hasher.finalize()
    }
}
