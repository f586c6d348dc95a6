// Bytes that are read from the front, field by field.
ghost use Rattle.std.specs.Prelude.{◌≡◌, ◌+◌, ◌<◌, ◌^◌, ◌==◌, nat_le, nat_lt, ◌&&◌, length, IfOk};
ghost use Rattle.std.specs.Int.{w8, w16, w32, w64};
ghost use Rattle.byte_layouts.specs.Held.{IsBytes};
ghost use Rattle.byte_layouts.specs.Layout.{Head, Version, reading};
ghost use Rattle.byte_layouts.specs.Readers.{begins, At, Reads, at_of, number, counted, tested, is_version_to};

use crate::fault::FieldFault;
use std::marker::Model;

/// The bytes that are left, and how many stand before them.
#[derive(Drop)]
pub struct Cursor<'a> {
    rest: &'a [u8],
    place: usize,
}

impl<'a> Model for Cursor<'a> {
    ghost use Rattle.std.specs.Prelude.{◌<◌, ◌+◌, ◌^◌, length};
    ghost use Rattle.byte_layouts.specs.Readers.{At};

    ghost Value = { At };

    ghost view = { λ c. record { place = c.place; rest = c.rest.now } };

    ghost invariant = { λ c. c.place + length c.rest.now < 2 ^ 64 };
}

impl<'a> Cursor<'a> {
    /// All of these bytes are left.
    pub fn new(bytes: &'a [u8]) -> Cursor<'a>
        ensures { result ≡ record { place = 0; rest = bytes.now } }
    {
        Cursor {
            rest: bytes,
            place: 0,
        }
    }

    /// These bytes are left, behind so many others.
    pub fn at(bytes: &'a [u8], place: usize) -> Cursor<'a>
        requires { place + length bytes.now < 2 ^ 64 }
        ensures at { result ≡ at_of place bytes.now }
        ensures bytes { IsBytes bytes.now }
    {
        Cursor { rest: bytes, place }
    }

    /// The bytes that are left.
    pub fn rest(&self) -> &'a [u8]
        ensures { result.now ≡ self.now.rest }
    {
        self.rest
    }

    /// How many bytes were read.
    pub fn place(&self) -> usize
        ensures { result ≡ self.now.place }
    {
        self.place
    }

    /// Whether none is left.
    pub fn is_at_end(&self) -> bool
        ensures { result ≡ (length self.now.rest == 0) }
    {
        self.rest.is_empty()
    }

    /// So many bytes.
    #[tactic(auto, unfolding(crate::specs::Readers::counted))]
    pub fn bytes(&mut self, count: usize) -> Result<&'a [u8], FieldFault>
        ensures read { Reads (λ x. x.now) result self.new (counted count self.old) }
        ensures size { IfOk result (λ x. length x.now ≡ count) }
    {
        if self.rest.len() < count {
            return Err(FieldFault::Truncated);
        }
        let (front, rest) = self.rest.split_at(count);
        self.rest = rest;
        self.place += count;
        Ok(front)
    }

    /// A number of 8 bits.
    #[tactic(auto, unfolding(crate::specs::Readers::number))]
    pub fn u8(&mut self) -> Result<u8, FieldFault>
        ensures { Reads (λ x. x) result self.new (number w8 self.old) }
    {
        let bytes = self.bytes(1)?;
        Ok(bytes[0])
    }

    /// A number of 16 bits.
    #[tactic(auto, unfolding(crate::specs::Readers::number))]
    pub fn u16(&mut self) -> Result<u16, FieldFault>
        ensures { Reads (λ x. x) result self.new (number w16 self.old) }
    {
        let bytes = self.bytes(2)?;
        Ok(u16::from_be_bytes([bytes[0], bytes[1]]))
    }

    /// A number of 32 bits.
    #[tactic(auto, unfolding(crate::specs::Readers::number))]
    pub fn u32(&mut self) -> Result<u32, FieldFault>
        ensures { Reads (λ x. x) result self.new (number w32 self.old) }
    {
        let bytes = self.bytes(4)?;
        Ok(u32::from_be_bytes([bytes[0], bytes[1], bytes[2], bytes[3]]))
    }

    /// A number of 64 bits.
    #[tactic(auto, unfolding(crate::specs::Readers::number))]
    pub fn u64(&mut self) -> Result<u64, FieldFault>
        ensures { Reads (λ x. x) result self.new (number w64 self.old) }
    {
        let b = self.bytes(8)?;
        Ok(u64::from_be_bytes([b[0], b[1], b[2], b[3], b[4], b[5], b[6], b[7]]))
    }

    /// A number of 8 bits that is no more than that.
    pub fn u8_to(&mut self, most: u8) -> Result<u8, FieldFault>
        ensures { Reads (λ x. x) result self.new (tested (λ n. nat_le n most) (number w8) self.old) }
    {
        let place = self.place;
        let n = self.u8()?;
        if n > most {
            return Err(FieldFault::BadField(place));
        }
        Ok(n)
    }

    /// A number of 16 bits that is no more than that.
    pub fn u16_to(&mut self, most: u16) -> Result<u16, FieldFault>
        ensures { Reads (λ x. x) result self.new (tested (λ n. nat_le n most) (number w16) self.old) }
    {
        let place = self.place;
        let n = self.u16()?;
        if n > most {
            return Err(FieldFault::BadField(place));
        }
        Ok(n)
    }

    /// A number of 64 bits in a range.
    pub fn u64_in(&mut self, least: u64, most: u64) -> Result<u64, FieldFault>
        ensures { Reads (λ x. x) result self.new (tested (λ n. nat_le least n && nat_le n most) (number w64) self.old) }
    {
        let place = self.place;
        let n = self.u64()?;
        if n < least || n > most {
            return Err(FieldFault::BadField(place));
        }
        Ok(n)
    }

    /// A number of 16 bits that is less than that.
    pub fn u16_below(&mut self, limit: u16) -> Result<u16, FieldFault>
        ensures { Reads (λ x. x) result self.new (tested (λ n. nat_lt n limit) (number w16) self.old) }
    {
        let place = self.place;
        let n = self.u16()?;
        if n >= limit {
            return Err(FieldFault::BadField(place));
        }
        Ok(n)
    }

    /// A number of 64 bits that is no more than that.
    pub fn u64_to(&mut self, most: u64) -> Result<u64, FieldFault>
        ensures { Reads (λ x. x) result self.new (tested (λ n. nat_le n most) (number w64) self.old) }
    {
        let place = self.place;
        let n = self.u64()?;
        if n > most {
            return Err(FieldFault::BadField(place));
        }
        Ok(n)
    }

    /// What each text begins with.
    #[tactic(auto, unfolding(crate::specs::Readers::head_at, crate::specs::Readers::counted))]
    pub fn head(&mut self, head: &[u8]) -> Result<(), FieldFault>
        ensures { Reads (λ u. u) result self.new (reading (Head head.now) self.old) }
    {
        if !begins(head, self.rest) {
            return Err(FieldFault::NotHead);
        }
        let _ = self.bytes(head.len())?;
        Ok(())
    }

    /// The version of the format, from the first one to the newest.
    #[tactic(auto, unfolding(crate::specs::Readers::version_at))]
    pub fn version_to(&mut self, newest: u16) -> Result<u16, FieldFault>
        ensures { Reads (λ n. n) result self.new (reading (Version (is_version_to newest)) self.old) }
    {
        let found = self.u16()?;
        if found < 1 || found > newest {
            return Err(FieldFault::Version(found));
        }
        Ok(found)
    }
}

// Whether bytes begin so, as far as they go.
fn begins(head: &[u8], bytes: &[u8]) -> bool
    ensures { result ≡ begins head.now bytes.now }
{
    let n = bytes.len().min(head.len());
    bytes[..n] == head[..n]
}
