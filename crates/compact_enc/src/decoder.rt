//! A decoder: fields from the front of an input, each in its one spelling.
ghost use Rattle.std.specs.Prelude.{◌≡◌, ◌≤◌, ◌<◌, ◌^◌, ◌+◌, ℕ, List, ◌++◌, length, IfOk};
ghost use Rattle.compact_enc.specs.Spelling.{uint_spelling, buffer_spelling};
ghost use Rattle.compact_enc.specs.Reading.{Gives, IsBytes, bytes_at, uint_at, buffer_at};
ghost use Rattle.compact_enc.specs.Input.{Input, Reads, Yields, uint_of, fixed_of, buffer_of};

use crate::fields::{EncFault, buffer_from, bytes_from, uint_from};
use std::marker::Model;

/// An input that is read field by field. A fault leaves it as it was, and has the place of the field's first byte.
#[derive(Drop)]
pub struct Decoder<'d> {
    rest: &'d [u8],
    place: usize,
}

impl<'d> Model for Decoder<'d> {
    ghost Value = { Input };

    ghost view = { λ d. record { place = d.place; rest = d.rest.now } };

    ghost invariant = { λ d. d.place + length d.rest.now < 2 ^ 64 };
}

impl<'d> Decoder<'d> {
    /// Nothing of these bytes is read yet.
    pub fn new(bytes: &'d [u8]) -> Decoder<'d>
        ensures place { result.place ≡ 0 }
        ensures rest { result.rest ≡ bytes.now }
    {
        Decoder {
            rest: bytes,
            place: 0,
        }
    }

    /// Another decoder of what is left, to read ahead with.
    pub fn copy(&self) -> Decoder<'d>
        ensures same { result ≡ self.now }
        ensures bytes { IsBytes result.rest }
    {
        Decoder {
            rest: as_bytes(self.rest),
            place: self.place,
        }
    }

    /// The next number, of at most `max`.
    pub fn uint(&mut self, max: u64) -> Result<u64, EncFault>
        // What is read is spelled so.
        ensures found { IfOk result (λ n. self.old.rest ≡ uint_spelling n ++ self.new.rest) }
        ensures within { IfOk result (λ n. n ≤ max) }
        // What is spelled so is read.
        ensures only { (n : ℕ) → (more : List ℕ) → n ≤ max → self.old.rest ≡ uint_spelling n ++ more
            → Yields (λ read. read) result n × (self.new.rest ≡ more) }
        // Which fault it is, and what is left.
        ensures exact { Reads (λ n. n) self.old self.new result (uint_of max self.old) }
    {
        let (number, rest) = uint_behind(max, self.place, self.rest)?;
        self.place += self.rest.len() - rest.len();
        self.rest = rest;
        Ok(number)
    }

    /// The next 32 bytes as they are.
    pub fn fixed32(&mut self) -> Result<[u8; 32], EncFault>
        ensures found { IfOk result (λ bytes. self.old.rest ≡ bytes ++ self.new.rest) }
        ensures only { (bytes more : List ℕ) → length bytes ≡ 32 → self.old.rest ≡ bytes ++ more
            → Yields (λ read. read) result bytes × (self.new.rest ≡ more) }
        ensures exact { Reads (λ bytes. bytes) self.old self.new result (fixed_of 32 self.old) }
    {
        let front = self.fixed(32)?;
        let mut bytes = [0; 32];
        bytes.copy_from_slice(front);
        Ok(bytes)
    }

    /// The next 64 bytes as they are.
    pub fn fixed64(&mut self) -> Result<[u8; 64], EncFault>
        ensures found { IfOk result (λ bytes. self.old.rest ≡ bytes ++ self.new.rest) }
        ensures only { (bytes more : List ℕ) → length bytes ≡ 64 → self.old.rest ≡ bytes ++ more
            → Yields (λ read. read) result bytes × (self.new.rest ≡ more) }
        ensures exact { Reads (λ bytes. bytes) self.old self.new result (fixed_of 64 self.old) }
    {
        let front = self.fixed(64)?;
        let mut bytes = [0; 64];
        bytes.copy_from_slice(front);
        Ok(bytes)
    }

    /// The next buffer, of at most `max` bytes.
    pub fn buffer(&mut self, max: u64) -> Result<&'d [u8], EncFault>
        ensures found { IfOk result (λ bytes.
            self.old.rest ≡ buffer_spelling bytes.now ++ self.new.rest) }
        ensures only { (bytes more : List ℕ) → length bytes ≤ max
            → self.old.rest ≡ buffer_spelling bytes ++ more
            → Yields (λ read. read.now) result bytes × (self.new.rest ≡ more) }
        ensures exact { Reads (λ bytes. bytes.now) self.old self.new result
            (buffer_of max self.old) }
    {
        let (buffer, rest) = buffer_behind(max, self.place, self.rest)?;
        self.place += self.rest.len() - rest.len();
        self.rest = rest;
        Ok(buffer)
    }

    /// How many bytes were read so far.
    pub fn place(&self) -> usize
        ensures { result ≡ self.now.place }
    {
        self.place
    }

    /// How many bytes are still to be read.
    pub fn rest(&self) -> usize
        ensures { result ≡ length self.now.rest }
    {
        self.rest.len()
    }

    // So many bytes as they are.
    fn fixed(&mut self, count: usize) -> Result<&'d [u8], EncFault>
        ensures found { IfOk result (λ bytes. self.old.rest ≡ bytes.now ++ self.new.rest) }
        ensures count { IfOk result (λ bytes. length bytes.now ≡ count) }
        ensures only { (bytes more : List ℕ) → length bytes ≡ count → self.old.rest ≡ bytes ++ more
            → Yields (λ read. read.now) result bytes × (self.new.rest ≡ more) }
        ensures exact { Reads (λ bytes. bytes.now) self.old self.new result
            (fixed_of count self.old) }
    {
        let (front, rest) = bytes_behind(count, self.place, self.rest)?;
        self.place += self.rest.len() - rest.len();
        self.rest = rest;
        Ok(front)
    }
}

// The same again, of which it is known that each is a byte.
fn as_bytes(bytes: &[u8]) -> &[u8]
    ensures same { result.now ≡ bytes.now }
    ensures bytes { IsBytes result.now }
{
    bytes
}

// A number, which is spelled in front of what is left.
fn uint_behind(max: u64, at: usize, bytes: &[u8]) -> Result<(u64, &[u8]), EncFault>
    ensures found { IfOk result (λ x. bytes.now ≡ uint_spelling x.0 ++ x.1.now) }
    ensures max { IfOk result (λ x. x.0 ≤ max) }
    ensures within { IfOk result (λ x. length x.1.now ≤ length bytes.now) }
    ensures only { (n : ℕ) → (more : List ℕ) → n ≤ max → bytes.now ≡ uint_spelling n ++ more
        → Yields {Y = ℕ × List ℕ} (λ x. (x.0, x.1.now)) result (n, more) }
    ensures gives { Gives (λ x. (x.0, x.1.now)) result (uint_at max at bytes.now) }
{
    uint_from(max, at, bytes)
}

// So many bytes in front of what is left.
fn bytes_behind(count: usize, at: usize, bytes: &[u8]) -> Result<(&[u8], &[u8]), EncFault>
    ensures found { IfOk result (λ x. bytes.now ≡ x.0.now ++ x.1.now) }
    ensures count { IfOk result (λ x. length x.0.now ≡ count) }
    ensures within { IfOk result (λ x. length x.1.now ≤ length bytes.now) }
    ensures only { (front more : List ℕ) → length front ≡ count → bytes.now ≡ front ++ more
        → Yields {Y = List ℕ × List ℕ} (λ x. (x.0.now, x.1.now)) result (front, more) }
    ensures gives { Gives (λ x. (x.0.now, x.1.now)) result (bytes_at count at bytes.now) }
{
    bytes_from(count, at, bytes)
}

// A buffer, which is spelled in front of what is left.
fn buffer_behind(max: u64, at: usize, bytes: &[u8]) -> Result<(&[u8], &[u8]), EncFault>
    ensures found { IfOk result (λ x. bytes.now ≡ buffer_spelling x.0.now ++ x.1.now) }
    ensures within { IfOk result (λ x. length x.1.now ≤ length bytes.now) }
    ensures only { (front more : List ℕ) → length front ≤ max
        → bytes.now ≡ buffer_spelling front ++ more
        → Yields {Y = List ℕ × List ℕ} (λ x. (x.0.now, x.1.now)) result (front, more) }
    ensures gives { Gives (λ x. (x.0.now, x.1.now)) result (buffer_at max at bytes.now) }
{
    buffer_from(max, at, bytes)
}
