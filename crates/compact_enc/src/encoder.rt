//! An encoder: fields into a buffer of the caller's, each in its one spelling.
ghost use Rattle.std.specs.Prelude.{◌≡◌, ◌≤◌, ◌+◌, ◌++◌, length, take};

use crate::marks::{LEAST_U16, LEAST_U32, LEAST_U64, MARK_U16, MARK_U32, MARK_U64};

/// Fewer bytes are free than the spelling has.
#[derive(Clone, Copy, Debug, PartialEq, Eq)]
pub struct Full;

/// A buffer that is written from its front.
#[derive(Drop)]
pub struct Encoder<'e> {
    into: &'e mut [u8],
    place: usize,
    ghost within: { place ≤ length into.now },
}

impl<'e> Encoder<'e> {
    ghost use Rattle.compact_enc.specs.Spelling.{uint_spelling, buffer_spelling};
    ghost use Rattle.compact_enc.specs.Written.{written, free, Puts, SameBuffer};

    /// Nothing is written yet.
    pub fn new(into: &'e mut [u8]) -> Encoder<'e>
        ensures same { result.into.ghost_name ≡ into.entry.ghost_name }
        ensures into { result.into.now ≡ into.old }
        ensures place { result.place ≡ 0 }
    {
        Encoder { into, place: 0 }
    }

    /// Writes a number. `Full` comes exactly where fewer bytes are free than its spelling has, and then what was
    /// written stays; what stands behind it isn't said.
    pub fn put_uint(&mut self, value: u64) -> Result<(), Full>
        ensures puts { Puts (uint_spelling value) self.old self.new result }
        ensures same { SameBuffer self.old self.new }
    {
        if value < LEAST_U16 {
            return self.put_fixed(&[value as u8]);
        }
        if value < LEAST_U32 {
            let two = (value as u16).to_le_bytes();
            return self.put_fixed(&[MARK_U16, two[0], two[1]]);
        }
        if value < LEAST_U64 {
            let four = (value as u32).to_le_bytes();
            return self.put_fixed(&[MARK_U32, four[0], four[1], four[2], four[3]]);
        }
        let d = value.to_le_bytes();
        self.put_fixed(&[MARK_U64, d[0], d[1], d[2], d[3], d[4], d[5], d[6], d[7]])
    }

    /// Writes bytes as they are. `Full` as in `put_uint`.
    pub fn put_fixed(&mut self, bytes: &[u8]) -> Result<(), Full>
        ensures puts { Puts bytes.now self.old self.new result }
        ensures same { SameBuffer self.old self.new }
    {
        let free = self.into.len() - self.place;
        if free < bytes.len() {
            return Err(Full);
        }
        write_at(self.into, self.place, bytes);
        self.place += bytes.len();
        Ok(())
    }

    /// Writes a buffer: its length and its bytes. `Full` as in `put_uint`.
    pub fn put_buffer(&mut self, bytes: &[u8]) -> Result<(), Full>
        ensures puts { Puts (buffer_spelling bytes.now) self.old self.new result }
        ensures same { SameBuffer self.old self.new }
    {
        let start = self.place;
        self.put_uint(bytes.len() as u64)?;
        if let Err(full) = self.put_fixed(bytes) {
            self.place = start;
            return Err(full);
        }
        Ok(())
    }

    /// Takes back what was written from a place on.
    pub fn back_to(&mut self, place: usize)
        requires written { place ≤ self.old.place }
        ensures place { self.new.place ≡ place }
        ensures same { self.new.into ≡ self.old.into }
    {
        self.place = place;
    }

    /// How many bytes were written so far.
    pub fn place(&self) -> usize
        ensures { result ≡ self.now.place }
    {
        self.place
    }
}

// Writes the bytes from a place on.
fn write_at(into: &mut [u8], place: usize, bytes: &[u8])
    requires { place + length bytes.now ≤ length into.old }
    ensures { take (place + length bytes.now) into.new ≡ take place into.old ++ bytes.now }
{
    into[place..place + bytes.len()].copy_from_slice(bytes);
}
