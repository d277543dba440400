//! Reading one field from the front of some bytes.
ghost use Rattle.std.specs.Prelude.{◌≡◌, length, IfOk};
ghost use Rattle.std.specs.Int.{w16, w32, w64};
ghost use Rattle.compact_enc.specs.Reading.{Gives, bytes_at, checked, wide_at, uint_at, buffer_at};

use crate::marks::{LEAST_U16, LEAST_U32, LEAST_U64, MARK_U16, MARK_U32};

/// A field that can't be read. `at` is the place of its first byte.
#[derive(Clone, Copy, Debug, PartialEq, Eq)]
pub enum EncFault {
    /// Fewer bytes are left than the field has.
    Short { at: usize },
    /// A shorter spelling has the number.
    NotShortest { at: usize },
    /// The number, or the length of the buffer, is above the most that was asked for.
    TooLarge { at: usize },
}

/// So many bytes as they are.
#[tactic(auto, unfolding(crate::specs::Reading::bytes_at))]
pub(crate) fn bytes_from(count: usize, at: usize, bytes: &[u8]) -> Result<(&[u8], &[u8]), EncFault>
    ensures gives { Gives (λ x. (x.0.now, x.1.now)) result (bytes_at count at bytes.now) }
    ensures count { IfOk result (λ x. length x.0.now ≡ count) }
{
    if count <= bytes.len() {
        Ok(bytes.split_at(count))
    } else {
        Err(EncFault::Short { at })
    }
}

/// A number, if it is the least of its width or more, and at most the largest.
fn check(least: u64, max: u64, at: usize, number: u64) -> Result<u64, EncFault>
    ensures { Gives (λ n. n) result (checked least max at number) }
{
    if number < least {
        Err(EncFault::NotShortest { at })
    } else if max < number {
        Err(EncFault::TooLarge { at })
    } else {
        Ok(number)
    }
}

#[tactic(auto, unfolding(crate::specs::Reading::wide_at))]
fn u16_from(max: u64, at: usize, bytes: &[u8]) -> Result<(u64, &[u8]), EncFault>
    ensures { Gives (λ x. (x.0, x.1.now)) result (wide_at w16 LEAST_U16 max at bytes.now) }
{
    let (digits, rest) = bytes_from(2, at, bytes)?;
    let number = u16::from_le_bytes([digits[0], digits[1]]);
    Ok((check(LEAST_U16, max, at, number as u64)?, rest))
}

#[tactic(auto, unfolding(crate::specs::Reading::wide_at))]
fn u32_from(max: u64, at: usize, bytes: &[u8]) -> Result<(u64, &[u8]), EncFault>
    ensures { Gives (λ x. (x.0, x.1.now)) result (wide_at w32 LEAST_U32 max at bytes.now) }
{
    let (digits, rest) = bytes_from(4, at, bytes)?;
    let number = u32::from_le_bytes([digits[0], digits[1], digits[2], digits[3]]);
    Ok((check(LEAST_U32, max, at, number as u64)?, rest))
}

#[tactic(auto, unfolding(crate::specs::Reading::wide_at))]
fn u64_from(max: u64, at: usize, bytes: &[u8]) -> Result<(u64, &[u8]), EncFault>
    ensures { Gives (λ x. (x.0, x.1.now)) result (wide_at w64 LEAST_U64 max at bytes.now) }
{
    let (digits, rest) = bytes_from(8, at, bytes)?;
    let number = u64::from_le_bytes([
        digits[0], digits[1], digits[2], digits[3], digits[4], digits[5], digits[6], digits[7],
    ]);
    Ok((check(LEAST_U64, max, at, number)?, rest))
}

/// A number of at most `max`.
#[tactic(auto, unfolding(crate::specs::Reading::uint_at))]
pub(crate) fn uint_from(max: u64, at: usize, bytes: &[u8]) -> Result<(u64, &[u8]), EncFault>
    ensures { Gives (λ x. (x.0, x.1.now)) result (uint_at max at bytes.now) }
{
    let [mark, rest @ ..] = bytes else {
        return Err(EncFault::Short { at });
    };
    if *mark < MARK_U16 {
        return Ok((check(0, max, at, *mark as u64)?, rest));
    }
    if *mark == MARK_U16 {
        return u16_from(max, at, rest);
    }
    if *mark == MARK_U32 {
        return u32_from(max, at, rest);
    }
    u64_from(max, at, rest)
}

/// A buffer of at most `max` bytes.
#[tactic(auto, unfolding(crate::specs::Reading::buffer_at))]
pub(crate) fn buffer_from(max: u64, at: usize, bytes: &[u8]) -> Result<(&[u8], &[u8]), EncFault>
    ensures { Gives (λ x. (x.0.now, x.1.now)) result (buffer_at max at bytes.now) }
{
    let (count, rest) = uint_from(u64::MAX, at, bytes)?;
    let (buffer, rest) = bytes_from(count as usize, at, rest)?;
    if max < count {
        return Err(EncFault::TooLarge { at });
    }
    Ok((buffer, rest))
}
