//! Reading one field, with what is wrong with it, and writing numbers.
ghost use Rattle.std.specs.Prelude.{◌++◌, ◌≡◌, ◌≤◌, ◌<◌, IfOk};
ghost use Rattle.compact_enc.specs.Spelling.{uint_spelling};
ghost use Rattle.compact_enc.specs.Written.{Writes};
ghost use Rattle.proof_form.specs.Flags.{are_request_flags, are_proof_flags};
ghost use Rattle.proof_form.specs.Form.{Ahead, part_spelling, part_of, number_of, fixed_in, buffer_in, start_of, span_of};

use crate::flags::{is_proof, is_request};
use crate::form::{Bad, BadForm, bad_form};
use compact_enc::{Decoder, Encoder, Full};
use flat_tree::MAX_CORE_BYTES;

/// The largest fork, length, start, count and index, of blocks and of nodes.
pub const MAX_NUMBER: u64 = 4_294_967_295;

/// The next number, of at most `max`. After an `Err` what is left isn't said.
pub fn number_from(max: u64, from: &mut Decoder<'_>) -> Result<u64, BadForm>
    ensures gives { Ahead (λ n. n) from.new result (number_of max from.old) }
    ensures within { IfOk result (λ n. n ≤ max) }
{
    match from.uint(max) {
        Ok(number) => Ok(number),
        Err(fault) => Err(bad_form(fault)),
    }
}

/// The next 32 bytes as they are. After an `Err` what is left isn't said.
pub fn fixed32_from(from: &mut Decoder<'_>) -> Result<[u8; 32], BadForm>
    ensures { Ahead (λ bytes. bytes) from.new result (fixed_in 32 from.old) }
{
    match from.fixed32() {
        Ok(hash) => Ok(hash),
        Err(fault) => Err(bad_form(fault)),
    }
}

/// The next 64 bytes as they are.
pub(crate) fn fixed64_from(from: &mut Decoder<'_>) -> Result<[u8; 64], BadForm>
    ensures { Ahead (λ bytes. bytes) from.new result (fixed_in 64 from.old) }
{
    match from.fixed64() {
        Ok(signature) => Ok(signature),
        Err(fault) => Err(bad_form(fault)),
    }
}

/// The next buffer, of at most `max` bytes. After an `Err` what is left isn't said.
pub fn buffer_from<'d>(max: u64, from: &mut Decoder<'d>) -> Result<&'d [u8], BadForm>
    ensures { Ahead (λ bytes. bytes.now) from.new result (buffer_in max from.old) }
{
    match from.buffer(max) {
        Ok(bytes) => Ok(bytes),
        Err(fault) => Err(bad_form(fault)),
    }
}

/// A fork, and the flags of a request.
#[tactic(auto, unfolding(crate::specs::Form::start_of))]
pub(crate) fn request_start_from(from: &mut Decoder<'_>) -> Result<(u64, u64), BadForm>
    ensures { Ahead (λ x. x) from.new result (start_of are_request_flags from.old) }
{
    let fork = number_from(MAX_NUMBER, from)?;
    let at = from.place();
    let flags = number_from(u64::MAX, from)?;
    if !is_request(flags) {
        return Err(BadForm {
            at,
            why: Bad::Flags,
        });
    }
    Ok((fork, flags))
}

/// A fork, and the flags of a proof.
#[tactic(auto, unfolding(crate::specs::Form::start_of))]
pub(crate) fn proof_start_from(from: &mut Decoder<'_>) -> Result<(u64, u64), BadForm>
    ensures { Ahead (λ x. x) from.new result (start_of are_proof_flags from.old) }
{
    let fork = number_from(MAX_NUMBER, from)?;
    let at = from.place();
    let flags = number_from(u64::MAX, from)?;
    if !is_proof(flags) {
        return Err(BadForm {
            at,
            why: Bad::Flags,
        });
    }
    Ok((fork, flags))
}

/// Two numbers: a start, and a length above it.
#[tactic(auto, unfolding(crate::specs::Form::span_of))]
pub(crate) fn span_from(from: &mut Decoder<'_>) -> Result<(u64, u64), BadForm>
    ensures gives { Ahead (λ x. x) from.new result (span_of from.old) }
    ensures ordered { IfOk result (λ x. x.0 < x.1) }
    ensures within { IfOk result (λ x. x.1 ≤ MAX_NUMBER) }
{
    let start = number_from(MAX_NUMBER, from)?;
    let at = from.place();
    let length = number_from(MAX_NUMBER, from)?;
    if length <= start {
        return Err(BadForm {
            at,
            why: Bad::Count,
        });
    }
    Ok((start, length))
}

/// A sought byte, where it is there.
pub(crate) fn seek_if(here: bool, from: &mut Decoder<'_>) -> Result<Option<u64>, BadForm>
    ensures { Ahead (λ seek. seek) from.new result
        (part_of here (number_of MAX_CORE_BYTES) from.old) }
{
    if !here {
        return Ok(None);
    }
    let byte = number_from(MAX_CORE_BYTES, from)?;
    Ok(Some(byte))
}

/// Writes two numbers.
pub fn write_numbers(first: u64, second: u64, to: &mut Encoder<'_>) -> Result<(), Full>
    ensures { Writes (uint_spelling first ++ uint_spelling second) to.old to.new result }
{
    to.put_uint(first)?;
    to.put_uint(second)
}

/// Writes a sought byte, where it is there.
pub(crate) fn write_seek(part: Option<u64>, to: &mut Encoder<'_>) -> Result<(), Full>
    ensures { Writes (part_spelling uint_spelling part) to.old to.new result }
{
    let Some(byte) = part else {
        return Ok(());
    };
    to.put_uint(byte)
}
