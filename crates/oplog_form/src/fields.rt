//! Reading one field, and writing numbers.
ghost use Rattle.std.specs.Prelude.{◌++◌, ◌≡◌, ◌≤◌, IfOk};
ghost use Rattle.compact_enc.specs.Spelling.{uint_spelling};
ghost use Rattle.compact_enc.specs.Written.{Writes};
ghost use Rattle.oplog_form.specs.Form.{Ahead, number_of, fixed_in, just_of};
ghost use Rattle.oplog_form.specs.Heads.{head_spelling, head_in};

use crate::form::{BadForm, bad_form};
use compact_enc::{Decoder, Encoder, Full};
use flat_tree::{MAX_BLOCKS, MAX_FORK};
use merkle_nodes::Head;

/// The next number, of at most `max`. After an `Err` what is left isn't said.
pub(crate) fn number_from(max: u64, from: &mut Decoder<'_>) -> Result<u64, BadForm>
    ensures gives { Ahead from.new result (number_of max from.old) }
    ensures within { IfOk result (λ n. n ≤ max) }
{
    match from.uint(max) {
        Ok(number) => Ok(number),
        Err(fault) => Err(bad_form(fault)),
    }
}

/// The next number, which can be no other.
#[tactic(auto, unfolding(crate::specs::Form::just_of))]
pub(crate) fn just_from(want: u64, from: &mut Decoder<'_>) -> Result<u64, BadForm>
    ensures { Ahead from.new result (just_of want from.old) }
{
    let at = from.place();
    let number = number_from(u64::MAX, from)?;
    if number != want {
        return Err(BadForm { at });
    }
    Ok(number)
}

/// The next 32 bytes as they are.
pub(crate) fn fixed32_from(from: &mut Decoder<'_>) -> Result<[u8; 32], BadForm>
    ensures { Ahead from.new result (fixed_in 32 from.old) }
{
    match from.fixed32() {
        Ok(hash) => Ok(hash),
        Err(fault) => Err(bad_form(fault)),
    }
}

/// The next 64 bytes as they are.
fn fixed64_from(from: &mut Decoder<'_>) -> Result<[u8; 64], BadForm>
    ensures { Ahead from.new result (fixed_in 64 from.old) }
{
    match from.fixed64() {
        Ok(signature) => Ok(signature),
        Err(fault) => Err(bad_form(fault)),
    }
}

/// A fork, a length and a signature.
#[tactic(auto, unfolding(crate::specs::Heads::head_in))]
pub(crate) fn head_from(from: &mut Decoder<'_>) -> Result<Head, BadForm>
    ensures gives { Ahead from.new result (head_in from.old) }
    ensures few { IfOk result (λ head. head.length ≤ MAX_BLOCKS) }
{
    let fork = number_from(MAX_FORK, from)?;
    let length = number_from(MAX_BLOCKS, from)?;
    let signature = fixed64_from(from)?;
    Ok(Head {
        fork,
        length,
        signature,
    })
}

/// Writes a fork, a length and a signature.
pub(crate) fn write_head(head: &Head, to: &mut Encoder<'_>) -> Result<(), Full>
    ensures { Writes (head_spelling head.now) to.old to.new result }
{
    write_number(head.fork, to)?;
    write_number(head.length, to)?;
    write_fixed(&head.signature, to)
}

/// Writes a number.
pub(crate) fn write_number(number: u64, to: &mut Encoder<'_>) -> Result<(), Full>
    ensures { Writes (uint_spelling number) to.old to.new result }
{
    to.put_uint(number)
}

/// Writes bytes as they are.
pub(crate) fn write_fixed(bytes: &[u8], to: &mut Encoder<'_>) -> Result<(), Full>
    ensures { Writes bytes.now to.old to.new result }
{
    to.put_fixed(bytes)
}

/// Writes two numbers.
pub(crate) fn write_pair(first: u64, second: u64, to: &mut Encoder<'_>) -> Result<(), Full>
    ensures { Writes (uint_spelling first ++ uint_spelling second) to.old to.new result }
{
    write_number(first, to)?;
    write_number(second, to)
}
