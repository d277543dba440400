//! Messages out of frames.
ghost use Rattle.std.specs.Prelude.{◌≡◌, ◌<◌, ◌≤◌, ◌^◌, ◌-◌, ◌∷◌, ℕ, IfOk, Bool};
ghost use Rattle.compact_enc.specs.Reading.{Gives};
ghost use Rattle.compact_enc.specs.Input.{Yields};
ghost use Rattle.proof_form.specs.Form.{Ahead, number_of, fixed_in, buffer_in};
ghost use Rattle.proof_form.specs.Requests.{request_of};
ghost use Rattle.proof_form.specs.Proofs.{proof_of};
ghost use Rattle.wire_messages.specs.Messages.{Message as MessageSpelled, MessageFits, view, message_spelling, open_core, sync, ask, cancel, answer, no_data, want, unwant, bitfield, range, extension};
ghost use Rattle.wire_messages.specs.Reading.{both_of, small_of, page_of, drop_of, made, kind_of, fields_of, message_of};

use crate::message::{
    ANSWER, ASK, BITFIELD, CANCEL, EXTENSION, Message, NO_DATA, OPEN_CORE, PAGE_BLOCKS, PAGE_BYTES,
    RANGE, SYNC, UNWANT, WANT,
};
use compact_enc::Decoder;
use proof_form::{
    Bad, BadForm, MAX_NUMBER, buffer_from, fixed32_from, number_from, read_proof, read_request,
};

/// The first place of a body that isn't in its form, and why.
pub type BadMessage = BadForm;

/// Reads the body of a frame as a message, which is all of it.
pub fn decode(body: &[u8]) -> Result<Message<'_>, BadMessage>
    // What is read has a spelling, and is spelled so.
    ensures fits { IfOk result (λ message. MessageFits (view message)) }
    ensures found { IfOk result (λ message. body.now ≡ message_spelling (view message)) }
    // What is spelled so is read.
    ensures only { (message : MessageSpelled) → MessageFits message
        → body.now ≡ message_spelling message → Yields view result message }
    // Which place is bad and why.
    ensures exact { Gives view result (message_of body.now) }
{
    message_from(body)
}

#[tactic(auto, unfolding(crate::specs::Reading::message_of))]
fn message_from(body: &[u8]) -> Result<Message<'_>, BadForm>
    ensures { Gives view result (message_of body.now) }
{
    let (kind, mut from) = kind_from(body)?;
    let message = fields_from(kind, &mut from)?;
    if from.rest() > 0 {
        return Err(BadForm {
            at: from.place(),
            why: Bad::Trailing,
        });
    }
    Ok(message)
}

/// The type, and what is behind it.
#[tactic(auto, unfolding(crate::specs::Reading::kind_of))]
fn kind_from(body: &[u8]) -> Result<(u8, Decoder<'_>), BadForm>
    ensures { Gives (λ x. (x.0, x.1)) result (kind_of body.now) }
{
    let [kind, ..] = body else {
        return Err(BadForm {
            at: 0,
            why: Bad::Short,
        });
    };
    if *kind > EXTENSION {
        return Err(BadForm {
            at: 0,
            why: Bad::Unknown,
        });
    }
    let mut from = Decoder::new(body);
    // A type is below every mark, so it is a number's spelling.
    number_from(EXTENSION as u64, &mut from)?;
    Ok((*kind, from))
}

/// The fields of each type.
#[tactic(auto, unfolding(crate::specs::Reading::fields_of))]
fn fields_from<'f>(kind: u8, from: &mut Decoder<'f>) -> Result<Message<'f>, BadForm>
    ensures { Ahead view from.new result (fields_of kind from.old) }
{
    match kind {
        OPEN_CORE => open_core_from(from),
        SYNC => sync_from(from),
        ASK => ask_from(from),
        CANCEL => cancel_from(from),
        ANSWER => answer_from(from),
        NO_DATA => no_data_from(from),
        WANT => want_from(from),
        UNWANT => unwant_from(from),
        BITFIELD => bitfield_from(from),
        RANGE => range_from(from),
        _ => extension_from(from),
    }
}

#[tactic(auto, unfolding(crate::specs::Reading::both_of))]
fn open_core_from<'f>(from: &mut Decoder<'f>) -> Result<Message<'f>, BadForm>
    ensures { Ahead view from.new result (made (λ x. open_core x.0 x.1)
        (both_of (number_of (2 ^ 64 - 1)) (fixed_in 32) from.old)) }
{
    let version = number_from(u64::MAX, from)?;
    let id = fixed32_from(from)?;
    Ok(Message::OpenCore { version, id })
}

fn sync_from<'f>(from: &mut Decoder<'f>) -> Result<Message<'f>, BadForm>
    ensures { Ahead view from.new result (made (λ x. sync x.0 x.1)
        (both_of small_of small_of from.old)) }
{
    let (fork, length) = pair_from(from)?;
    Ok(Message::Sync { fork, length })
}

#[tactic(auto, unfolding(crate::specs::Reading::both_of))]
fn ask_from<'f>(from: &mut Decoder<'f>) -> Result<Message<'f>, BadForm>
    ensures { Ahead view from.new result (made (λ x. ask x.0 x.1)
        (both_of small_of request_of from.old)) }
{
    let id = number_from(MAX_NUMBER, from)?;
    let request = read_request(from)?;
    Ok(Message::Ask { id, request })
}

fn cancel_from<'f>(from: &mut Decoder<'f>) -> Result<Message<'f>, BadForm>
    ensures { Ahead view from.new result (made cancel (small_of from.old)) }
{
    let id = number_from(MAX_NUMBER, from)?;
    Ok(Message::Cancel { id })
}

#[tactic(auto, unfolding(crate::specs::Reading::both_of))]
fn answer_from<'f>(from: &mut Decoder<'f>) -> Result<Message<'f>, BadForm>
    ensures { Ahead view from.new result (made (λ x. answer x.0 x.1)
        (both_of small_of proof_of from.old)) }
{
    let id = number_from(MAX_NUMBER, from)?;
    let proof = read_proof(from)?;
    Ok(Message::Answer { id, proof })
}

fn no_data_from<'f>(from: &mut Decoder<'f>) -> Result<Message<'f>, BadForm>
    ensures { Ahead view from.new result (made no_data (small_of from.old)) }
{
    let id = number_from(MAX_NUMBER, from)?;
    Ok(Message::NoData { id })
}

fn want_from<'f>(from: &mut Decoder<'f>) -> Result<Message<'f>, BadForm>
    ensures { Ahead view from.new result (made (λ x. want x.0 x.1)
        (both_of small_of small_of from.old)) }
{
    let (start, count) = pair_from(from)?;
    Ok(Message::Want { start, count })
}

fn unwant_from<'f>(from: &mut Decoder<'f>) -> Result<Message<'f>, BadForm>
    ensures { Ahead view from.new result (made (λ x. unwant x.0 x.1)
        (both_of small_of small_of from.old)) }
{
    let (start, count) = pair_from(from)?;
    Ok(Message::Unwant { start, count })
}

#[tactic(auto, unfolding(crate::specs::Reading::both_of))]
fn bitfield_from<'f>(from: &mut Decoder<'f>) -> Result<Message<'f>, BadForm>
    ensures { Ahead view from.new result (made (λ x. bitfield x.0 x.1)
        (both_of page_of (buffer_in PAGE_BYTES) from.old)) }
{
    let start = page_from(from)?;
    let bits = buffer_from(PAGE_BYTES, from)?;
    Ok(Message::Bitfield { start, bits })
}

#[tactic(auto, unfolding(crate::specs::Reading::both_of))]
fn range_from<'f>(from: &mut Decoder<'f>) -> Result<Message<'f>, BadForm>
    ensures { Ahead view from.new result (made (λ x. range x.0 x.1.0 x.1.1)
        (both_of drop_of (both_of small_of small_of) from.old)) }
{
    let drop = drop_from(from)?;
    let (start, count) = pair_from(from)?;
    Ok(Message::Range { drop, start, count })
}

#[tactic(auto, unfolding(crate::specs::Reading::both_of))]
fn extension_from<'f>(from: &mut Decoder<'f>) -> Result<Message<'f>, BadForm>
    ensures { Ahead view from.new result (made (λ x. extension x.0 x.1)
        (both_of small_of (buffer_in (2 ^ 64 - 1)) from.old)) }
{
    let number = number_from(MAX_NUMBER, from)?;
    let bytes = buffer_from(u64::MAX, from)?;
    Ok(Message::Extension { number, bytes })
}

/// Two numbers.
#[tactic(auto, unfolding(crate::specs::Reading::both_of))]
fn pair_from(from: &mut Decoder<'_>) -> Result<(u64, u64), BadForm>
    ensures { Ahead (λ x. x) from.new result (both_of small_of small_of from.old) }
{
    let first = number_from(MAX_NUMBER, from)?;
    let second = number_from(MAX_NUMBER, from)?;
    Ok((first, second))
}

/// A page's first block.
#[tactic(auto, unfolding(crate::specs::Reading::page_of))]
fn page_from(from: &mut Decoder<'_>) -> Result<u64, BadForm>
    ensures { Ahead (λ start. start) from.new result (page_of from.old) }
{
    let at = from.place();
    let start = number_from(MAX_NUMBER, from)?;
    if start % PAGE_BLOCKS != 0 {
        return Err(BadForm { at, why: Bad::Page });
    }
    Ok(start)
}

/// Whether blocks are held no longer.
#[tactic(auto, unfolding(crate::specs::Reading::drop_of))]
fn drop_from(from: &mut Decoder<'_>) -> Result<bool, BadForm>
    ensures { Ahead (λ drop. drop) from.new result (drop_of from.old) }
{
    let drop = number_from(1, from)?;
    Ok(drop == 1)
}
