//! Messages into frames.
ghost use Rattle.std.specs.Prelude.{◌≡◌, ◌≤◌, ◌<◌, ◌+◌, ◌↔◌, ◌++◌, ◌∷◌, List, [], ℕ, length, take, IsErr, OnOk, OnErr};
ghost use Rattle.std.specs.List.{flat_map};
ghost use Rattle.compact_enc.specs.Spelling.{uint_spelling, buffer_spelling};
ghost use Rattle.compact_enc.specs.Written.{Puts, SameBuffer, Writes};
ghost use Rattle.proof_form.specs.Requests.{RequestFits, request_spelling};
ghost use Rattle.proof_form.specs.Proofs.{ProofFits, proof_spelling, view as proof_view};
ghost use Rattle.wire_frames.specs.Frames.{frame_spelling};
ghost use Rattle.wire_messages.specs.Messages.{MessageFits, FindsRoom, view, drop_number, message_spelling, type_of, fields_spelling};

use crate::message::{
    ANSWER, ASK, BITFIELD, CANCEL, EXTENSION, Message, NO_DATA, OPEN_CORE, RANGE, SYNC, UNWANT,
    WANT,
};
use compact_enc::{Encoder, Full as NoRoom};
use proof_form::{Proof, Request, put_proof, put_request, write_numbers};
use wire_frames::{Full, OUTBOX_BYTES, Outbox};

/// Adds the frame of a message behind the others, whose body is written into `scratch`. `Full` comes exactly where
/// fewer bytes are free than the frame has, and changes nothing in the outbox.
pub fn put(message: &Message<'_>, scratch: &mut [u8], out: &mut Outbox) -> Result<(), Full>
    requires fits { MessageFits (view message.now) }
    requires frame { FindsRoom (view message.now) }
    requires scratch { length (message_spelling (view message.now)) ≤ length scratch.old }
    ensures ok { OnOk result (out.new
        ≡ out.old ++ frame_spelling (message_spelling (view message.now))) }
    ensures frames { OnOk result ((bodies : List (List ℕ))
        → out.old ≡ flat_map frame_spelling bodies
        → out.new ≡ flat_map frame_spelling (bodies ++ message_spelling (view message.now) ∷ [])) }

    ensures full { IsErr result ↔ (OUTBOX_BYTES
        < length out.old + length (frame_spelling (message_spelling (view message.now)))) }
    ensures err { OnErr result (out.new ≡ out.old) }
{
    let end = spell(message, scratch);
    out.put(&scratch[..end])
}

/// Writes the body of a message to the front of the scratch, and gives where it ends.
fn spell(message: &Message<'_>, scratch: &mut [u8]) -> usize
    requires fits { MessageFits (view message.now) }
    requires room { length (message_spelling (view message.now)) ≤ length scratch.old }
    ensures end { result ≡ length (message_spelling (view message.now)) }
    ensures same { length scratch.new ≡ length scratch.old }
    ensures body { take result scratch.new ≡ message_spelling (view message.now) }
{
    let mut to = Encoder::new(scratch);
    let _ = write_message(message, &mut to);
    to.place()
}

/// The type, in one byte, and the fields.
fn write_message(message: &Message<'_>, to: &mut Encoder<'_>) -> Result<(), NoRoom>
    requires fits { MessageFits (view message.now) }
    ensures { Writes (message_spelling (view message.now)) to.old to.new result }
{
    to.put_fixed(&[type_byte(message)])?;
    write_fields(message, to)
}

fn type_byte(message: &Message<'_>) -> u8
    ensures { result ≡ type_of (view message.now) }
{
    match message {
        Message::OpenCore { .. } => OPEN_CORE,
        Message::Sync { .. } => SYNC,
        Message::Ask { .. } => ASK,
        Message::Cancel { .. } => CANCEL,
        Message::Answer { .. } => ANSWER,
        Message::NoData { .. } => NO_DATA,
        Message::Want { .. } => WANT,
        Message::Unwant { .. } => UNWANT,
        Message::Bitfield { .. } => BITFIELD,
        Message::Range { .. } => RANGE,
        Message::Extension { .. } => EXTENSION,
    }
}

fn write_fields(message: &Message<'_>, to: &mut Encoder<'_>) -> Result<(), NoRoom>
    requires fits { MessageFits (view message.now) }
    ensures { Writes (fields_spelling (view message.now)) to.old to.new result }
{
    match message {
        Message::OpenCore { version, id } => write_fixed(*version, id, to),
        Message::Sync { fork, length } => write_numbers(*fork, *length, to),
        Message::Ask { id, request } => write_ask(*id, request, to),
        Message::Cancel { id } => write_number(*id, to),
        Message::Answer { id, proof } => write_answer(*id, proof, to),
        Message::NoData { id } => write_number(*id, to),
        Message::Want { start, count } => write_numbers(*start, *count, to),
        Message::Unwant { start, count } => write_numbers(*start, *count, to),
        Message::Bitfield { start, bits } => write_buffer(*start, bits, to),
        Message::Range { drop, start, count } => write_range(*drop, *start, *count, to),
        Message::Extension { number, bytes } => write_buffer(*number, bytes, to),
    }
}

fn write_number(number: u64, to: &mut Encoder<'_>) -> Result<(), NoRoom>
    ensures { Writes (uint_spelling number) to.old to.new result }
{
    to.put_uint(number)
}

/// A number, and bytes as they are.
fn write_fixed(number: u64, bytes: &[u8], to: &mut Encoder<'_>) -> Result<(), NoRoom>
    ensures { Writes (uint_spelling number ++ bytes.now) to.old to.new result }
{
    write_number(number, to)?;
    to.put_fixed(bytes)
}

/// A number, and bytes behind their number.
fn write_buffer(number: u64, bytes: &[u8], to: &mut Encoder<'_>) -> Result<(), NoRoom>
    ensures { Writes (uint_spelling number ++ buffer_spelling bytes.now) to.old to.new result }
{
    write_number(number, to)?;
    to.put_buffer(bytes)
}

fn write_ask(id: u64, request: &Request, to: &mut Encoder<'_>) -> Result<(), NoRoom>
    requires { RequestFits request.now }
    ensures { Writes (uint_spelling id ++ request_spelling request.now) to.old to.new result }
{
    write_number(id, to)?;
    put_request(request, to)
}

fn write_answer(id: u64, proof: &Proof<'_>, to: &mut Encoder<'_>) -> Result<(), NoRoom>
    requires { ProofFits (proof_view proof.now) }
    ensures { Writes (uint_spelling id ++ proof_spelling (proof_view proof.now))
        to.old to.new result }
{
    write_number(id, to)?;
    put_proof(proof, to)
}

fn write_range(drop: bool, start: u64, count: u64, to: &mut Encoder<'_>) -> Result<(), NoRoom>
    ensures { Writes (uint_spelling (drop_number drop)
        ++ (uint_spelling start ++ uint_spelling count)) to.old to.new result }
{
    write_drop(drop, to)?;
    write_numbers(start, count, to)
}

fn write_drop(drop: bool, to: &mut Encoder<'_>) -> Result<(), NoRoom>
    ensures { Writes (uint_spelling (drop_number drop)) to.old to.new result }
{
    if drop {
        return write_number(1, to);
    }
    write_number(0, to)
}
