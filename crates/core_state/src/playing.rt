//! Lists of steps.
ghost use Rattle.std.specs.Prelude.{◌≡◌, ◌≤◌, ◌≢◌, [], IfOk, IfErr, length, map, option_map, take};
ghost use Rattle.flat_tree.specs.declared.limits.TheConstants.{MAX_BLOCK_BYTES};
ghost use Rattle.node_set.specs.declared.fault.CoreFault.TheVariants.{Memory as MemoryFault};
ghost use Rattle.core_state.specs.Events.Reply.{Done, Read};
ghost use Rattle.core_state.specs.Next.{answer_in};
ghost use Rattle.core_state.specs.Events.{Admit};
ghost use Rattle.wire_messages.specs.Reading.{message_of};
ghost use Rattle.proof_form.specs.Proofs.{ProofFits, view as proof_view};
ghost use Rattle.core_state.specs.Plays.{event_of_step, plain_of, offer_of, status_of, kept_with, KeepsReply, PlaysStep, AddsKept, AddsReplies};

use crate::log_core::Core;
use core_snap::ReadAt;
use flat_tree::MAX_BLOCK_BYTES;
use node_set::{CoreFault, Receipt};
use outside_traits::{Blob, Blobs, Memory};
use proof_check::prepare;
use proof_form::Proof;
use std::alloc::Global;
use wire_messages::{Message, decode};

/// A step of a list: an event that owns what it takes.
#[derive(Drop)]
pub enum Step {
    Append(Blobs),
    Truncate { to: u64, fork: u64 },
    Clear { from: u64, to: u64 },
    /// The body of a message from a peer, which may be an answer with a proof.
    Peer(Blob),
    Get { index: u64 },
}

/// What is kept of a reply: the program's status; with status 0 the length after a change, or the bytes of a block; and
/// the block.
#[derive(Drop)]
pub struct Kept {
    pub status: u8,
    pub number: u64,
    pub bytes: Blob,
}

/// Steps in their order.
pub type Steps = Vec<Step>;

/// What is kept of their replies, in their order.
pub type Replies = Vec<Kept>;

/// Plays the steps in their order, each as one call of the core, and adds what is kept of each reply to `replies`.
/// `Memory` stops it, and the core then stands after just the steps that have replies.
pub fn play<C: Core>(
    core: &mut C,
    alloc: Global,
    steps: &Steps,
    replies: &mut Replies,
) -> Result<(), Memory>
    ensures { AddsReplies C.Core.TAKES_MEMORY (C.Core.state core.old) (map event_of_step steps.now.items)
        (C.Core.state core.new) replies.old.items replies.new.items result }
{
    let mut place = match place_of(alloc, MAX_BLOCK_BYTES) {
        Ok(place) => place,
        Err(Memory) => return Err(Memory),
    };
    play_steps(core, alloc, steps.as_slice(), place.bytes_mut(), replies)
}

// A place of so many bytes.
fn place_of(alloc: Global, bytes: u64) -> Result<Blob, Memory>
    ensures { IfOk result (λ place. length place ≡ bytes) }
{
    Blob::zeros(alloc, bytes as usize)
}

// Plays the steps, with a place for blocks.
fn play_steps<C: Core>(
    core: &mut C,
    alloc: Global,
    steps: &[Step],
    place: &mut [u8],
    replies: &mut Replies,
) -> Result<(), Memory>
    requires room { MAX_BLOCK_BYTES ≤ length place.old }
    ensures { AddsReplies C.Core.TAKES_MEMORY (C.Core.state core.old) (map event_of_step steps.now)
        (C.Core.state core.new) replies.old.items replies.new.items result }
{
    for step in steps {
        match play_one(core, alloc, step, place, replies) {
            Ok(()) => {}
            Err(Memory) => return Err(Memory),
        }
    }
    Ok(())
}

// Plays one step. The place of its reply is taken before the core is called.
fn play_one<C: Core>(
    core: &mut C,
    alloc: Global,
    step: &Step,
    place: &mut [u8],
    replies: &mut Replies,
) -> Result<(), Memory>
    requires room { MAX_BLOCK_BYTES ≤ length place.old }
    ensures { AddsKept C.Core.TAKES_MEMORY (C.Core.state core.old) (event_of_step step.now)
        (C.Core.state core.new) replies.old.items replies.new.items result }
{
    if replies.reserve(1).is_err() {
        return Err(Memory);
    }
    let kept = match answer(core, alloc, step, place) {
        Ok(kept) => kept,
        Err(Memory) => return Err(Memory),
    };
    match replies.push(kept) {
        Ok(()) => Ok(()),
        Err(_) => Err(Memory),
    }
}

// Makes the call of a step. What is kept of a change takes no memory after it, and a read changes nothing.
fn answer<C: Core>(
    core: &mut C,
    alloc: Global,
    step: &Step,
    place: &mut [u8],
) -> Result<Kept, Memory>
    requires room { MAX_BLOCK_BYTES ≤ length place.old }
    ensures { PlaysStep C.Core.TAKES_MEMORY (C.Core.state core.old) (event_of_step step.now)
        (C.Core.state core.new) result }
{
    let none = match Blob::from_slice(alloc, &[]) {
        Ok(none) => none,
        Err(Memory) => return Err(Memory),
    };
    match step {
        Step::Append(blocks) => keep_change(core.append(alloc, blocks), none),
        Step::Truncate { to, fork } => keep_change(core.truncate(alloc, *to, *fork), none),
        Step::Clear { from, to } => keep_change(core.clear(alloc, *from, *to), none),
        Step::Peer(body) => admit_body(core, alloc, body.bytes(), none),
        Step::Get { index } => keep_read(alloc, core.get(*index, place), place, none),
    }
}

// Offers the proof of an answer to the core. A message of another kind, and so far a proof of a node or of a sought byte, is
// a peer's fault.
fn admit_body<C: Core>(core: &mut C, alloc: Global, body: &[u8], none: Blob) -> Result<Kept, Memory>
    requires none { none ≡ [] }
    ensures { PlaysStep C.Core.TAKES_MEMORY (C.Core.state core.old) (option_map Admit (offer_of (message_of body.now)))
        (C.Core.state core.new) result }
{
    match decode(body) {
        Ok(Message::Answer { id: _, proof }) => admit_plain(core, alloc, &proof, none),
        _ => keep_fault(CoreFault::NoReply, none),
    }
}

// Offers a proof to the core, if it has no part but a block and an upgrade.
fn admit_plain<C: Core>(
    core: &mut C,
    alloc: Global,
    proof: &Proof<'_>,
    none: Blob,
) -> Result<Kept, Memory>
    requires none { none ≡ [] }
    requires fits { ProofFits (proof_view proof.now) }
    ensures { PlaysStep C.Core.TAKES_MEMORY (C.Core.state core.old) (option_map Admit (plain_of (proof_view proof.now)))
        (C.Core.state core.new) result }
{
    if proof.hash.is_some() || proof.seek.is_some() {
        return keep_fault(CoreFault::NoReply, none);
    }
    keep_change(core.admit(alloc, &prepare(proof)), none)
}

// What is kept of a change.
fn keep_change(answer: Result<Receipt, CoreFault>, none: Blob) -> Result<Kept, Memory>
    requires none { none ≡ [] }
    ensures { KeepsReply (Done answer) result }
{
    match answer {
        Ok(receipt) => Ok(Kept {
            status: 0,
            number: receipt.length,
            bytes: none,
        }),
        Err(fault) => keep_fault(fault, none),
    }
}

// What is kept of a read, with a copy of the block.
fn keep_read(
    alloc: Global,
    answer: Result<ReadAt, CoreFault>,
    place: &[u8],
    none: Blob,
) -> Result<Kept, Memory>
    requires none { none ≡ [] }
    ensures { KeepsReply (Read (answer_in place.now answer)) result }
{
    match answer {
        Ok(read) => keep_block(alloc, read.len, place),
        Err(fault) => keep_fault(fault, none),
    }
}

// A copy of so many bytes at the front of `place`, or of all where it has fewer.
fn keep_block(alloc: Global, len: usize, place: &[u8]) -> Result<Kept, Memory>
    ensures { IfOk result (λ kept. kept ≡ kept_with 0 (length (take len place.now)) (take len place.now)) }
{
    let block = &place[..len.min(place.len())];
    match Blob::from_slice(alloc, block) {
        Ok(bytes) => Ok(Kept {
            status: 0,
            number: block.len() as u64,
            bytes,
        }),
        Err(Memory) => Err(Memory),
    }
}

// What is kept of a fault other than want of memory.
fn keep_fault(fault: CoreFault, none: Blob) -> Result<Kept, Memory>
    requires none { none ≡ [] }
    ensures ok { IfOk result (λ kept. kept ≡ kept_with (status_of fault) 0 []) }
    ensures other { IfOk result (λ kept. kept.status ≢ 70) }
    ensures err { IfErr result (λ _. fault ≡ MemoryFault) }
{
    if let CoreFault::Memory = fault {
        return Err(Memory);
    }
    Ok(Kept {
        status: status(fault),
        number: 0,
        bytes: none,
    })
}

/// The program's status of a fault.
pub fn status(fault: CoreFault) -> u8
    ensures { result ≡ status_of fault }
{
    match fault {
        CoreFault::Memory => 70,
        CoreFault::Broken { .. } | CoreFault::StoreFault => 5,
        CoreFault::BadSignature => 9,
        CoreFault::OutOfRange { .. } | CoreFault::OldFork { .. } => 12,
        CoreFault::Unavailable { .. } | CoreFault::NoNode { .. } | CoreFault::NoByte { .. } => 13,
        CoreFault::BookFull | CoreFault::Limit { .. } => 14,
        CoreFault::BadStore { .. } => 15,
        CoreFault::Damaged { .. } => 16,
        CoreFault::NoReply | CoreFault::Refused(_) => 17,
    }
}
