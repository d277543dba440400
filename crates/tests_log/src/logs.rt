//! Logs in memory whose blocks are one byte each, and proofs that one hands on to another.
ghost use Rattle.std.specs.Prelude.{◌≡◌, ◌≤◌, ◌<◌, IfOk, length};
ghost use Rattle.flat_tree.specs.declared.limits.TheConstants.{MAX_BLOCK_BYTES};
ghost use Rattle.proof_form.specs.declared.fields.TheConstants.{MAX_NUMBER};
ghost use Rattle.proof_form.specs.Requests.{RequestFits};

use commit_book::Commit;
use core_state::{Core, Event, MemCore, Reply, act};
use flat_tree::MAX_BLOCK_BYTES;
use node_set::CoreFault;
use outside_traits::{Blob, Blobs, Memory, PlainAuth};
use proof_check::{Prepared, prepare};
use proof_form::{Reach, Request, Want};
use std::alloc::Global;
use std::test::Fail;

pub type Log = MemCore<PlainAuth>;

/// What an admission commits, or why it doesn't.
pub type Told = Result<Option<Commit>, CoreFault>;

pub fn empty(alloc: Global) -> Log {
    MemCore::new(alloc, PlainAuth { mark: 7 })
}

pub fn blocks_of(alloc: Global, text: &[u8]) -> Result<Blobs, Memory> {
    let mut blocks = Blobs::new();
    for byte in text {
        blocks.push(alloc, &[*byte])?;
    }
    Ok(blocks)
}

pub fn log_of(alloc: Global, text: &[u8]) -> Result<Log, Fail> {
    let blocks = blocks_of(alloc, text)?;
    let mut log = empty(alloc);
    log.append(alloc, &blocks)?;
    Ok(log)
}

/// A place of so many bytes.
pub fn place_of(alloc: Global, bytes: u64) -> Result<Blob, Memory>
    ensures { IfOk result (λ place. length place ≡ bytes) }
{
    Blob::zeros(alloc, bytes as usize)
}

/// A request of a block below 16 with fewer than 8 siblings.
pub fn block(index: u64, nodes: u64) -> Request
    ensures { RequestFits result }
{
    Request {
        fork: 0,
        block: Some(Want {
            index: index % 16,
            nodes: nodes % 8,
        }),
        hash: None,
        seek: None,
        upgrade: None,
    }
}

/// A request of an upgrade.
pub fn upgrade(start: u64, length: u64) -> Request
    requires ordered { start < length }
    requires within { length ≤ MAX_NUMBER }
    ensures { RequestFits result }
{
    Request {
        fork: 0,
        block: None,
        hash: None,
        seek: None,
        upgrade: Some(Reach { start, length }),
    }
}

/// A request of a block below 16 with three siblings, and an upgrade from 5 to 8.
pub fn both(index: u64) -> Request
    ensures { RequestFits result }
{
    Request {
        upgrade: Some(Reach {
            start: 5,
            length: 8,
        }),
        ..block(index, 3)
    }
}

/// Hands on the proof of a request, for which memory is taken first if `reserved`.
pub fn hand_on<C: Core>(
    from: &mut C,
    to: &mut Log,
    alloc: Global,
    request: &Request,
    reserved: bool,
) -> Result<Told, Fail>
    requires fits { RequestFits request.now }
{
    let mut place = place_of(alloc, MAX_BLOCK_BYTES)?;
    let proof = from.make(request, place.bytes_mut())?;
    if proof.hash.is_some() || proof.seek.is_some() {
        return Err(Fail::new("a part that was not asked for"));
    }
    let prepared = prepare(&proof);
    if reserved {
        to.reserve(alloc, &prepared)?;
    }
    match act(to, alloc, &Event::Admit(&prepared), &mut []) {
        Reply::Done(Ok(receipt)) => Ok(Ok(receipt.commit)),
        Reply::Done(Err(fault)) => Ok(Err(fault)),
        _ => Err(Fail::new("another reply")),
    }
}

/// A log that has the head of another one of eight blocks, and none of its blocks.
pub fn upgraded<C: Core>(alloc: Global, from: &mut C) -> Result<Log, Fail> {
    let mut to = empty(alloc);
    hand_on(from, &mut to, alloc, &upgrade(0, 8), false)??;
    Ok(to)
}
