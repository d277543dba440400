// Each event once, as a call of a core.
ghost use Rattle.flat_tree.specs.declared.limits.TheConstants.{MAX_BLOCK_BYTES};
ghost use Rattle.core_state.specs.Events.{event_of};
ghost use Rattle.core_state.specs.Calls.{Needs};

use crate::logs::{block, blocks_of, log_of, place_of};
use core_state::{Core, Event, Reply, act};
use flat_tree::MAX_BLOCK_BYTES;
use outside_traits::{Blobs, Memory};
use std::alloc::Global;
use std::test::Fail;

// Which reply it is, and its length, its number or its number of bytes.
type Told = (char, Option<u64>);

fn told_of(reply: &Reply<'_>) -> Told {
    match reply {
        Reply::Told(info) => ('i', Some(info.length)),
        Reply::Done(Ok(receipt)) => ('d', Some(receipt.length)),
        Reply::Made(Ok(proof)) => ('m', Some(proof.fork)),
        Reply::Read(Ok(part)) => ('r', Some(part.bytes.len() as u64)),
        Reply::Number(Ok(number)) => ('n', Some(*number)),
        Reply::Bits(Ok(bytes)) => ('b', Some(bytes.len() as u64)),
        _ => ('f', None),
    }
}

fn told<C: Core>(core: &mut C, alloc: Global, event: &Event<'_>) -> Result<Told, Memory>
    requires needs { Needs (event_of event.now) MAX_BLOCK_BYTES }
{
    let mut place = place_of(alloc, MAX_BLOCK_BYTES)?;
    Ok(told_of(&act(core, alloc, event, place.bytes_mut())))
}

fn each_told<C: Core>(core: &mut C, alloc: Global, blocks: &Blobs) -> Result<[Told; 8], Memory> {
    Ok([
        told(core, alloc, &Event::Info)?,
        told(core, alloc, &Event::Append(blocks))?,
        told(core, alloc, &Event::Get { index: 0 })?,
        told(core, alloc, &Event::Need { index: 1 })?,
        told(core, alloc, &Event::Page { number: 0 })?,
        told(core, alloc, &Event::Make(&block(2, 0)))?,
        told(core, alloc, &Event::Clear { from: 0, to: 1 })?,
        told(core, alloc, &Event::Truncate { to: 1, fork: 1 })?,
    ])
}

// An admission is an event of the proofs' tests.
#[test]
fn each_event(rt: HostRuntime) -> Result<(), Fail> {
    let mut log = log_of(rt.alloc(), b"ab")?;
    let blocks = blocks_of(rt.alloc(), b"c")?;
    let wanted = [
        ('i', Some(2)),
        ('d', Some(3)),
        ('r', Some(1)),
        ('n', Some(0)),
        ('b', Some(4096)),
        ('m', Some(0)),
        ('d', Some(3)),
        ('d', Some(1)),
    ];
    assert!(rt; each_told(&mut log, rt.alloc(), &blocks) == Ok(wanted));
    Ok(())
}
