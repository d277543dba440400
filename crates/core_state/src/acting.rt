//! One event of a core.
ghost use Rattle.std.specs.Prelude.{◌≤◌, IsTrue, length};
ghost use Rattle.flat_tree.specs.declared.limits.TheConstants.{MAX_BLOCK_BYTES};
ghost use Rattle.bit_field.specs.declared.page.TheConstants.{PAGE_BYTES};
ghost use Rattle.node_set.specs.Whole.{IsWhole};
ghost use Rattle.core_state.specs.Events.{event_of, reply_of};
ghost use Rattle.core_state.specs.Events.Event.{Admit, Get, Page};
ghost use Rattle.proof_check.specs.Admission.{IsPlain};
ghost use Rattle.core_state.specs.Calls.{Acts, Needs};
ghost use Rattle.core_state.specs.Truths.{TellsTruth, TakesHonest};

use crate::event::{Event, Reply};
use crate::log_core::Core;
use bit_field::PAGE_BYTES;
use proof_check::Prepared;
use proof_form::BlockPart;
use std::alloc::Global;

/// Makes the call of an event. `buf` has room for the largest block where the event reads one, and for a page where it
/// asks for one; a request is within its ranges.
#[tactic(auto, using(crate::proofs::Truths::whole_tells))]
pub fn act<'b, C: Core>(
    core: &mut C,
    alloc: Global,
    event: &Event<'_>,
    buf: &'b mut [u8],
) -> Reply<'b>
    requires needs { Needs (event_of event.now) (length buf.old) }
    ensures acts { Acts C.Core.TAKES_MEMORY (C.Core.state core.old) (event_of event.now)
        (C.Core.state core.new) (reply_of result) }
    ensures sound { IsTrue (C.Core.state core.new).stands → TellsTruth (C.Core.state core.new).content }
    ensures honest { IsTrue (C.Core.state core.old).stands → IsWhole (C.Core.state core.old).accepts (C.Core.state core.old).content
        → TakesHonest C.Core.TAKES_MEMORY (C.Core.state core.old) (event_of event.now) (C.Core.state core.new) (reply_of result) }
{
    match event {
        Event::Info => Reply::Told(core.info()),
        Event::Append(blocks) => Reply::Done(core.append(alloc, blocks)),
        Event::Truncate { to, fork } => Reply::Done(core.truncate(alloc, *to, *fork)),
        Event::Clear { from, to } => Reply::Done(core.clear(alloc, *from, *to)),
        Event::Admit(prepared) => admit(core, alloc, prepared),
        Event::Make(request) => Reply::Made(core.make(request, buf)),
        Event::Get { index } => read(core, *index, buf),
        Event::Need { index } => Reply::Number(core.need(*index)),
        Event::Page { number } => page(core, *number, buf),
    }
}

// What the proof brings.
fn admit<'b, C: Core>(core: &mut C, alloc: Global, prepared: &Prepared<'_>) -> Reply<'b>
    requires plain { IsPlain prepared.now }
    ensures acts { Acts C.Core.TAKES_MEMORY (C.Core.state core.old) (Admit prepared.now) (C.Core.state core.new)
        (reply_of result) }
    ensures honest { IsTrue (C.Core.state core.old).stands → IsWhole (C.Core.state core.old).accepts (C.Core.state core.old).content
        → TakesHonest C.Core.TAKES_MEMORY (C.Core.state core.old) (Admit prepared.now) (C.Core.state core.new) (reply_of result) }
{
    // it is within its ranges
    let _proof = prepared.proof();
    Reply::Done(core.admit(alloc, prepared))
}

// The block of this index, at the front of `buf`.
fn read<'b, C: Core>(core: &mut C, index: u64, buf: &'b mut [u8]) -> Reply<'b>
    requires room { MAX_BLOCK_BYTES ≤ length buf.old }
    ensures { Acts C.Core.TAKES_MEMORY (C.Core.state core.old) (Get index) (C.Core.state core.new)
        (reply_of result) }
{
    match core.get(index, buf) {
        Ok(read) => Reply::Read(Ok(BlockPart {
            index,
            bytes: &buf[..read.len],
            trail: read.trail,
        })),
        Err(fault) => Reply::Read(Err(fault)),
    }
}

// The page of this number, at the front of `buf`.
fn page<'b, C: Core>(core: &mut C, number: u64, buf: &'b mut [u8]) -> Reply<'b>
    requires room { PAGE_BYTES ≤ length buf.old }
    ensures { Acts C.Core.TAKES_MEMORY (C.Core.state core.old) (Page number) (C.Core.state core.new)
        (reply_of result) }
{
    let mut place = [0; PAGE_BYTES];
    let front = &mut buf[..PAGE_BYTES];
    match core.bits(number, &mut place) {
        Ok(()) => {
            front.copy_from_slice(&place);
            Reply::Bits(Ok(front))
        }
        Err(fault) => Reply::Bits(Err(fault)),
    }
}
