// Lists of steps on a log in memory.
use crate::logs::{blocks_of, empty};
use core_state::{Core, Kept, Replies, Step, Steps, play};
use flat_tree::MAX_BATCH_BLOCKS;
use outside_traits::{Blob, Blobs, Memory};
use std::alloc::Global;
use std::test::Fail;

// What is kept of a reply, whose bytes are at most one.
type Brief = (u8, u64, Option<u8>);

// The fork, the length and the number of held blocks.
type Short = (u64, u64, u64);

fn brief(kept: &Kept) -> Brief {
    let bytes = kept.bytes.bytes();
    if bytes.len() == 0 {
        return (kept.status, kept.number, None);
    }
    (kept.status, kept.number, Some(bytes[0]))
}

// Of the first ten replies.
fn briefs(replies: &Replies) -> [Brief; 10] {
    let mut all = [(0, 0, None); 10];
    for (place, kept) in replies.iter().enumerate() {
        if place < 10 {
            all[place] = brief(kept);
        }
    }
    all
}

// Plays the steps, and tells what is kept and what the core then is.
fn played<C: Core>(
    core: &mut C,
    alloc: Global,
    steps: &Steps,
) -> Result<([Brief; 10], Short), Memory> {
    let mut replies = Vec::new(alloc);
    play(core, alloc, steps, &mut replies)?;
    let info = core.info();
    Ok((briefs(&replies), (info.fork, info.length, info.held)))
}

fn too_many(alloc: Global) -> Result<Blobs, Memory> {
    let mut blocks = Blobs::new();
    for _ in 0..MAX_BATCH_BLOCKS + 1 {
        blocks.push(alloc, b"")?;
    }
    Ok(blocks)
}

// Seven blocks, of which two stay held; a root that isn't stored, and then one that is; a block, and two that aren't there;
// no block, and too many.
fn steps_of(alloc: Global) -> Result<Steps, Fail> {
    let mut steps = Vec::new(alloc);
    steps.push(Step::Append(blocks_of(alloc, b"abcdefg")?))?;
    steps.push(Step::Clear { from: 5, to: 4 })?;
    steps.push(Step::Clear { from: 2, to: 7 })?;
    steps.push(Step::Truncate { to: 5, fork: 1 })?;
    steps.push(Step::Truncate { to: 4, fork: 1 })?;
    steps.push(Step::Get { index: 1 })?;
    steps.push(Step::Get { index: 2 })?;
    steps.push(Step::Get { index: 9 })?;
    steps.push(Step::Append(Blobs::new()))?;
    steps.push(Step::Append(too_many(alloc)?))?;
    Ok(steps)
}

#[test]
fn what_is_kept_of_each_step(rt: HostRuntime) -> Result<(), Fail> {
    let steps = steps_of(rt.alloc())?;
    let wanted = [
        (0, 7, None),
        (12, 0, None),
        (0, 7, None),
        (13, 0, None),
        (0, 4, None),
        (0, 1, Some(b'b')),
        (13, 0, None),
        (12, 0, None),
        (0, 4, None),
        (14, 0, None),
    ];
    let mut log = empty(rt.alloc());
    assert!(rt; played(&mut log, rt.alloc(), &steps) == Ok((wanted, (1, 4, 2))));
    Ok(())
}

// The hash of the leaf of the block `a`, and of the root of a log that has it alone: by the formulas of docs/FORMATS.md in
// Python's hashlib.
const LEAF: [u8; 32] = [
    0x42, 0x31, 0x77, 0xbd, 0x3d, 0xa5, 0x5c, 0x6a, 0xc5, 0x74, 0x19, 0xbe, 0xff, 0x9c, 0x76, 0x3b,
    0xab, 0x05, 0xe1, 0x2a, 0x6d, 0x89, 0x08, 0xb3, 0x8b, 0x7f, 0xc1, 0x43, 0x60, 0x22, 0x8d, 0x4a,
];

const ROOT: [u8; 32] = [
    0xb0, 0x62, 0x19, 0xc8, 0x34, 0xe8, 0xe4, 0xda, 0x41, 0xe4, 0x2b, 0x3c, 0x82, 0x39, 0xf4, 0xd1,
    0x80, 0x5a, 0x38, 0x8c, 0x5d, 0xd0, 0x3e, 0xff, 0x37, 0x77, 0xe6, 0x53, 0x2e, 0xc7, 0x2f, 0x27,
];

// An answer under the id 1: an upgrade from 0 to 1 with one twig, signed as PlainAuth does, with the root hash, the length,
// the fork and its mark.
fn upgrade(alloc: Global) -> Result<Blob, Fail> {
    let mut body = Vec::from_slice(alloc, &[4, 1, 0, 8, 0, 1, 1, 1])?;
    for bytes in [LEAF, ROOT] {
        body.extend_from_slice(&bytes)?;
    }
    body.extend_from_slice(&1_u64.to_le_bytes())?;
    body.extend_from_slice(&[0; 8])?;
    body.extend_from_slice(&[7; 16])?;
    Ok(Blob::from_slice(alloc, body.as_slice())?)
}

// The leaf as a node.
fn node(alloc: Global) -> Result<Blob, Fail> {
    let mut body = Vec::from_slice(alloc, &[4, 1, 0, 2, 0, 1])?;
    body.extend_from_slice(&LEAF)?;
    body.push(0)?;
    Ok(Blob::from_slice(alloc, body.as_slice())?)
}

// What a peer sends.
fn peer(alloc: Global, body: &[u8]) -> Result<Step, Memory> {
    Ok(Step::Peer(Blob::from_slice(alloc, body)?))
}

// Before the upgrade the block at 0 is past the end; then another block is refused, and the own one admitted; a node, a
// message of another kind and no message at all are a peer's fault.
fn peers(alloc: Global) -> Result<Steps, Fail> {
    let mut steps = Vec::new(alloc);
    steps.push(peer(alloc, &[4, 1, 0, 1, 0, 1, b'a', 0])?)?;
    steps.push(Step::Peer(upgrade(alloc)?))?;
    steps.push(peer(alloc, &[4, 1, 0, 1, 0, 1, b'b', 0])?)?;
    steps.push(peer(alloc, &[4, 1, 0, 1, 0, 1, b'a', 0])?)?;
    steps.push(Step::Get { index: 0 })?;
    steps.push(Step::Peer(node(alloc)?))?;
    steps.push(peer(alloc, &[5, 1])?)?;
    steps.push(peer(alloc, &[])?)?;
    Ok(steps)
}

#[test]
fn what_peers_send(rt: HostRuntime) -> Result<(), Fail> {
    let steps = peers(rt.alloc())?;
    let none = (0, 0, None);
    let fault = (17, 0, None);
    let one = (0, 1, None);
    let read = (0, 1, Some(b'a'));
    let wanted = [
        fault, one, fault, one, read, fault, fault, fault, none, none,
    ];
    let mut log = empty(rt.alloc());
    assert!(rt; played(&mut log, rt.alloc(), &steps) == Ok((wanted, (0, 1, 1))));
    Ok(())
}
