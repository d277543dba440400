// Each change of a core on a disk, and what is opened then.
ghost use Rattle.std.specs.Prelude.{◌≡◌, ◌≤◌, IfOk, length};
ghost use Rattle.flat_tree.specs.declared.limits.TheConstants.{MAX_BLOCK_BYTES};
ghost use Rattle.proof_form.specs.Requests.{RequestFits};

use crate::cores::{Log, append, brief, made, opened};
use core_state::{Core, OpenCore};
use disk_trait::{Disk, MemDisk, Room};
use flat_tree::MAX_BLOCK_BYTES;
use node_set::CoreFault;
use outside_traits::{Blob, PlainAuth};
use proof_check::prepare;
use proof_form::{Reach, Request, Want};
use std::alloc::Global;
use std::test::Fail;

const ROOM: Room = Room {
    bytes: 10_000,
    journal: 8_192,
};

// The length, the number of held blocks and the fork after a clearing and after a truncation, each opened again.
fn cut_down<D: Disk + Drop, C: Core + OpenCore<D, PlainAuth> + Drop>(
    alloc: Global,
    disk: D,
) -> Result<[(u64, u64, u64); 2], CoreFault> {
    let mut core: C = made(alloc, disk)?;
    append(&mut core, alloc, b"abc")?;
    core.clear(alloc, 0, 1)?;
    let mut core: C = opened(alloc, core.into_disk())?;
    let cleared = brief(&core);
    core.truncate(alloc, 2, 1)?;
    let core: C = opened(alloc, core.into_disk())?;
    Ok([cleared, brief(&core)])
}

#[test]
fn blocks_are_given_up_and_cut_off(rt: HostRuntime) -> Result<(), Fail> {
    let disk = MemDisk::new(rt.alloc(), &ROOM)?;
    assert!(rt; cut_down::<MemDisk, Log<MemDisk>>(rt.alloc(), disk) == Ok([(3, 2, 0), (2, 1, 1)]));
    Ok(())
}

// The request for the block 1 and all three blocks' roots.
fn request() -> Request
    ensures { RequestFits result }
{
    Request {
        fork: 0,
        block: Some(Want { index: 1, nodes: 1 }),
        hash: None,
        seek: None,
        upgrade: Some(Reach {
            start: 0,
            length: 3,
        }),
    }
}

// A place of so many bytes.
fn place_of(alloc: Global, bytes: u64) -> Result<Blob, CoreFault>
    ensures { IfOk result (λ place. length place ≡ bytes) }
{
    match Blob::zeros(alloc, bytes as usize) {
        Ok(place) => Ok(place),
        Err(_) => Err(CoreFault::Memory),
    }
}

// Hands on the proof of a request from one core to another.
fn hand_on<C: Core>(from: &mut C, to: &mut C, alloc: Global, room: u64) -> Result<(), CoreFault>
    requires { MAX_BLOCK_BYTES ≤ room }
{
    let mut place = place_of(alloc, room)?;
    let proof = from.make(&request(), place.bytes_mut())?;
    if proof.hash.is_some() || proof.seek.is_some() {
        return Err(CoreFault::NoReply);
    }
    match to.admit(alloc, &prepare(&proof)) {
        Ok(_) => Ok(()),
        Err(fault) => Err(fault),
    }
}

// What is opened once a block and the head came from another core.
fn handed_on<D: Disk + Drop, C: Core + OpenCore<D, PlainAuth> + Drop>(
    alloc: Global,
    one: D,
    two: D,
) -> Result<(u64, u64, u64), CoreFault> {
    let mut from: C = made(alloc, one)?;
    append(&mut from, alloc, b"abc")?;
    let mut to: C = made(alloc, two)?;
    hand_on(&mut from, &mut to, alloc, MAX_BLOCK_BYTES)?;
    let core: C = opened(alloc, to.into_disk())?;
    Ok(brief(&core))
}

#[test]
fn a_block_comes_from_another_core(rt: HostRuntime) -> Result<(), Fail> {
    let one = MemDisk::new(rt.alloc(), &ROOM)?;
    let two = MemDisk::new(rt.alloc(), &ROOM)?;
    assert!(rt; handed_on::<MemDisk, Log<MemDisk>>(rt.alloc(), one, two) == Ok((3, 1, 0)));
    Ok(())
}
