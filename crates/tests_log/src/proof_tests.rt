// Proofs that one log makes and another admits.
use crate::logs::{Log, Told, block, blocks_of, both, empty, hand_on, log_of, upgrade, upgraded};
use commit_book::Commit;
use core_state::Core;
use node_set::{CoreFault, Refusal};
use std::alloc::Global;
use std::test::Fail;

// How many siblings a block needs, and what becomes of it with so many.
type Fetched = (Result<u64, CoreFault>, Told);

fn fetched(
    alloc: Global,
    from: &mut Log,
    to: &mut Log,
    index: u64,
    nodes: u64,
    reserved: bool,
) -> Result<Fetched, Fail> {
    let need = to.need(index);
    let told = hand_on(from, to, alloc, &block(index, nodes), reserved)?;
    Ok((need, told))
}

// Block 5 of eight with two siblings, with three, and again; its neighbour with none; and block 0, over which node 3 is then
// stored.
fn each_fetched(alloc: Global) -> Result<[Fetched; 5], Fail> {
    let mut from = log_of(alloc, b"abcdefgh")?;
    let mut to = upgraded(alloc, &mut from)?;
    Ok([
        fetched(alloc, &mut from, &mut to, 5, 2, false)?,
        fetched(alloc, &mut from, &mut to, 5, 3, true)?,
        fetched(alloc, &mut from, &mut to, 5, 3, true)?,
        fetched(alloc, &mut from, &mut to, 4, 0, true)?,
        fetched(alloc, &mut from, &mut to, 0, 2, false)?,
    ])
}

#[test]
fn blocks_are_fetched_one_by_one(rt: HostRuntime) -> Result<(), Fail> {
    let uncovered = CoreFault::Refused(Refusal::Uncovered { index: 11 });
    let wanted = [
        (Ok(3), Err(uncovered)),
        (Ok(3), Ok(Some(Commit::Fetch { index: 5 }))),
        (Ok(0), Ok(None)),
        (Ok(0), Ok(Some(Commit::Fetch { index: 4 }))),
        (Ok(2), Ok(Some(Commit::Fetch { index: 0 }))),
    ];
    assert!(rt; each_fetched(rt.alloc())? == wanted);
    Ok(())
}

// Five blocks' head, and then that of eight with a block behind them.
fn grown(alloc: Global) -> Result<[Told; 2], Fail> {
    let mut from = log_of(alloc, b"abcde")?;
    let mut to = empty(alloc);
    let five = hand_on(&mut from, &mut to, alloc, &upgrade(0, 5), true)?;
    let more = blocks_of(alloc, b"fgh")?;
    from.append(alloc, &more)?;
    let eight = hand_on(&mut from, &mut to, alloc, &both(6), true)?;
    Ok([five, eight])
}

#[test]
fn a_log_is_followed(rt: HostRuntime) -> Result<(), Fail> {
    let wanted = [
        Ok(Some(Commit::Upgrade { to: 5 })),
        Ok(Some(Commit::UpgradeFetch { to: 8, index: 6 })),
    ];
    assert!(rt; grown(rt.alloc())? == wanted);
    Ok(())
}
