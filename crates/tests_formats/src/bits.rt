use bit_field::Bits;
use outside_traits::Memory;
use std::alloc::Global;

// A set that grows: its places, how many of them it has, and the first one behind those that it had before.
fn told_of_a_set(alloc: Global) -> Result<(u64, u64, Option<u64>), Memory> {
    let mut set = Bits::new(alloc, 3)?;
    set.set_range(0, 3);
    set.grow(alloc, 40_000)?;
    set.set_range(32_767, 32_770);
    Ok((set.places(), set.count(), set.next_set(3)))
}

#[test]
fn a_set_grows(rt: HostRuntime) {
    assert!(rt; told_of_a_set(rt.alloc()) == Ok((40_000, 6, Some(32_767))));
}
