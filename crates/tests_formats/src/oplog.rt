use compact_enc::Encoder;
use flat_tree::{MAX_BLOCKS, MAX_CORE_BYTES, MAX_FORK};
use oplog_form::{VERSION, read_entry, read_header};
use outside_traits::{Blob, Memory};
use std::alloc::Global;

// Writes what a header and an entry have in common, its numbers at their largest, and so many twigs.
fn spell_head(to: &mut Encoder<'_>) {
    let _ = to.put_uint(MAX_FORK);
    let _ = to.put_uint(MAX_BLOCKS - 1);
    let _ = to.put_fixed(&[0x55; 64]);
}

fn spell_twig(to: &mut Encoder<'_>) {
    let _ = to.put_uint(MAX_CORE_BYTES);
    let _ = to.put_fixed(&[0x33; 32]);
}

// The longest header: a root for each digit of the length. Gives where it ends.
fn spell_header(room: &mut [u8]) -> usize {
    let mut to = Encoder::new(room);
    let _ = to.put_uint(VERSION);
    let _ = to.put_fixed(&[0x11; 32]);
    spell_head(&mut to);
    let _ = to.put_uint(20);
    for _ in 0..20 {
        spell_twig(&mut to);
    }
    let _ = to.put_fixed(&[0x22; 32]);
    to.place()
}

// Its bytes, the length in it and its roots.
fn told_of_the_header() -> Option<(usize, u64, usize)> {
    let mut room = [0; 960];
    let end = spell_header(&mut room);
    let header = read_header(&room).ok()?;
    Some((end, header.head.length, header.roots.len()))
}

// The entry of an append with the most records that a batch of the most blocks makes. Gives where it ends.
fn spell_append(room: &mut [u8]) -> usize {
    let mut to = Encoder::new(room);
    let _ = to.put_fixed(b"\0\xfd\0\x04");
    spell_head(&mut to);
    let _ = to.put_uint(2_057);
    for place in 0..2_057 {
        let _ = to.put_uint(70_000 + place);
        spell_twig(&mut to);
    }
    to.place()
}

// Its bytes and its records.
fn told_of_the_append(alloc: Global) -> Option<(usize, usize)> {
    let mut room = zeros(alloc, 94_703).ok()?;
    let end = spell_append(room.bytes_mut());
    let entry = read_entry(room.bytes()).ok()?;
    Some((end, entry.records.len()))
}

// Says nothing of the bytes, so that a proof doesn't count them.
fn zeros(alloc: Global, len: usize) -> Result<Blob, Memory> {
    Blob::zeros(alloc, len)
}

#[test]
fn longest_payloads(rt: HostRuntime) {
    assert!(rt; told_of_the_header() == Some((960, 1_048_575, 20)));
    assert!(rt; told_of_the_append(rt.alloc()) == Some((94_703, 2_057)));
}
