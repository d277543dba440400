//! The copies of the held blocks are read.
ghost use Rattle.std.specs.Prelude.{◌≡◌, ◌+◌, ◌-◌, ◌*◌, ◌≤◌, ◌<◌, ◌/◌, ◌%◌, ℕ, min, List, get_or, take, drop, length as count, IsTrue, IfOk, IfErr, OnOk, ◌++◌, []};
ghost use Rattle.flat_tree.specs.declared.limits.TheConstants.{MAX_BLOCKS as MOST};
ghost use Rattle.bit_field.specs.Places.{has, SetsRange};
ghost use Rattle.bit_field.specs.Pages.{is_set, bytes_from};
ghost use Rattle.blake2b_hash.specs.Hasher.{Holds};
ghost use Rattle.node_set.specs.declared.fault.CoreFault.TheVariants.{StoreFault};
ghost use Rattle.oplog_file.specs.Passing.{Consults};
ghost use Rattle.core_disk.specs.Areas.{copy_of, copy_hash};
ghost use Rattle.core_disk.specs.Copying.{place_in, SetsPlaces, CopiedTo, IsSpareFrom, places_below, bytes_below, ChecksCopy, TellsCopy};

use bit_field::{Bits, PAGE_BYTES, PAGE_PLACES};
use blake2b_hash::Blake2b;
use disk_trait::{Area, Disk};
use flat_tree::MAX_BLOCKS;
use node_set::{CoreFault, Place};
use std::alloc::Global;

/// The blocks that the copy of an epoch tells as held, for a header of so many blocks with this hash of the copy.
pub(crate) fn read_copy<D: Disk>(
    alloc: Global,
    disk: &mut D,
    epoch: u64,
    blocks: u64,
    want: [u8; 32],
) -> Result<Bits, CoreFault>
    requires few { blocks ≤ MOST }
    ensures places { IfOk result (λ held. count held ≡ MOST) }
    ensures spare { IfOk result (λ held. IsSpareFrom blocks (has held)) }
    ensures tells { IsTrue (D.disk disk.old).honest
        → TellsCopy epoch want (D.disk disk.old).reads blocks result }
    ensures consults { Consults (D.disk disk.old) (D.disk disk.new) result }
{
    let Ok(held) = Bits::new(alloc, MAX_BLOCKS) else {
        return Err(CoreFault::Memory);
    };
    read_into(disk, epoch, blocks, want, held)
}

// The same, over a set of no places.
fn read_into<D: Disk>(
    disk: &mut D,
    epoch: u64,
    blocks: u64,
    want: [u8; 32],
    mut held: Bits,
) -> Result<Bits, CoreFault>
    requires few { blocks ≤ MOST }
    requires places { count held ≡ MOST }
    requires empty { IsSpareFrom 0 (has held) }
    ensures places { IfOk result (λ held. count held ≡ MOST) }
    ensures spare { IfOk result (λ held. IsSpareFrom blocks (has held)) }
    ensures tells { IsTrue (D.disk disk.old).honest
        → TellsCopy epoch want (D.disk disk.old).reads blocks result }
    ensures consults { Consults (D.disk disk.old) (D.disk disk.new) result }
{
    let area = copy_area(epoch);
    let mut page = [0; PAGE_BYTES];
    match read_pages(disk, area, blocks, &mut page, &mut held) {
        Ok(()) => check_copy(area, blocks, want, held, &mut page),
        Err(fault) => Err(fault),
    }
}

// The held blocks of a copy, where this is its hash.
fn check_copy(
    area: Area,
    blocks: u64,
    want: [u8; 32],
    held: Bits,
    page: &mut [u8; PAGE_BYTES],
) -> Result<Bits, CoreFault>
    requires few { blocks ≤ MOST }
    ensures { ChecksCopy area want held blocks result }
{
    let have = hash_of_copy(&held, blocks, page);
    if want == have {
        return Ok(held);
    }
    Err(CoreFault::Damaged {
        place: Place::BitsCopy { area },
        want,
        have,
    })
}

fn copy_area(epoch: u64) -> Area
    ensures { result ≡ copy_of epoch }
{
    if epoch % 2 == 0 {
        Area::BitsA
    } else {
        Area::BitsB
    }
}

// The hash of a copy for so many blocks.
fn hash_of_copy(held: &Bits, blocks: u64, page: &mut [u8; PAGE_BYTES]) -> [u8; 32]
    requires few { blocks ≤ MOST }
    ensures { result ≡ copy_hash (has held.now) blocks }
{
    let mut hasher = Blake2b::new256();
    put_pages(held, (blocks + 7) / 8, page, &mut hasher);
    hasher.finalize256()
}

// Hands so many bytes of a set to the hasher.
fn put_pages(held: &Bits, bytes: u64, page: &mut [u8; PAGE_BYTES], hasher: &mut Blake2b)
    requires few { bytes ≤ MOST }
    requires new { Holds 32 [] [] hasher.old }
    ensures { Holds 32 [] (bytes_from bytes (has held.now) 0) hasher.new }
{
    for number in 0..bytes.div_ceil(PAGE_BYTES as u64) {
        put_page(held, bytes, number, page, hasher);
    }
}

// Hands a page's bytes to the hasher, which are no more than so many in all.
fn put_page(held: &Bits, bytes: u64, number: u64, page: &mut [u8; PAGE_BYTES], hasher: &mut Blake2b)
    requires few { bytes ≤ MOST }
    requires within { number * PAGE_BYTES ≤ bytes }
    requires before { Holds 32 [] (bytes_from (number * PAGE_BYTES) (has held.now) 0) hasher.old }
    ensures { Holds 32 [] (bytes_from (bytes_below bytes (number + 1)) (has held.now) 0) hasher.new }
{
    held.page(number, page);
    let end = (bytes - number * PAGE_BYTES as u64).min(PAGE_BYTES as u64) as usize;
    hasher.update(&page[..end]);
}

// Reads the pages of a copy for so many blocks, of which none is held before.
fn read_pages<D: Disk>(
    disk: &mut D,
    area: Area,
    blocks: u64,
    page: &mut [u8],
    held: &mut Bits,
) -> Result<(), CoreFault>
    requires few { blocks ≤ MOST }
    requires room { count page.old ≡ PAGE_BYTES }
    requires places { count held.old ≡ MOST }
    requires empty { IsSpareFrom 0 (has held.old) }
    ensures places { count held.new ≡ count held.old }
    ensures held { IsTrue (D.disk disk.old).honest
        → OnOk result (CopiedTo ((D.disk disk.old).reads area) blocks (has held.new)) }
    ensures spare { IsSpareFrom blocks (has held.new) }
    ensures store { IfErr result (λ fault. fault ≡ StoreFault) }
    ensures consults { Consults (D.disk disk.old) (D.disk disk.new) result }
{
    for number in 0..blocks.div_ceil(PAGE_PLACES) {
        match read_page(disk, area, blocks, number, page, held) {
            Ok(()) => {}
            Err(fault) => return Err(fault),
        }
    }
    Ok(())
}

// Reads a page of a copy for so many blocks.
fn read_page<D: Disk>(
    disk: &mut D,
    area: Area,
    blocks: u64,
    number: u64,
    page: &mut [u8],
    held: &mut Bits,
) -> Result<(), CoreFault>
    requires few { blocks ≤ MOST }
    requires within { number * PAGE_PLACES ≤ blocks }
    requires room { count page.old ≡ PAGE_BYTES }
    requires places { count held.old ≡ MOST }
    ensures room { count page.new ≡ count page.old }
    ensures places { count held.new ≡ count held.old }
    ensures held { IsTrue (D.disk disk.old).honest → OnOk result (SetsPlaces
        (drop (number * PAGE_BYTES) ((D.disk disk.old).reads area))
        (number * PAGE_PLACES) (places_below blocks (number + 1)) (has held.old) (has held.new)) }
    ensures spare { (place : ℕ) → places_below blocks (number + 1) ≤ place
        → has held.new place ≡ has held.old place }
    ensures store { IfErr result (λ fault. fault ≡ StoreFault) }
    ensures consults { Consults (D.disk disk.old) (D.disk disk.new) result }
{
    let from = number * PAGE_PLACES;
    let to = blocks.min(from + PAGE_PLACES);
    match read_part(disk, area, number * PAGE_BYTES as u64, page) {
        Ok(n) => {
            put_places(&page[..n], from, to, held);
            Ok(())
        }
        Err(fault) => Err(fault),
    }
}

// Reads a part of an area, as far as it is there.
fn read_part<D: Disk>(
    disk: &mut D,
    area: Area,
    at: u64,
    room: &mut [u8],
) -> Result<usize, CoreFault>
    ensures part { IsTrue (D.disk disk.old).honest → IfOk result (λ n.
        take n room.new ≡ take (count room.old) (drop at ((D.disk disk.old).reads area))) }
    ensures within { IfOk result (λ n. n ≤ count room.old) }
    ensures size { count room.new ≡ count room.old }
    ensures store { IfErr result (λ fault. fault ≡ StoreFault) }
    ensures consults { Consults (D.disk disk.old) (D.disk disk.new) result }
{
    match disk.read(area, at, room) {
        Ok(n) => Ok(n.min(room.len())),
        Err(_) => Err(CoreFault::StoreFault),
    }
}

// Gives the places from..to the bits of these bytes.
fn put_places(bytes: &[u8], from: u64, to: u64, held: &mut Bits)
    requires ordered { from ≤ to }
    requires within { to ≤ count held.old }
    requires few { count held.old ≤ MOST }
    ensures places { count held.new ≡ count held.old }
    ensures held { SetsPlaces bytes.now from to (has held.old) (has held.new) }
{
    for at in from..to {
        put_place(held, at, has_place(bytes, at - from));
    }
}

// Gives a place a bit.
fn put_place(held: &mut Bits, at: u64, bit: bool)
    requires within { at < count held.old }
    requires few { count held.old ≤ MOST }
    ensures places { count held.new ≡ count held.old }
    ensures held { SetsRange bit at (at + 1) (has held.old) (has held.new) }
{
    if bit {
        held.set_range(at, at + 1);
        return;
    }
    held.clear_range(at, at + 1);
}

// Whether bytes have the bit of a place.
fn has_place(bytes: &[u8], place: u64) -> bool
    requires within { place < MOST }
    ensures { result ≡ place_in bytes.now place }
{
    is_set(byte_or_zero(bytes, (place / 8) as usize), place % 8)
}

fn byte_or_zero(bytes: &[u8], at: usize) -> u8
    ensures { result ≡ get_or bytes.now at 0 }
{
    if at < bytes.len() { bytes[at] } else { 0 }
}

fn is_set(byte: u8, bit: u64) -> bool
    requires few { bit < 8 }
    ensures { result ≡ is_set byte bit }
{
    (byte >> bit) % 2 == 1
}
