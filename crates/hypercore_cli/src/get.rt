//! The command `get KEY NAME INDEX`.
ghost use Rattle.std.specs.Prelude.{◌≡◌, ◌≤◌, length, take, IsTrue, true, IfOk};
ghost use Rattle.flat_tree.specs.declared.limits.TheConstants.{MAX_BLOCK_BYTES};
ghost use Rattle.core_shelf.specs.Named.{id_of, IsHome};
ghost use Rattle.hypercore_cli.specs.Cores.{core_of, KeepsRest, KeepsMark, KeepsContent};
ghost use Rattle.hypercore_cli.specs.Gets.{GetsTo, ReadsTo};

use crate::faults::{named_end, read_end};
use crate::outcome::Outcome;
use core_disk::DiskCore;
use core_shelf::{NamedFault, Shelf, close_named, open_named};
use flat_tree::MAX_BLOCK_BYTES;
use outside_traits::{Blob, Keys, Sink, write_all};
use std::alloc::Global;

/// Writes the block of an index of the core of a name.
pub fn get<H: Shelf, K: Keys, O: Sink>(
    alloc: Global,
    key: &[u8; 32],
    name: &[u8],
    index: u64,
    shelf: &mut H,
    keys: &K,
    output: &mut O,
) -> Outcome
    requires { IsHome (id_of (K.public_of keys.now) key.now name.now) (H.shelf shelf.old) }
    ensures gets { GetsTo (core_of (K.key_accepts keys.now) (K.public_of keys.now) key.now name.now
        (H.shelf shelf.old) (H.shelf shelf.new)) index (O.sink output.old) (O.sink output.new) result }
    ensures rest { KeepsRest (core_of (K.key_accepts keys.now) (K.public_of keys.now) key.now name.now
        (H.shelf shelf.old) (H.shelf shelf.new)) }
    ensures mark { KeepsMark (core_of (K.key_accepts keys.now) (K.public_of keys.now) key.now name.now
        (H.shelf shelf.old) (H.shelf shelf.new)) }
    ensures content { KeepsContent (core_of (K.key_accepts keys.now) (K.public_of keys.now) key.now name.now
        (H.shelf shelf.old) (H.shelf shelf.new)) }
{
    get_within(
        alloc,
        MAX_BLOCK_BYTES as usize,
        key,
        name,
        index,
        shelf,
        keys,
        output,
    )
}

/// The same, with a place of so many bytes for the block.
fn get_within<H: Shelf, K: Keys, O: Sink>(
    alloc: Global,
    room: usize,
    key: &[u8; 32],
    name: &[u8],
    index: u64,
    shelf: &mut H,
    keys: &K,
    output: &mut O,
) -> Outcome
    requires room { MAX_BLOCK_BYTES ≤ room }
    requires home { IsHome (id_of (K.public_of keys.now) key.now name.now) (H.shelf shelf.old) }
    ensures gets { GetsTo (core_of (K.key_accepts keys.now) (K.public_of keys.now) key.now name.now
        (H.shelf shelf.old) (H.shelf shelf.new)) index (O.sink output.old) (O.sink output.new) result }
    ensures rest { KeepsRest (core_of (K.key_accepts keys.now) (K.public_of keys.now) key.now name.now
        (H.shelf shelf.old) (H.shelf shelf.new)) }
    ensures mark { KeepsMark (core_of (K.key_accepts keys.now) (K.public_of keys.now) key.now name.now
        (H.shelf shelf.old) (H.shelf shelf.new)) }
    ensures content { KeepsContent (core_of (K.key_accepts keys.now) (K.public_of keys.now) key.now name.now
        (H.shelf shelf.old) (H.shelf shelf.new)) }
{
    let Ok(mut place) = Blob::zeros(alloc, room) else {
        return Outcome::NoMemory;
    };
    match read(alloc, key, name, index, shelf, keys, place.bytes_mut()) {
        Ok(len) => match write_all(output, &place.bytes()[..len]) {
            Ok(()) => Outcome::Done,
            Err(_) => Outcome::WriteFault,
        },
        Err(outcome) => outcome,
    }
}

/// Reads the block to the front of a place, and gives its number of bytes. The core's disk is then on the shelf.
fn read<H: Shelf, K: Keys>(
    alloc: Global,
    key: &[u8; 32],
    name: &[u8],
    index: u64,
    shelf: &mut H,
    keys: &K,
    into: &mut [u8],
) -> Result<usize, Outcome>
    requires room { MAX_BLOCK_BYTES ≤ length into.old }
    requires home { IsHome (id_of (K.public_of keys.now) key.now name.now) (H.shelf shelf.old) }
    ensures reads { ReadsTo (core_of (K.key_accepts keys.now) (K.public_of keys.now) key.now name.now
        (H.shelf shelf.old) (H.shelf shelf.new)) index into.new result }
    ensures len { IfOk result (λ len. len ≤ length into.new) }
    ensures rest { KeepsRest (core_of (K.key_accepts keys.now) (K.public_of keys.now) key.now name.now
        (H.shelf shelf.old) (H.shelf shelf.new)) }
    ensures mark { KeepsMark (core_of (K.key_accepts keys.now) (K.public_of keys.now) key.now name.now
        (H.shelf shelf.old) (H.shelf shelf.new)) }
    ensures content { KeepsContent (core_of (K.key_accepts keys.now) (K.public_of keys.now) key.now name.now
        (H.shelf shelf.old) (H.shelf shelf.new)) }
{
    let opened: Result<DiskCore<H::Store, K::Auth>, NamedFault> = open_named(
        alloc, shelf, keys, key, name,
    );
    match opened {
        Ok(mut core) => {
            let read = core.get(index, into);
            close_named(shelf, keys, key, name, core);
            match read {
                Ok(read) => Ok(read.len),
                Err(fault) => Err(read_end(fault)),
            }
        }
        Err(fault) => Err(named_end(fault)),
    }
}
