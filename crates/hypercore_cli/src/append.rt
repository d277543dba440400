//! The command `append KEY NAME`.
ghost use Rattle.std.specs.Prelude.{◌≡◌};
ghost use Rattle.core_shelf.specs.Named.{id_of, IsHome};
ghost use Rattle.hypercore_cli.specs.Cores.{core_of, KeepsRest, KeepsMark};
ghost use Rattle.hypercore_cli.specs.Faults.{append_end};
ghost use Rattle.hypercore_cli.specs.Extends.{ExtendsTo, FillsTo};

use crate::batches::{AppendFault, append_lines};
use crate::faults::named_end;
use crate::line::length_line;
use crate::outcome::Outcome;
use core_disk::DiskCore;
use core_shelf::{NamedFault, Shelf, close_named, open_named};
use flat_tree::MAX_BLOCK_BYTES;
use merkle_nodes::{Info, What};
use node_set::CoreFault;
use outside_traits::{Keys, Sink, Source, write_all};
use std::alloc::Global;

/// Appends the lines of the input to the core of a name, and writes its length and fork.
pub fn append<H: Shelf, K: Keys, I: Source, O: Sink>(
    alloc: Global,
    key: &[u8; 32],
    name: &[u8],
    shelf: &mut H,
    keys: &K,
    input: &mut I,
    output: &mut O,
) -> Outcome
    requires { IsHome (id_of (K.public_of keys.now) key.now name.now) (H.shelf shelf.old) }
    ensures extends { ExtendsTo (core_of (K.key_accepts keys.now) (K.public_of keys.now) key.now name.now
        (H.shelf shelf.old) (H.shelf shelf.new)) (I.source input.old) (I.source input.new) (O.sink output.old)
        (O.sink output.new) result }
    ensures rest { KeepsRest (core_of (K.key_accepts keys.now) (K.public_of keys.now) key.now name.now
        (H.shelf shelf.old) (H.shelf shelf.new)) }
    ensures mark { KeepsMark (core_of (K.key_accepts keys.now) (K.public_of keys.now) key.now name.now
        (H.shelf shelf.old) (H.shelf shelf.new)) }
{
    match fill(alloc, key, name, shelf, keys, input) {
        Ok(info) => match write_all(output, length_line(info.length, info.fork).as_slice()) {
            Ok(()) => Outcome::Done,
            Err(_) => Outcome::WriteFault,
        },
        Err(outcome) => outcome,
    }
}

/// Appends the lines, and gives the head after them. The core's disk is then on the shelf.
fn fill<H: Shelf, K: Keys, I: Source>(
    alloc: Global,
    key: &[u8; 32],
    name: &[u8],
    shelf: &mut H,
    keys: &K,
    input: &mut I,
) -> Result<Info, Outcome>
    requires { IsHome (id_of (K.public_of keys.now) key.now name.now) (H.shelf shelf.old) }
    ensures fills { FillsTo (core_of (K.key_accepts keys.now) (K.public_of keys.now) key.now name.now
        (H.shelf shelf.old) (H.shelf shelf.new)) (I.source input.old) (I.source input.new) result }
    ensures rest { KeepsRest (core_of (K.key_accepts keys.now) (K.public_of keys.now) key.now name.now
        (H.shelf shelf.old) (H.shelf shelf.new)) }
    ensures mark { KeepsMark (core_of (K.key_accepts keys.now) (K.public_of keys.now) key.now name.now
        (H.shelf shelf.old) (H.shelf shelf.new)) }
{
    let opened: Result<DiskCore<H::Store, K::Auth>, NamedFault> = open_named(
        alloc, shelf, keys, key, name,
    );
    match opened {
        Ok(mut core) => {
            let done = append_lines(alloc, &mut core, input);
            let info = core.info();
            close_named(shelf, keys, key, name, core);
            match done {
                Ok(()) => Ok(info),
                Err(fault) => Err(append_end(fault)),
            }
        }
        Err(fault) => Err(named_end(fault)),
    }
}

/// The end of a command whose lines aren't all appended. A core that was just opened fails in an append by its disk, its
/// limits or want of memory alone.
fn append_end(fault: AppendFault) -> Outcome
    ensures { result ≡ append_end fault }
{
    match fault {
        AppendFault::ReadFault => Outcome::ReadFault,
        AppendFault::TooLong => Outcome::Limit {
            what: What::Block,
            max: MAX_BLOCK_BYTES,
        },
        AppendFault::Core(CoreFault::StoreFault) => Outcome::StoreFault,
        AppendFault::Core(CoreFault::Limit { what, max }) => Outcome::Limit { what, max },
        AppendFault::Core(_) => Outcome::NoMemory,
    }
}
