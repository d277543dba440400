//! The command `init KEY NAME`.
ghost use Rattle.std.specs.Prelude.{◌≡◌};
ghost use Rattle.core_shelf.specs.Named.{id_of, IsHome};
ghost use Rattle.hypercore_cli.specs.Cores.{core_of, KeepsRest};
ghost use Rattle.hypercore_cli.specs.Inits.{InitsTo, MakesNew};

use crate::faults::named_end;
use crate::line::id_line;
use crate::outcome::Outcome;
use core_disk::DiskCore;
use core_keys::{DEFAULT_NAMESPACE, discovery, name_key};
use core_shelf::{NamedFault, Shelf, close_named, make_named};
use outside_traits::{Keys, Sink, write_all};
use std::alloc::Global;

/// Makes the core of a name, and writes its id.
pub fn init<H: Shelf, K: Keys, O: Sink>(
    alloc: Global,
    key: &[u8; 32],
    name: &[u8],
    shelf: &mut H,
    keys: &K,
    output: &mut O,
) -> Outcome
    requires { IsHome (id_of (K.public_of keys.now) key.now name.now) (H.shelf shelf.old) }
    ensures inits { InitsTo (core_of (K.key_accepts keys.now) (K.public_of keys.now) key.now name.now
        (H.shelf shelf.old) (H.shelf shelf.new)) (O.sink output.old) (O.sink output.new) result }
    ensures rest { KeepsRest (core_of (K.key_accepts keys.now) (K.public_of keys.now) key.now name.now
        (H.shelf shelf.old) (H.shelf shelf.new)) }
{
    if let Err(outcome) = make(alloc, key, name, shelf, keys) {
        return outcome;
    }
    let id = discovery(&keys.public(&name_key(key, &DEFAULT_NAMESPACE, name)));
    match write_all(output, id_line(&id).as_slice()) {
        Ok(()) => Outcome::Done,
        Err(_) => Outcome::WriteFault,
    }
}

/// Makes the core of a name. Its disk is then on the shelf.
fn make<H: Shelf, K: Keys>(
    alloc: Global,
    key: &[u8; 32],
    name: &[u8],
    shelf: &mut H,
    keys: &K,
) -> Result<(), Outcome>
    requires { IsHome (id_of (K.public_of keys.now) key.now name.now) (H.shelf shelf.old) }
    ensures makes { MakesNew (core_of (K.key_accepts keys.now) (K.public_of keys.now) key.now name.now
        (H.shelf shelf.old) (H.shelf shelf.new)) result }
    ensures rest { KeepsRest (core_of (K.key_accepts keys.now) (K.public_of keys.now) key.now name.now
        (H.shelf shelf.old) (H.shelf shelf.new)) }
{
    let made: Result<DiskCore<H::Store, K::Auth>, NamedFault> = make_named(
        alloc, shelf, keys, key, name,
    );
    match made {
        Ok(core) => {
            close_named(shelf, keys, key, name, core);
            Ok(())
        }
        Err(fault) => Err(named_end(fault)),
    }
}
