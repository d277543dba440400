//! Cores by their names.
ghost use Rattle.std.specs.Prelude.{◌≡◌, false, true, IsTrue, OnOk, IfErr};
ghost use Rattle.node_set.specs.declared.fault.CoreFault.TheVariants.{StoreFault};
ghost use Rattle.core_shelf.specs.Shelf.{Counts, KeepsOut, KeepsList, KeepsDisks, Others, CountsIn, Gives};
ghost use Rattle.core_shelf.specs.Named.{key_of, id_of, core_fault_of, IsHome, CallsFor, Stays, RefusesListed, Opens, Makes, RefusesOr, IsRefused};

use crate::fault::{NamedFault, ShelfFault};
use crate::shelf::Shelf;
use core_keys::{DEFAULT_NAMESPACE, discovery, name_key};
use core_state::OpenCore;
use node_set::CoreFault;
use outside_traits::{Failed, Keys};
use std::alloc::Global;

/// Opens the core of a name in the default namespace. With Ok its disk is out of the shelf, in the core; with a fault it
/// is on the shelf. A fault of the list comes before `NoCore`.
pub fn open_named<X: OpenCore<H::Store, K::Auth>, H: Shelf, K: Keys>(
    alloc: Global,
    shelf: &mut H,
    keys: &K,
    primary: &[u8; 32],
    name: &[u8],
) -> Result<X, NamedFault>
    requires { IsHome (id_of (K.public_of keys.now) primary.now name.now) (H.shelf shelf.old) }
    ensures opens { let id = id_of (K.public_of keys.now) primary.now name.now in
        let accepts = K.key_accepts keys.now (key_of primary.now name.now) in
        let old = H.shelf shelf.old in
        let new = H.shelf shelf.new in
        RefusesOr NamedFault.NoCore (IsTrue old.honest → Stays id old new)
        (Opens H.Store.disk X.disk_of (X.IsOpened accepts id) (X.OpenFails accepts id) id old new)
        result }
    ensures no_core { let id = id_of (K.public_of keys.now) primary.now name.now in
        IsTrue (H.shelf shelf.old).honest
        → IsRefused NamedFault.NoCore ((H.shelf shelf.old).marked id ≡ false) result }
    ensures list { IsTrue (H.shelf shelf.old).honest
        → KeepsList (H.shelf shelf.old) (H.shelf shelf.new) }
    ensures calls { let id = id_of (K.public_of keys.now) primary.now name.now in
        CallsFor (NamedFault.Core StoreFault) id (H.shelf shelf.old) (H.shelf shelf.new) result }
{
    let (key, id) = key_and_id(keys, primary, name);
    match shelf.has(&id) {
        Ok(true) => {}
        Ok(false) => return Err(NamedFault::NoCore),
        Err(Failed) => return Err(NamedFault::Core(CoreFault::StoreFault)),
    }
    let disk = match shelf.take_disk(alloc, &id) {
        Ok(disk) => disk,
        Err(fault) => return Err(NamedFault::Core(core_fault(fault))),
    };
    match X::open_store(alloc, disk, &id, keys.auth(&key)) {
        Ok(core) => Ok(core),
        Err((fault, disk)) => {
            shelf.give_disk(&id, disk);
            Err(NamedFault::Core(fault))
        }
    }
}

// The key of the core of a name, and its id.
fn key_and_id<K: Keys>(keys: &K, primary: &[u8; 32], name: &[u8]) -> ([u8; 32], [u8; 32])
    ensures key { result.0 ≡ key_of primary.now name.now }
    ensures id { result.1 ≡ id_of (K.public_of keys.now) primary.now name.now }
{
    let key = name_key(primary, &DEFAULT_NAMESPACE, name);
    (key, discovery(&keys.public(&key)))
}

// A fault of the shelf, as one of a core.
fn core_fault(fault: ShelfFault) -> CoreFault
    ensures { result ≡ core_fault_of fault }
{
    match fault {
        ShelfFault::Memory => CoreFault::Memory,
        ShelfFault::Failed => CoreFault::StoreFault,
    }
}

// Refuses an id that is on the list.
fn refuse_listed<H: Shelf>(shelf: &mut H, id: &[u8; 32]) -> Result<(), NamedFault>
    ensures counts { Counts (H.shelf shelf.old) (H.shelf shelf.new) }
    ensures out { KeepsOut (H.shelf shelf.old) (H.shelf shelf.new) }
    ensures ok { IsTrue (H.shelf shelf.old).honest
        → OnOk result ((H.shelf shelf.old).marked id.now ≡ false) }
    ensures err { IfErr result (RefusesListed id.now (H.shelf shelf.old) (H.shelf shelf.new)) }
    ensures list { IsTrue (H.shelf shelf.old).honest
        → KeepsList (H.shelf shelf.old) (H.shelf shelf.new) }
    ensures disks { IsTrue (H.shelf shelf.old).honest
        → KeepsDisks (H.shelf shelf.old) (H.shelf shelf.new) }
{
    match shelf.has(id) {
        Ok(false) => Ok(()),
        Ok(true) => Err(NamedFault::CoreExists),
        Err(Failed) => Err(NamedFault::Core(CoreFault::StoreFault)),
    }
}

/// Makes the core of a name in the default namespace, and then puts it on the list. With Ok its disk is out of the shelf,
/// in the core; with a fault it is on the shelf. A fault of the list comes before `CoreExists`. Where the id is on the
/// list, nothing is changed.
pub fn make_named<X: OpenCore<H::Store, K::Auth>, H: Shelf, K: Keys>(
    alloc: Global,
    shelf: &mut H,
    keys: &K,
    primary: &[u8; 32],
    name: &[u8],
) -> Result<X, NamedFault>
    requires { IsHome (id_of (K.public_of keys.now) primary.now name.now) (H.shelf shelf.old) }
    ensures makes { let id = id_of (K.public_of keys.now) primary.now name.now in
        let accepts = K.key_accepts keys.now (key_of primary.now name.now) in
        let old = H.shelf shelf.old in
        let new = H.shelf shelf.new in
        RefusesOr NamedFault.CoreExists (IsTrue old.honest → Stays id old new)
        (Makes H.Store.disk X.disk_of (X.IsMade accepts id) (X.MakeFails accepts id) id old new)
        result }
    ensures core_exists { let id = id_of (K.public_of keys.now) primary.now name.now in
        IsTrue (H.shelf shelf.old).honest
        → IsRefused NamedFault.CoreExists ((H.shelf shelf.old).marked id ≡ true) result }
    ensures kept { let id = id_of (K.public_of keys.now) primary.now name.now in
        IsTrue (H.shelf shelf.old).honest → (H.shelf shelf.old).marked id ≡ true
        → Stays id (H.shelf shelf.old) (H.shelf shelf.new) }
    ensures marked { let id = id_of (K.public_of keys.now) primary.now name.now in
        IsTrue (H.shelf shelf.old).honest → OnOk result ((H.shelf shelf.new).marked id ≡ true) }
    ensures list { let id = id_of (K.public_of keys.now) primary.now name.now in
        IsTrue (H.shelf shelf.old).honest
        → Others id (λ other. (H.shelf shelf.new).marked other ≡ (H.shelf shelf.old).marked other) }
    ensures calls { let id = id_of (K.public_of keys.now) primary.now name.now in
        CallsFor (NamedFault.Core StoreFault) id (H.shelf shelf.old) (H.shelf shelf.new) result }
{
    let (key, id) = key_and_id(keys, primary, name);
    if let Err(fault) = refuse_listed(shelf, &id) {
        return Err(fault);
    }
    let disk = match shelf.take_disk(alloc, &id) {
        Ok(disk) => disk,
        Err(fault) => return Err(NamedFault::Core(core_fault(fault))),
    };
    // Another program may have made the core before this one had its disk.
    if let Err(fault) = refuse_listed(shelf, &id) {
        shelf.give_disk(&id, disk);
        return Err(fault);
    }
    let core = match X::make_new(alloc, disk, &id, keys.auth(&key)) {
        Ok(core) => core,
        Err((fault, disk)) => {
            shelf.give_disk(&id, disk);
            return Err(NamedFault::Core(fault));
        }
    };
    // The mark comes last, so that no id is on the list without a core on its disk.
    match shelf.mark(&id) {
        Ok(()) => Ok(core),
        Err(fault) => {
            shelf.give_disk(&id, core.into_disk());
            Err(NamedFault::Core(core_fault(fault)))
        }
    }
}

/// Puts the disk of a core that was made or opened by a name back on the shelf. The count of faults rises where the
/// disk's rose since it went out.
pub fn close_named<X: OpenCore<H::Store, K::Auth>, H: Shelf, K: Keys>(
    shelf: &mut H,
    keys: &K,
    primary: &[u8; 32],
    name: &[u8],
    core: X,
)
    requires { IsTrue (H.shelf shelf.old).honest
        → (H.shelf shelf.old).out (id_of (K.public_of keys.now) primary.now name.now) ≡ true }
    ensures counts { Counts (H.shelf shelf.old) (H.shelf shelf.new) }
    ensures out { let id = id_of (K.public_of keys.now) primary.now name.now in
        CountsIn (X.disk_of core) id (H.shelf shelf.old) (H.shelf shelf.new) }
    ensures gives { let id = id_of (K.public_of keys.now) primary.now name.now in
        IsTrue (H.shelf shelf.old).honest
        → Gives (X.disk_of core) id (H.shelf shelf.old) (H.shelf shelf.new) }
{
    let (_, id) = key_and_id(keys, primary, name);
    shelf.give_disk(&id, core.into_disk());
}
