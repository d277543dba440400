//! A core's disk is opened, or made anew, in the whole order of it.
ghost use Rattle.std.specs.Prelude.{◌≡◌, ◌⊎◌, ◌↔◌, ◌<◌, ◌≤◌, ℕ, Bool, List, IsTrue, IfOk, IfErr, OnOk, false};
ghost use Rattle.flat_tree.specs.declared.limits.TheConstants.{MAX_BLOCKS as MOST};
ghost use Rattle.disk_trait.specs.declared.disk.Area.{Area as OneArea};
ghost use Rattle.disk_trait.specs.declared.disk.Area.TheVariants.{Oplog, Tree, Blocks as BlocksArea};
ghost use Rattle.disk_trait.specs.Disk.{IsSynced, IsSettled, is_same};
ghost use Rattle.disk_trait.specs.Runs.{LeavesOnly};
ghost use Rattle.node_set.specs.Contents.{Content, start};
ghost use Rattle.node_set.specs.declared.fault.CoreFault.TheVariants.{Memory, StoreFault};
ghost use Rattle.oplog_form.specs.Headers.{HeaderFits, header_spelling};
ghost use Rattle.oplog_file.specs.Files.{File, IsFile};
ghost use Rattle.oplog_file.specs.Opening.{Counts};
ghost use Rattle.oplog_file.specs.Passing.{Consults};
ghost use Rattle.oplog_file.specs.Writers.{IsBehind, IsInFront, CutsTail};
ghost use Rattle.core_disk.specs.Areas.{new_header};
ghost use Rattle.core_disk.specs.InHand.{opened_of};
ghost use Rattle.core_disk.specs.Laid.{IsRooted};
ghost use Rattle.core_disk.specs.Standing.{IsOpenedAs, StandsFor};
ghost use Rattle.core_disk.specs.Firm.{IsFirmFor};
ghost use Rattle.core_disk.specs.Filling.{AreSmall};
ghost use Rattle.core_disk.specs.Parts.{KeepsCounts, turn_of, IsCleared, AreCleared, HasNewFile, HasSignedHead, Loads, Completes, Finishes, OpensStore, StayOrStand};

use crate::opening::{replay_all, start_state};
use crate::replay::DiskState;
use bit_field::Bits;
use blake2b_hash::Blake2b;
use disk_trait::{Area, Disk};
use flat_tree::MAX_BLOCKS;
use merkle_nodes::{Head, Node, Roots, root_hash, signable};
use node_set::CoreFault;
use oplog_file::{OplogFile, open_at};
use oplog_form::Header;
use outside_traits::Verifier;
use std::alloc::Global;

/// Opens the disk of the core of an id: gives its change file behind the last entry, and what is in memory of it, with each node
/// that is to be stored. What stands behind the last entry is cut off. An `Err` tells the first place that is bad: where no header
/// passes, 0 of the change file; the header's bad field, or its id where that is another core's; `Damaged` where its copy of the
/// bits has another hash; the bad field of an entry, or an entry that doesn't follow; then `BadSignature`; then the node in the
/// tree area whose size is above a core's.
pub(crate) fn open_parts<D: Disk, A: Verifier>(
    alloc: Global,
    disk: &mut D,
    id: &[u8; 32],
    verifier: &A,
) -> Result<(OplogFile, DiskState), CoreFault>
    ensures opens { IsTrue (D.disk disk.old).honest
        → OpensStore (A.accepts verifier.now) id.now (D.disk disk.old).reads result }
    ensures signed { IfOk result (λ opened.
        HasSignedHead (A.accepts verifier.now) (opened_of opened.1)) }
    ensures rooted { IfOk result (λ opened. IsRooted (opened_of opened.1)) }
    ensures firm { (m : Content) → IsTrue (D.disk disk.old).honest
        → StandsFor (A.accepts verifier.now) id.now (D.disk disk.old).reads m
        → IfOk result (λ opened.
        IsFirmFor (A.accepts verifier.now) id.now (D.disk disk.new) opened.0 m) }
    ensures opened { (m : Content) → IsTrue (D.disk disk.old).honest
        → StandsFor (A.accepts verifier.now) id.now (D.disk disk.old).reads m
        → IfOk result (λ opened. IsOpenedAs (opened_of opened.1) m) }
    ensures gives { (m : Content) → IsTrue (D.disk disk.old).honest
        → StandsFor (A.accepts verifier.now) id.now (D.disk disk.old).reads m
        → IfErr result (λ fault. (fault ≡ Memory) ⊎ (fault ≡ StoreFault)) }
    ensures blocks { IsTrue (D.disk disk.old).honest
        → (D.disk disk.new).reads BlocksArea ≡ (D.disk disk.old).reads BlocksArea }
    ensures any_moment { (m : Content) → IsTrue (D.disk disk.old).honest
        → StandsFor (A.accepts verifier.now) id.now (D.disk disk.old).reads m
        → LeavesOnly (D.disk disk.old) (D.disk disk.new)
        (StayOrStand (A.accepts verifier.now) id.now (D.disk disk.old) m) }
    ensures counts { KeepsCounts (D.disk disk.old) (D.disk disk.new) result }
{
    match sync_all(disk) {
        Ok(()) => open_synced(alloc, disk, id, verifier),
        Err(fault) => Err(fault),
    }
}

/// Makes the disk of the core of an id anew, with the content that was never changed. What the disk had is given up, also where an
/// `Err` comes once memory was taken.
pub(crate) fn make_parts<D: Disk>(
    alloc: Global,
    disk: &mut D,
    id: &[u8; 32],
) -> Result<(OplogFile, DiskState), CoreFault>
    ensures firm { (accepts : List ℕ → List ℕ → Bool) → IsTrue (D.disk disk.old).honest
        → IfOk result (λ made. IsFirmFor accepts id.now (D.disk disk.new) made.0 start) }
    ensures cleared { IsTrue (D.disk disk.old).honest
        → OnOk result (AreCleared (turn_of Oplog) (D.disk disk.new)) }
    ensures opened { IfOk result (λ made. IsOpenedAs (opened_of made.1) start) }
    ensures rooted { IfOk result (λ made. IsRooted (opened_of made.1)) }
    ensures fault { IfErr result (λ fault. (fault ≡ Memory) ⊎ (fault ≡ StoreFault)) }
    ensures counts { KeepsCounts (D.disk disk.old) (D.disk disk.new) result }
{
    let header = new_header(id);
    let Ok(held) = Bits::new(alloc, MAX_BLOCKS) else {
        return Err(CoreFault::Memory);
    };
    let state = DiskState::new(alloc, &header, held);
    match make_file(alloc, disk, &header) {
        Ok(file) => Ok((file, state)),
        Err(fault) => Err(fault),
    }
}

// The same once each area is synced.
fn open_synced<D: Disk, A: Verifier>(
    alloc: Global,
    disk: &mut D,
    id: &[u8; 32],
    verifier: &A,
) -> Result<(OplogFile, DiskState), CoreFault>
    ensures opens { IsTrue (D.disk disk.old).honest
        → OpensStore (A.accepts verifier.now) id.now (D.disk disk.old).reads result }
    ensures signed { IfOk result (λ opened.
        HasSignedHead (A.accepts verifier.now) (opened_of opened.1)) }
    ensures rooted { IfOk result (λ opened. IsRooted (opened_of opened.1)) }
    ensures firm { (m : Content) → IsTrue (D.disk disk.old).honest → IsSettled (D.disk disk.old)
        → StandsFor (A.accepts verifier.now) id.now (D.disk disk.old).reads m
        → IfOk result (λ opened.
        IsFirmFor (A.accepts verifier.now) id.now (D.disk disk.new) opened.0 m) }
    ensures blocks { IsTrue (D.disk disk.old).honest
        → (D.disk disk.new).reads BlocksArea ≡ (D.disk disk.old).reads BlocksArea }
    ensures any_moment { (m : Content) → IsTrue (D.disk disk.old).honest → IsSettled (D.disk disk.old)
        → StandsFor (A.accepts verifier.now) id.now (D.disk disk.old).reads m
        → LeavesOnly (D.disk disk.old) (D.disk disk.new)
        (λ areas. StandsFor (A.accepts verifier.now) id.now areas m) }
    ensures counts { KeepsCounts (D.disk disk.old) (D.disk disk.new) result }
{
    match load(alloc, disk, id) {
        Ok((file, state)) => finish(alloc, disk, verifier, file, state),
        Err(fault) => Err(fault),
    }
}

// Syncs each area, since an earlier run may have ended with a fault; the change file last, whose entries stand on the others.
fn sync_all<D: Disk>(disk: &mut D) -> Result<(), CoreFault>
    ensures settled { IsTrue (D.disk disk.old).honest → OnOk result (IsSettled (D.disk disk.new)) }
    ensures store { IfErr result (λ fault. fault ≡ StoreFault) }
    ensures consults { Consults (D.disk disk.old) (D.disk disk.new) result }
{
    for turn in 0..5 {
        match sync(disk, area_at(turn)) {
            Ok(()) => {}
            Err(fault) => return Err(fault),
        }
    }
    Ok(())
}

// The area whose turn it is.
fn area_at(turn: u64) -> Area
    requires within { turn < 5 }
    ensures turn { turn_of result ≡ turn }
    ensures only { (area : OneArea) → turn_of area ≡ turn → result ≡ area }
{
    match turn {
        0 => Area::Tree,
        1 => Area::BitsA,
        2 => Area::BitsB,
        3 => Area::Blocks,
        _ => Area::Oplog,
    }
}

fn sync<D: Disk>(disk: &mut D, area: Area) -> Result<(), CoreFault>
    ensures synced { IsTrue (D.disk disk.old).honest → OnOk result (IsSynced area (D.disk disk.new)) }
    ensures store { IfErr result (λ fault. fault ≡ StoreFault) }
    ensures consults { Consults (D.disk disk.old) (D.disk disk.new) result }
{
    match disk.sync(area) {
        Ok(()) => Ok(()),
        Err(_) => Err(CoreFault::StoreFault),
    }
}

// The header of a new store.
fn new_header(id: &[u8; 32]) -> Header
    ensures { result ≡ new_header id.now }
{
    Header {
        id: *id,
        head: Head {
            fork: 0,
            length: 0,
            signature: [0; 64],
        },
        roots: Roots::new(Node::BLANK),
        bits: Blake2b::new256().finalize256(),
    }
}

// Empties the areas that no entry is in, and makes the change file with this header.
fn make_file<D: Disk>(alloc: Global, disk: &mut D, header: &Header) -> Result<OplogFile, CoreFault>
    requires fits { HeaderFits header.now }
    ensures front { IfOk result (λ file. IsInFront file 0) }
    ensures makes { IsTrue (D.disk disk.old).honest
        → OnOk result (HasNewFile (header_spelling header.now) (D.disk disk.new)) }
    ensures fault { IfErr result (λ fault. (fault ≡ Memory) ⊎ (fault ≡ StoreFault)) }
    ensures counts { KeepsCounts (D.disk disk.old) (D.disk disk.new) result }
{
    // Only once they are empty in each crash, the header may stand that tells so.
    match clear_rest(disk) {
        Ok(()) => OplogFile::make_new(alloc, disk, header),
        Err(fault) => Err(fault),
    }
}

// Empties each area but the change file's.
fn clear_rest<D: Disk>(disk: &mut D) -> Result<(), CoreFault>
    ensures cleared { IsTrue (D.disk disk.old).honest
        → OnOk result (AreCleared (turn_of Oplog) (D.disk disk.new)) }
    ensures store { IfErr result (λ fault. fault ≡ StoreFault) }
    ensures counts { KeepsCounts (D.disk disk.old) (D.disk disk.new) result }
{
    for turn in 0..4 {
        match clear(disk, area_at(turn)) {
            Ok(()) => {}
            Err(fault) => return Err(fault),
        }
    }
    Ok(())
}

fn clear<D: Disk>(disk: &mut D, area: Area) -> Result<(), CoreFault>
    ensures cleared { IsTrue (D.disk disk.old).honest
        → OnOk result (IsCleared area (D.disk disk.new)) }
    ensures others { IsTrue (D.disk disk.old).honest → (other : OneArea) → is_same area other ≡ false
        → IsCleared other (D.disk disk.old) → IsCleared other (D.disk disk.new) }
    ensures store { IfErr result (λ fault. fault ≡ StoreFault) }
    ensures counts { KeepsCounts (D.disk disk.old) (D.disk disk.new) result }
{
    match disk.cut(area, 0) {
        Ok(()) => sync(disk, area),
        Err(_) => Err(CoreFault::StoreFault),
    }
}

// The change file behind its last entry, and what the areas give but for the nodes of the tree area, of which none is read.
fn load<D: Disk>(
    alloc: Global,
    disk: &mut D,
    id: &[u8; 32],
) -> Result<(OplogFile, DiskState), CoreFault>
    ensures loads { IsTrue (D.disk disk.old).honest → Loads id.now (D.disk disk.old).reads result }
    ensures behind { (whole : File) → IsTrue (D.disk disk.old).honest
        → IsFile ((D.disk disk.old).reads Oplog) whole
        → IfOk result (λ loaded. IsBehind loaded.0 whole) }
    ensures consults { Consults (D.disk disk.old) (D.disk disk.new) result }
{
    match open_at(alloc, disk) {
        Ok((file, header)) => load_behind(alloc, disk, id, file, &header),
        Err(fault) => Err(fault),
    }
}

// The same behind a header that counts.
fn load_behind<D: Disk>(
    alloc: Global,
    disk: &mut D,
    id: &[u8; 32],
    mut file: OplogFile,
    header: &Header,
) -> Result<(OplogFile, DiskState), CoreFault>
    requires fits { HeaderFits header.now }
    requires front { IsInFront file file.epoch }
    ensures loads { IsTrue (D.disk disk.old).honest
        → Counts ((D.disk disk.old).reads Oplog) file.epoch header.now
        → Loads id.now (D.disk disk.old).reads result }
    ensures behind { (whole : File) → IsTrue (D.disk disk.old).honest
        → IsFile ((D.disk disk.old).reads Oplog) whole → file.epoch ≡ whole.header.epoch
        → IfOk result (λ loaded. IsBehind loaded.0 whole) }
    ensures consults { Consults (D.disk disk.old) (D.disk disk.new) result }
{
    let mut state = match start_state(alloc, disk, id, file.epoch(), header) {
        Ok(state) => state,
        Err(fault) => return Err(fault),
    };
    match replay_all(alloc, disk, &mut file, &mut state) {
        Ok(()) => Ok((file, state)),
        Err(fault) => Err(fault),
    }
}

// What is to be done once the change file was replayed.
fn finish<D: Disk, A: Verifier>(
    alloc: Global,
    disk: &mut D,
    verifier: &A,
    file: OplogFile,
    mut state: DiskState,
) -> Result<(OplogFile, DiskState), CoreFault>
    ensures few { (opened_of state).head.length ≤ MOST }
    ensures completes { (whole : File) → IsTrue (D.disk disk.old).honest → IsBehind file whole
        → AreSmall (opened_of state).nodes
        → Finishes (A.accepts verifier.now) ((D.disk disk.old).reads Tree) (opened_of state) result }
    ensures place { IfOk result (λ opened. opened.0 ≡ file) }
    ensures cuts { (whole : File) → IsTrue (D.disk disk.old).honest → IsBehind file whole
        → CutsTail whole (D.disk disk.old) (D.disk disk.new) result }
    ensures signed { IfOk result (λ opened.
        HasSignedHead (A.accepts verifier.now) (opened_of opened.1)) }
    ensures rooted { IfOk result (λ opened. IsRooted (opened_of opened.1)) }
    ensures counts { KeepsCounts (D.disk disk.old) (D.disk disk.new) result }
{
    match file.cut_tail(disk) {
        Ok(()) => {}
        Err(fault) => return Err(fault),
    }
    match complete(alloc, disk, verifier, &mut state) {
        Ok(()) => Ok((file, state)),
        Err(fault) => Err(fault),
    }
}

// Verifies the head's signature, and last puts the nodes in that no entry has.
fn complete<D: Disk, A: Verifier>(
    alloc: Global,
    disk: &mut D,
    verifier: &A,
    state: &mut DiskState,
) -> Result<(), CoreFault>
    ensures few { (opened_of state.old).head.length ≤ MOST }
    ensures completes { IsTrue (D.disk disk.old).honest → AreSmall (opened_of state.old).nodes
        → Completes (A.accepts verifier.now) ((D.disk disk.old).reads Tree)
        (opened_of state.old) (opened_of state.new) result }
    ensures signed { OnOk result (HasSignedHead (A.accepts verifier.now) (opened_of state.new)) }
    ensures rooted { OnOk result (IsRooted (opened_of state.new)) }
    ensures consults { Consults (D.disk disk.old) (D.disk disk.new) result }
{
    if !state.has_signed_head(verifier) {
        return Err(CoreFault::BadSignature);
    }
    state.fill(alloc, disk)
}

impl DiskState {
    // Whether the verifier accepts the head over the roots, or it was never signed.
    fn has_signed_head<A: Verifier>(&self, verifier: &A) -> bool
        ensures signed { IsTrue result ↔ HasSignedHead (A.accepts verifier.now) (opened_of self.now) }
        ensures few { (opened_of self.now).head.length ≤ MOST }
    {
        let Head {
            fork,
            length,
            signature,
        } = self.head;
        if fork == 0 && length == 0 && signature == [0; 64] {
            return true;
        }
        verifier.verify(&signable(&root_hash(&self.roots), length, fork), &signature)
    }
}
