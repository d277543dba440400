//! Nodes that no entry has are read of the tree area.
ghost use Rattle.std.specs.Prelude.{◌≡◌, ◌≤◌, ◌<◌, ℕ, IsTrue, IfOk, IfErr, OnOk, OnErr, length as count};
ghost use Rattle.std.specs.Int.{w64, from_le_bytes};
ghost use Rattle.flat_tree.specs.declared.limits.TheConstants.{MAX_BLOCKS as MOST};
ghost use Rattle.disk_trait.specs.declared.disk.Area.TheVariants.{Tree};
ghost use Rattle.bit_field.specs.Places.{has};
ghost use Rattle.node_set.specs.Nodes.{values_of, with_node, with_nodes};
ghost use Rattle.node_set.specs.declared.fault.CoreFault.TheVariants.{Memory as NoMemory};
ghost use Rattle.oplog_file.specs.Passing.{Consults};
ghost use Rattle.core_disk.specs.InHand.{opened_of};
ghost use Rattle.core_disk.specs.Laid.{IsRooted};
ghost use Rattle.core_disk.specs.Areas.{twig_from};
ghost use Rattle.core_disk.specs.Filling.{Fills, AreSmall, KeepsValues, ChecksSize, ReadsNode, FillsAt, FillsAll};

use crate::layout::NODE_BYTES;
use crate::replay::{DiskState, MAX_NODES};
use bit_field::Bits;
use disk_trait::{Area, Disk};
use flat_tree::MAX_CORE_BYTES;
use merkle_nodes::{Node, Twig};
use node_set::{CoreFault, Nodes, is_stored};
use outside_traits::Memory;
use std::alloc::Global;

impl DiskState {
    /// Puts the roots among the nodes, and reads of the tree area each other node that is to be stored and has no record. After
    /// an `Err` some of them are there.
    pub(crate) fn fill<D: Disk>(&mut self, alloc: Global, disk: &mut D) -> Result<(), CoreFault>
        ensures head { self.new.head ≡ self.old.head }
        ensures roots { self.new.roots ≡ self.old.roots }
        ensures rooted { OnOk result (IsRooted (opened_of self.new)) }
        ensures fills { IsTrue (D.disk disk.old).honest → AreSmall (opened_of self.old).nodes
            → Fills ((D.disk disk.old).reads Tree) (opened_of self.old) (opened_of self.new) result }
        ensures consults { Consults (D.disk disk.old) (D.disk disk.new) result }
    {
        match put_roots(alloc, self.roots.as_slice(), &mut self.nodes) {
            Ok(()) => {}
            Err(Memory) => return Err(CoreFault::Memory),
        }
        fill_nodes(alloc, disk, self.head.length, &self.held, &mut self.nodes)
    }
}

// Puts the roots at their places, each over a record.
fn put_roots(alloc: Global, roots: &[Node], nodes: &mut Nodes) -> Result<(), Memory>
    ensures { OnOk result (values_of nodes.new ≡ with_nodes (values_of nodes.old) roots.now) }
{
    match nodes.reserve_all(alloc, roots) {
        Ok(()) => {
            nodes.insert_all(roots);
            Ok(())
        }
        Err(Memory) => Err(Memory),
    }
}

// Reads each node that is to be stored and isn't there, in ascending order of their numbers.
fn fill_nodes<D: Disk>(
    alloc: Global,
    disk: &mut D,
    length: u64,
    held: &Bits,
    nodes: &mut Nodes,
) -> Result<(), CoreFault>
    requires few { length ≤ MOST }
    requires places { count held.now ≡ MOST }
    ensures kept { KeepsValues (values_of nodes.old) (values_of nodes.new) }
    ensures fills { IsTrue (D.disk disk.old).honest → FillsAll ((D.disk disk.old).reads Tree) length
        (has held.now) (values_of nodes.old) (values_of nodes.new) result }
    ensures consults { Consults (D.disk disk.old) (D.disk disk.new) result }
{
    for index in 0..2 * length {
        match fill_node(alloc, disk, length, held, index, nodes) {
            Ok(()) => {}
            Err(fault) => return Err(fault),
        }
    }
    Ok(())
}

// Reads a node where it is to be stored and isn't there.
fn fill_node<D: Disk>(
    alloc: Global,
    disk: &mut D,
    length: u64,
    held: &Bits,
    index: u64,
    nodes: &mut Nodes,
) -> Result<(), CoreFault>
    requires few { length ≤ MOST }
    requires places { count held.now ≡ MOST }
    requires within { index < MAX_NODES }
    ensures kept { KeepsValues (values_of nodes.old) (values_of nodes.new) }
    ensures fills { IsTrue (D.disk disk.old).honest → FillsAt ((D.disk disk.old).reads Tree) length
        (has held.now) index (values_of nodes.old) (values_of nodes.new) result }
    ensures consults { Consults (D.disk disk.old) (D.disk disk.new) result }
{
    // in a store that this program made each has a record, so the table is asked before the closure
    if nodes.get(index).is_some() {
        return Ok(());
    }
    if !is_stored(length, held, index) {
        return Ok(());
    }
    match read_node(disk, index) {
        Ok(node) => put_node(alloc, &node, nodes),
        Err(fault) => Err(fault),
    }
}

fn put_node(alloc: Global, node: &Node, nodes: &mut Nodes) -> Result<(), CoreFault>
    ensures ok { OnOk result (values_of nodes.new ≡ with_node (values_of nodes.old) node.now) }
    ensures err { OnErr result (values_of nodes.new ≡ values_of nodes.old) }
    ensures memory { IfErr result (λ fault. fault ≡ NoMemory) }
{
    match nodes.put(alloc, node) {
        Ok(()) => Ok(()),
        Err(Memory) => Err(CoreFault::Memory),
    }
}

// Reads the node of a number of the tree area. Bytes past the area's end count as zeros.
fn read_node<D: Disk>(disk: &mut D, index: u64) -> Result<Node, CoreFault>
    requires within { index < MAX_NODES }
    ensures node { IsTrue (D.disk disk.old).honest
        → ReadsNode ((D.disk disk.old).reads Tree) index result }
    ensures numbered { IfOk result (λ node. node.index ≡ index) }
    ensures consults { Consults (D.disk disk.old) (D.disk disk.new) result }
{
    let at = index * NODE_BYTES as u64;
    let mut bytes = [0; NODE_BYTES];
    match disk.read(Area::Tree, at, &mut bytes) {
        Ok(_) => checked(at, twig_from(&bytes).numbered(index)),
        Err(_) => Err(CoreFault::StoreFault),
    }
}

// A node that stands at a place of the tree area, where its size is no larger than a core's.
fn checked(at: u64, node: Node) -> Result<Node, CoreFault>
    ensures { ChecksSize at node result }
{
    if node.size > MAX_CORE_BYTES {
        return Err(CoreFault::BadStore {
            area: Area::Tree,
            at,
        });
    }
    Ok(node)
}

// A size and a hash from their bytes.
fn twig_from(bytes: &[u8; NODE_BYTES]) -> Twig
    ensures { result ≡ twig_from bytes.now }
{
    let mut hash = [0; 32];
    hash.copy_from_slice(&bytes[8..]);
    Twig {
        size: size_from(&bytes[..8]),
        hash,
    }
}

fn size_from(bytes: &[u8]) -> u64
    requires { count bytes.now ≡ 8 }
    ensures { result ≡ from_le_bytes w64 bytes.now }
{
    u64::from_le_bytes([
        bytes[0], bytes[1], bytes[2], bytes[3], bytes[4], bytes[5], bytes[6], bytes[7],
    ])
}
