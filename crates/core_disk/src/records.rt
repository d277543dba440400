//! Walks over an entry's records.
ghost use Rattle.std.specs.Prelude.{◌≡◌, ◌<◌, ◌≤◌, ℕ, true, None, IfSome, OnOk, nat_eq, if◌then◌else◌};
ghost use Rattle.std.specs.Prelude.{Some as Found};
ghost use Rattle.std.specs.Option.{option_map};
ghost use Rattle.std.specs.List.{AllByRecursion};
ghost use Rattle.flat_tree.specs.Subtrees.{number};
ghost use Rattle.flat_tree.specs.declared.limits.TheConstants.{MAX_BLOCKS, MAX_CORE_BYTES};
ghost use Rattle.merkle_nodes.specs.declared.node.Node.{Node};
ghost use Rattle.merkle_nodes.specs.Roots.{twig_of};
ghost use Rattle.oplog_form.specs.Nodes.{RecordFits};
ghost use Rattle.node_set.specs.Nodes.{has_place, values_of, with_node, with_nodes};
ghost use Rattle.core_disk.specs.Opened.{values_in};
ghost use Rattle.core_disk.specs.InHand.{last_of, AgreeWithin, HavePlaces, GivesRoots};

use crate::replay::MAX_NODES;
use flat_tree::full_roots;
use merkle_nodes::{Node, Roots};
use node_set::Nodes;
use oplog_form::Records;
use outside_traits::Memory;
use std::alloc::Global;

/// Makes a place for each record's node. Without memory the nodes that are in stay.
pub(crate) fn make_places(
    alloc: Global,
    records: &Records<'_>,
    nodes: &mut Nodes,
) -> Result<(), Memory>
    ensures places { OnOk result (HavePlaces nodes.new records.now) }
    ensures same { values_of nodes.new ≡ values_of nodes.old }
{
    let mut ahead = records.first();
    for _ in 0..records.len() {
        let Some((node, rest)) = ahead else {
            return Ok(());
        };
        match make_place(alloc, node.index, nodes) {
            Ok(()) => {}
            Err(Memory) => return Err(Memory),
        }
        ahead = rest.first();
    }
    Ok(())
}

// Makes the place of a number that a core may have.
fn make_place(alloc: Global, index: u64, nodes: &mut Nodes) -> Result<(), Memory>
    ensures place { OnOk result (index < MAX_NODES → has_place nodes.new index ≡ true) }
    ensures kept { (at : ℕ) → has_place nodes.old at ≡ true → has_place nodes.new at ≡ true }
    ensures same { values_of nodes.new ≡ values_of nodes.old }
{
    if index >= MAX_NODES {
        return Ok(());
    }
    nodes.reserve(alloc, index)
}

/// Puts each record's node at its place. Those of numbers that no core has are left out, so that no record asks for more
/// memory than a core may have nodes.
pub(crate) fn put_records(records: &Records<'_>, nodes: &mut Nodes)
    requires places { HavePlaces nodes.old records.now }
    ensures { AgreeWithin (values_of nodes.new) (with_nodes (values_of nodes.old) records.now) }
{
    let mut ahead = records.first();
    for _ in 0..records.len() {
        let Some((node, rest)) = ahead else {
            return;
        };
        put_record(&node, nodes);
        ahead = rest.first();
    }
}

// Puts a node at its place, where it is of a number that a core may have.
fn put_record(node: &Node, nodes: &mut Nodes)
    requires place { node.now.index < MAX_NODES → has_place nodes.old node.now.index ≡ true }
    ensures values { AgreeWithin (values_of nodes.new) (with_node (values_of nodes.old) node.now) }
    ensures kept { (at : ℕ) → has_place nodes.new at ≡ has_place nodes.old at }
{
    if node.index >= MAX_NODES {
        return;
    }
    nodes.insert(node);
}

/// The roots of a length, each the record of its number, or else among the roots before. `None` exactly where one is
/// neither.
pub(crate) fn known_roots(roots: &Roots, records: &Records<'_>, length: u64) -> Option<Roots>
    requires few { length ≤ MAX_BLOCKS }
    requires sizes { AllByRecursion (λ (node : Node). node.size ≤ MAX_CORE_BYTES) roots.now }
    requires fit { AllByRecursion RecordFits records.now }
    ensures { GivesRoots (with_nodes (values_in roots.now) records.now) length result }
{
    let places = full_roots(length);
    let mut after = Roots::new(Node::BLANK);
    for place in 0..places.len() {
        match known(roots, records, places.at(place)) {
            Some(node) => after.push(node),
            None => return None,
        }
    }
    Some(after)
}

// The node of a number: its record, or else the root before.
fn known(roots: &Roots, records: &Records<'_>, index: u64) -> Option<Node>
    requires sizes { AllByRecursion (λ (node : Node). node.size ≤ MAX_CORE_BYTES) roots.now }
    requires fit { AllByRecursion RecordFits records.now }
    ensures value { (depth offset : ℕ) → number depth offset ≡ index
        → option_map twig_of result ≡ with_nodes (values_in roots.now) records.now depth offset }
    ensures numbered { IfSome result (λ node. node.index ≡ index) }
    ensures size { IfSome result (λ node. node.size ≤ MAX_CORE_BYTES) }
{
    let root = last_of(&Records::of(roots.as_slice()), index, None);
    last_of(records, index, root)
}

/// The last node of a number, or else the one that was found before.
pub(crate) fn last_of(records: &Records<'_>, index: u64, before: Option<Node>) -> Option<Node>
    ensures { result ≡ last_of records.now index before }
{
    let mut found = before;
    let mut ahead = records.first();
    for _ in 0..records.len() {
        let Some((node, rest)) = ahead else {
            return found;
        };
        found = pick(node, index, found);
        ahead = rest.first();
    }
    found
}

// The node where it is of this number, or else the one that was found before.
fn pick(node: Node, index: u64, found: Option<Node>) -> Option<Node>
    ensures { result ≡ (if nat_eq node.index index then Found node else found) }
{
    if node.index == index {
        Some(node)
    } else {
        found
    }
}
