//! The nodes of a trail or of a cover, one after the other.
ghost use Rattle.std.specs.Prelude.{◌≡◌, ◌≤◌, ℕ, List, length, IfOk};
ghost use Rattle.std.specs.List.{AllByRecursion};
ghost use Rattle.flat_tree.specs.Subtrees.{Subtree, number, numbers_of};
ghost use Rattle.flat_tree.specs.declared.limits.TheConstants.{MAX_SIBLINGS};
ghost use Rattle.proof_form.specs.declared.fields.TheConstants.{MAX_NUMBER};
ghost use Rattle.proof_make.specs.Offers.{has_nodes};
ghost use Rattle.log_view.specs.Views.{Looks, IsStored};
ghost use Rattle.proof_offer.specs.Parts.{siblings_of, GivesTwigs};

use flat_tree::{Places, RoomList, parent, sibling};
use log_view::View;
use merkle_nodes::Twig;
use node_set::CoreFault;

/// The numbers of the lowest siblings of a node's path.
pub(crate) fn siblings(node: u64, count: u64) -> Places
    requires node { node ≤ MAX_NUMBER }
    requires few { count ≤ MAX_SIBLINGS }
    ensures numbers { (depth offset : ℕ) → node ≡ number depth offset
        → result ≡ numbers_of (siblings_of depth offset count) }
    ensures count { length result ≡ count }
{
    let mut numbers = RoomList::new(0);
    let mut over = node;
    for _ in 0..count {
        numbers.push(sibling(over));
        over = parent(over);
    }
    numbers
}

/// Whether each of these nodes is to be stored. None is read.
pub(crate) fn are_stored<V: View>(view: &V, numbers: &Places) -> bool
    ensures { (trees : List Subtree) → numbers.now ≡ numbers_of trees
        → result ≡ has_nodes (V.view view.now).source.content trees }
{
    for at in 0..numbers.len() {
        if !view.is_stored(numbers.at(at)) {
            return false;
        }
    }
    true
}

/// The twigs of these nodes, each read once.
pub(crate) fn twigs_of<V: View, const N: usize>(
    view: &mut V,
    numbers: &Places,
) -> Result<RoomList<Twig, N>, CoreFault>
    requires capacity { length numbers.now ≤ N }
    requires stored { AllByRecursion (IsStored (V.view view.old).source) numbers.now }
    ensures gives { IfOk result (GivesTwigs (V.view view.old).source numbers.now) }
    ensures looks { Looks (V.view view.old) (V.view view.new) result }
{
    let mut twigs = RoomList::new(Twig::BLANK);
    for at in 0..numbers.len() {
        match view.node(numbers.at(at)) {
            Ok(node) => twigs.push(node.twig()),
            Err(fault) => return Err(fault),
        }
    }
    Ok(twigs)
}
