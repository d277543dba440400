//! Nodes that are put into a list, as an entry has them, and the head that is signed over roots.
ghost use Rattle.std.specs.Prelude.{◌≡◌, ◌≤◌, ◌<◌, ◌∷◌, ◌++◌, ℕ, [], length, vec_capacity, vec_len};
ghost use Rattle.std.specs.List.{AllByRecursion};
ghost use Rattle.core_disk.specs.Planning.{HasHash, AreInOrder, IsHeadOver};

use core_state::signature_of;
use merkle_nodes::{Head, Node, Roots, root_hash};
use outside_traits::Signer;

/// Leaves copies of these nodes alone in a list that has room for them.
pub(crate) fn put_copies(from: &[Node], to: &mut Vec<Node>)
    requires room { length from.now ≤ vec_capacity to.old }
    ensures items { to.new.items ≡ from.now }
    ensures hashes { AllByRecursion HasHash to.new.items }
    ensures room { vec_capacity to.new ≡ vec_capacity to.old }
{
    to.clear();
    for node in from {
        push_copy(*node, to);
    }
}

// Puts one node more behind the others.
fn push_copy(node: Node, to: &mut Vec<Node>)
    requires room { vec_len to.old < vec_capacity to.old }
    ensures items { to.new.items ≡ to.old.items ++ node ∷ [] }
    ensures hash { HasHash node }
    ensures room { vec_capacity to.new ≡ vec_capacity to.old }
{
    to.push_reserved(node);
}

/// The same, in the order of their numbers.
pub(crate) fn put_in_order(from: &[Node], to: &mut Vec<Node>)
    requires room { length from.now ≤ vec_capacity to.old }
    ensures order { AreInOrder from.now to.new.items }
    ensures room { vec_capacity to.new ≡ vec_capacity to.old }
{
    put_copies(from, to);
    to.sort_unstable_by_key(|node| node.index);
}

/// The head of a log of this length and fork over these roots, signed.
pub(crate) fn head_over<A: Signer>(auth: &A, roots: &Roots, length: u64, fork: u64) -> Head
    ensures { IsHeadOver (A.accepts auth.now) roots.now fork length result }
{
    Head {
        fork,
        length,
        signature: signature_of(auth, &root_hash(roots), length, fork),
    }
}
