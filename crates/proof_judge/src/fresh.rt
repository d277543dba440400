//! The nodes that have to be written for the log after a proof.
ghost use Rattle.std.specs.Prelude.{◌≡◌, ◌≤◌, ◌<◌, ◌+◌, ℕ, Bool, Option, true, [], ◌∷◌, ◌++◌, Some, not, if◌then◌else◌, IsTrue, IfOk, length as count, vec_capacity};
ghost use Rattle.flat_tree.specs.Subtrees.{number};
ghost use Rattle.flat_tree.specs.declared.limits.TheConstants.{MAX_BLOCKS};
ghost use Rattle.merkle_nodes.specs.Roots.{twig_of};
ghost use Rattle.node_set.specs.Contents.{Content, held};
ghost use Rattle.node_set.specs.Closure.{is_root};
ghost use Rattle.node_set.specs.Whole.{IsClosed};
ghost use Rattle.log_view.specs.Views.{Looks};
ghost use Rattle.log_change.specs.LogChange.{AreFresh, Ascend, stays};
ghost use Rattle.proof_form.specs.Proofs.{Block, Proof};
ghost use Rattle.proof_check.specs.Upgraded.{with_upgrade};
ghost use Rattle.proof_check.specs.Judge.{admitted};
ghost use Rattle.proof_judge.specs.Coming.{ComesIn, IsOver, IsToStore, MayCome, Takes};
ghost use Rattle.proof_judge.specs.PartsMet.{IsBlockWay};

use crate::part::Way;
use flat_tree::{parent, spans};
use log_view::View;
use merkle_nodes::Node;
use node_set::CoreFault;

/// Leaves in `nodes`, in the order of their numbers, those that may have to be written for the log after a proof: of the
/// nodes that its upgrade makes, `laid`, those that the view of the log after it stores, and the way of its block as
/// `meet_parts` left it. Each other node of the log after stays as it was.
pub fn gather<V: View>(view: &V, laid: &[Node], way: &Way, nodes: &mut Vec<Node>)
    requires order { Ascend laid.now }
    requires way { let m = (V.view view.now).source.content in
        (block : Option Block) × IsBlockWay m.length (held m) block way.now }
    requires empty { nodes.old.items ≡ [] }
    requires room { count laid.now + count way.now ≤ vec_capacity nodes.old }
    ensures comes { let after = (V.view view.now).source.content in (p : Proof) (m : Content)
        → after ≡ with_upgrade p m → IsClosed after.length after.block after.node → IsOver m after laid.now
        → IsBlockWay after.length (held after) p.block way.now
        → MayCome m (admitted p m) nodes.new.items }
    ensures order { Ascend nodes.new.items }
    ensures few { count nodes.new.items ≤ count laid.now + count way.now }
{
    put_stored(view, laid, nodes);
    put_all(way.as_slice(), nodes);
    nodes.sort_unstable_by_key(|node| node.index);
}

// Adds those of some nodes that a view stores.
fn put_stored<V: View>(view: &V, laid: &[Node], nodes: &mut Vec<Node>)
    requires empty { nodes.old.items ≡ [] }
    requires room { count laid.now ≤ vec_capacity nodes.old }
    ensures takes { let m = (V.view view.now).source.content in
        Takes (IsToStore m.length (held m)) laid.now nodes.new.items }
    ensures capacity { vec_capacity nodes.new ≡ vec_capacity nodes.old }
{
    for node in laid {
        push_if(nodes, *node, view.is_stored(node.index));
    }
}

// Adds some nodes.
fn put_all(more: &[Node], nodes: &mut Vec<Node>)
    requires room { count nodes.old.items + count more.now ≤ vec_capacity nodes.old }
    ensures { nodes.new.items ≡ nodes.old.items ++ more.now }
{
    for node in more {
        nodes.push_reserved(*node);
    }
}

/// Leaves in `fresh` those of some nodes of the log after a change, of `length` blocks, that have to be written over what
/// a view stores: each that isn't stored with the same size and hash, and each root that wasn't one. Each `Err` is the
/// view's.
pub fn put_fresh<V: View>(
    view: &mut V,
    length: u64,
    nodes: &[Node],
    fresh: &mut Vec<Node>,
) -> Result<(), CoreFault>
    requires blocks { length ≤ MAX_BLOCKS }
    requires order { Ascend nodes.now }
    requires empty { fresh.old.items ≡ [] }
    requires room { count nodes.now ≤ vec_capacity fresh.old }
    ensures fresh { let s = (V.view view.old).source in (after : Content) → IsTrue s.shows
        → IsClosed s.content.length s.content.block s.content.node → after.length ≡ length
        → MayCome s.content after nodes.now → IfOk result (λ _. AreFresh s.content after fresh.new.items) }
    ensures order { IfOk result (λ _. Ascend fresh.new.items) }
    ensures few { IfOk result (λ _. count fresh.new.items ≤ count nodes.now) }

    // of any view, also of one that doesn't give what is its content's
    ensures takes { IfOk result (λ _.
        Takes (ComesIn (V.view view.old).source length) nodes.now fresh.new.items) }
    ensures looks { Looks (V.view view.old) (V.view view.new) result }
{
    for node in nodes {
        match stays(view, length, node) {
            Ok(same) => push_if(fresh, *node, !same),
            Err(fault) => return Err(fault),
        }
    }
    Ok(())
}

// Adds a node, or doesn't.
fn push_if(nodes: &mut Vec<Node>, node: Node, answer: bool)
    requires room { count nodes.old.items < vec_capacity nodes.old }
    ensures items { nodes.new.items ≡ nodes.old.items ++ (if answer then node ∷ [] else []) }
    ensures capacity { vec_capacity nodes.new ≡ vec_capacity nodes.old }
{
    if answer {
        nodes.push_reserved(node);
    }
}

// Whether a node of a log of `length` blocks stays as it is written.
fn stays<V: View>(view: &mut V, length: u64, node: &Node) -> Result<bool, CoreFault>
    requires blocks { length ≤ MAX_BLOCKS }
    ensures given { IfOk result (λ same. IsTrue same
        → (V.view view.old).source.gives node.now.index (twig_of node.now) ≡ true) }
    ensures shown { let s = (V.view view.old).source in IsTrue s.shows
        → IsClosed s.content.length s.content.block s.content.node → (after : Content) (depth offset : ℕ)
        → after.length ≡ length → number depth offset ≡ node.now.index
        → after.node depth offset ≡ Some (twig_of node.now)
        → IfOk result (λ same. same ≡ stays s.content after depth offset) }
    ensures looks { Looks (V.view view.old) (V.view view.new) result }
{
    let is_new_root = is_root(length, node.index) && !is_root(view.head().length, node.index);
    if is_new_root || !view.is_stored(node.index) {
        return Ok(false);
    }
    match view.node(node.index) {
        Ok(stored) => Ok(stored == *node),
        Err(fault) => Err(fault),
    }
}

// Whether a number is that of a full root of a length.
fn is_root(length: u64, index: u64) -> bool
    requires blocks { length ≤ MAX_BLOCKS }
    ensures { (depth offset : ℕ) → number depth offset ≡ index → result ≡ is_root length depth offset }
{
    if index / 2 >= length {
        return false;
    }
    let (_, last) = spans(index);
    let (_, over) = spans(parent(index));
    last / 2 < length && over / 2 >= length
}
