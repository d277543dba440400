//! The full roots of a length over a view.
ghost use Rattle.std.specs.Prelude.{◌≡◌, ◌≤◌, ℕ, None, IfOk, length as count};
ghost use Rattle.flat_tree.specs.Roots.{full_roots_of};
ghost use Rattle.flat_tree.specs.declared.limits.TheConstants.{MAX_BLOCKS, MAX_ROOTS};
ghost use Rattle.node_set.specs.Contents.{held};
ghost use Rattle.node_set.specs.Closure.{in_closure};
ghost use Rattle.log_view.specs.Views.{Looks};
ghost use Rattle.core_forks.specs.Refusals.{first_missing};
ghost use Rattle.core_forks.specs.Truncations.{fresh_roots};
ghost use Rattle.log_change.specs.Calls.{AreRoots};

use flat_tree::full_roots;
use log_view::View;
use merkle_nodes::{Node, Roots};
use node_set::{CoreFault, Fresh};

/// `NoNode` of the first full root of a length that isn't stored.
pub(crate) fn missing_root<V: View>(view: &V, to: u64) -> Option<CoreFault>
    requires within { to ≤ MAX_BLOCKS }
    ensures { let m = (V.view view.now).source.content in
        result ≡ first_missing (in_closure m.length (held m)) (full_roots_of to) }
{
    let numbers = full_roots(to);
    for at in 0..numbers.len() {
        let index = numbers.at(at);
        if !view.is_stored(index) {
            return Some(CoreFault::NoNode { index });
        }
    }
    None
}

/// The nodes at the full roots of a length, each of which is stored.
pub(crate) fn roots_of<V: View>(view: &mut V, to: u64) -> Result<Roots, CoreFault>
    requires within { to ≤ MAX_BLOCKS }
    requires stored { let m = (V.view view.old).source.content in
        first_missing (in_closure m.length (held m)) (full_roots_of to) ≡ None }
    ensures roots { IfOk result (AreRoots (V.view view.old).source to) }
    ensures looks { Looks (V.view view.old) (V.view view.new) result }
{
    let numbers = full_roots(to);
    let mut roots = Roots::new(Node::BLANK);
    for at in 0..numbers.len() {
        match view.node(numbers.at(at)) {
            Ok(node) => roots.push(node),
            Err(fault) => return Err(fault),
        }
    }
    Ok(roots)
}

/// Leaves in `fresh` those of the roots that weren't roots before.
pub(crate) fn put_fresh(before: &[Node], roots: &[Node], fresh: &mut Fresh)
    requires few { count roots.now ≤ MAX_ROOTS }
    ensures { fresh.new ≡ fresh_roots before.now roots.now }
{
    fresh.clear();
    for root in roots {
        if !before.contains(root) {
            fresh.push(*root);
        }
    }
}
