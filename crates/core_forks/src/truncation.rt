//! The log is cut.
ghost use Rattle.std.specs.Prelude.{◌≡◌, ◌≤◌, ◌<◌, length as count, IfOk};
ghost use Rattle.flat_tree.specs.Roots.{full_roots_of};
ghost use Rattle.flat_tree.specs.declared.limits.TheConstants.{MAX_BLOCKS, MAX_ROOTS};
ghost use Rattle.node_set.specs.Contents.{held, roots};
ghost use Rattle.node_set.specs.Closure.{in_closure};
ghost use Rattle.node_set.specs.Views.{AnswersBy};
ghost use Rattle.node_set.specs.Walks.{KeepsView};
ghost use Rattle.core_forks.specs.Refusals.{truncate_refusal, first_missing};
ghost use Rattle.core_forks.specs.Truncations.{fresh_roots, AreRoots, IsTruncation, MayCommit};

use commit_book::Commit;
use flat_tree::{MAX_FORK, full_roots};
use merkle_nodes::{Head, Node, Roots, What};
use node_set::{Change, CoreFault, Fresh, View};

/// Cuts the log to `to` blocks under a greater fork: the change has no signature, since the caller signs. `OutOfRange`
/// where `to` is above the length, `Limit` (`Fork`), `OldFork` where the fork isn't above the head's, and `NoNode` of the
/// first root of `to` that isn't stored.
pub fn truncate<V: View>(view: &mut V, to: u64, fork: u64) -> Result<Change, CoreFault>
    ensures answers { let v = V.view view.old in AnswersBy v (V.view view.new)
        (truncate_refusal v.content to fork) (IsTruncation v to fork) result }
    ensures legal { IfOk result (MayCommit (V.view view.old).content) }
    ensures keeps { KeepsView (V.view view.old) (V.view view.new) }
{
    let head = view.head();
    if head.length < to {
        return Err(CoreFault::OutOfRange { end: head.length });
    }
    if MAX_FORK < fork {
        return Err(CoreFault::Limit {
            what: What::Fork,
            max: MAX_FORK,
        });
    }
    if fork <= head.fork {
        return Err(CoreFault::OldFork { have: head.fork });
    }
    let roots = match roots_of(view, to) {
        Ok(roots) => roots,
        Err(fault) => return Err(fault),
    };
    let fresh = fresh_of(view.roots().as_slice(), roots.as_slice());
    Ok(Change {
        head: Head {
            fork,
            length: to,
            signature: [0; 64],
        },
        roots,
        commit: Some(Commit::Truncate { to, fork }),
        fresh,
    })
}

// The nodes at the full roots of a length.
fn roots_of<V: View>(view: &mut V, to: u64) -> Result<Roots, CoreFault>
    requires within { to ≤ MAX_BLOCKS }
    ensures answers { let v = V.view view.old in AnswersBy v (V.view view.new)
        (first_missing (in_closure v.content.length (held v.content)) (full_roots_of to))
        (AreRoots v to) result }
    ensures keeps { KeepsView (V.view view.old) (V.view view.new) }
{
    let places = full_roots(to);
    let mut nodes = Roots::new(Node::BLANK);
    for place in 0..places.len() {
        let index = places.at(place);
        match view.node(index) {
            Ok(Some(node)) => nodes.push(node),
            Ok(None) => return Err(CoreFault::NoNode { index }),
            Err(fault) => return Err(fault),
        }
    }
    Ok(nodes)
}

// The roots that weren't roots before.
fn fresh_of(before: &[Node], now: &[Node]) -> Fresh
    requires few { count now.now ≤ MAX_ROOTS }
    ensures { result ≡ fresh_roots before.now now.now }
{
    let mut fresh = Fresh::new(Node::BLANK);
    for root in now {
        if !before.contains(root) {
            fresh.push(*root);
        }
    }
    fresh
}
