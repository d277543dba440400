//! Blocks are given up.
ghost use Rattle.std.specs.Prelude.{◌<◌, IfOk};
ghost use Rattle.node_set.specs.Views.{AnswersBy};
ghost use Rattle.node_set.specs.Walks.{KeepsView};
ghost use Rattle.core_forks.specs.Refusals.{clear_refusal};
ghost use Rattle.core_forks.specs.Truncations.{IsClearing, ClearsWhere, MayCommit};

use commit_book::Commit;
use merkle_nodes::Node;
use node_set::{Change, CoreFault, Fresh, View};

/// Gives up the blocks `from..to`: there is a commit exactly where one of them is held. The head and the roots stay.
/// `OutOfRange` unless `from` is at most `to`, and `to` at most the length.
pub fn clear<V: View>(view: &mut V, from: u64, to: u64) -> Result<Change, CoreFault>
    ensures answers { let v = V.view view.old in AnswersBy v (V.view view.new)
        (clear_refusal v.content from to) (IsClearing v.content from to) result }
    ensures legal { IfOk result (MayCommit (V.view view.old).content) }
    ensures keeps { KeepsView (V.view view.old) (V.view view.new) }
{
    let head = view.head();
    if to < from || head.length < to {
        return Err(CoreFault::OutOfRange { end: head.length });
    }
    let commit = commit_of(view, from, to);
    Ok(Change {
        head,
        roots: view.roots().copy(),
        commit,
        fresh: Fresh::new(Node::BLANK),
    })
}

// The commit of a clearing, where one of the blocks is held.
fn commit_of<V: View>(view: &V, from: u64, to: u64) -> Option<Commit>
    ensures { ClearsWhere from to (V.view view.now).content result }
{
    for index in from..to {
        if view.held(index) {
            return Some(Commit::Clear { from, to });
        }
    }
    None
}
