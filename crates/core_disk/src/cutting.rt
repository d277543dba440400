//! What a truncation and a clearing are about to write.
ghost use Rattle.std.specs.Prelude.{◌≡◌, ◌≤◌, List, ℕ, None, length, vec_capacity};
ghost use Rattle.commit_book.specs.declared.commit.Commit.TheVariants.{Truncate};
ghost use Rattle.oplog_form.specs.declared.entry.TheConstants.{MAX_ENTRY_NODES};
ghost use Rattle.node_set.specs.Changes.{truncate_content};
ghost use Rattle.node_set.specs.Views.{AnswersBy};
ghost use Rattle.node_set.specs.Walks.{KeepsView};
ghost use Rattle.core_forks.specs.Refusals.{truncate_refusal, clear_refusal};
ghost use Rattle.core_disk.specs.Plans.{IsSignedPlan, IsClearPlan};

use crate::putting::{head_over, put_copies};
use core_forks::{clear, truncate};
use merkle_nodes::{Head, Node};
use node_set::{CoreFault, View};
use outside_traits::Signer;

/// Plans a truncation to a length under a greater fork: the head after it, signed, and in `nodes` the records of its entry,
/// the roots that weren't roots. `OutOfRange` above the length, `Limit` of forks, `OldFork` where the fork isn't greater,
/// `NoNode` where a root of the length isn't stored; each other `Err` is the view's. Nothing is signed then. Takes no memory.
pub(crate) fn plan_truncate<V: View, A: Signer>(
    view: &mut V,
    auth: &A,
    to: u64,
    fork: u64,
    nodes: &mut Vec<Node>,
) -> Result<Head, CoreFault>
    requires room { MAX_ENTRY_NODES ≤ vec_capacity nodes.old }
    ensures plan { let v = V.view view.old in AnswersBy v (V.view view.new)
        (truncate_refusal v.content to fork)
        (IsSignedPlan (A.accepts auth.now) v (Truncate to fork)
        (λ (signature : List ℕ). truncate_content to fork signature v.content) None nodes.new.items) result }
    ensures keeps { KeepsView (V.view view.old) (V.view view.new) }
    ensures room { vec_capacity nodes.new ≡ vec_capacity nodes.old }
{
    // the fork and the length are within the limits
    let _head = view.head();
    let change = match truncate(view, to, fork) {
        Ok(change) => change,
        Err(fault) => return Err(fault),
    };
    put_copies(change.fresh.as_slice(), nodes);
    Ok(head_over(auth, &change.roots, to, fork))
}

/// Plans a clearing of the blocks from..to: whether one of them is held. The head stays, and no node is written.
/// `OutOfRange` unless the range is ordered and within the length.
pub(crate) fn plan_clear<V: View>(view: &mut V, from: u64, to: u64) -> Result<bool, CoreFault>
    ensures plan { let v = V.view view.old in AnswersBy v (V.view view.new)
        (clear_refusal v.content from to) (IsClearPlan v from to) result }
    ensures keeps { KeepsView (V.view view.old) (V.view view.new) }
{
    // the head stays within the limits
    let _head = view.head();
    match clear(view, from, to) {
        Ok(change) => Ok(change.commit.is_some()),
        Err(fault) => Err(fault),
    }
}
