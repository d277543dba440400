//! Blocks are cleared.
ghost use Rattle.std.specs.Prelude.{◌≡◌, ◌↔◌, ◌≤◌, [], Some, Err, IfOk};
ghost use Rattle.node_set.specs.declared.fault.CoreFault.{CoreFault as CoreFaultSeen};
ghost use Rattle.node_set.specs.Legal.{KeepsHistory};
ghost use Rattle.node_set.specs.Changes.{clear_content};
ghost use Rattle.core_forks.specs.Refusals.{clear_refusal};
ghost use Rattle.core_forks.specs.Truncations.{ClearsWhere};
ghost use Rattle.log_change.specs.LogChange.{IsChange};
ghost use Rattle.log_change.specs.Calls.{clearing};

use crate::change::{Indices, LogChange};
use commit_book::Commit;
use log_view::View;
use node_set::CoreFault;

/// Clears the blocks `from..to`: there is a commit exactly where one of them is held. The head and the roots stay, and
/// no node comes in. `OutOfRange` unless `from` is at most `to`, and `to` at most the length.
pub fn clear<V: View>(view: &V, from: u64, to: u64) -> Result<LogChange, CoreFault>
    ensures refused { (fault : CoreFaultSeen) → (result ≡ Err fault)
        ↔ (clear_refusal (V.view view.now).source.content from to ≡ Some fault) }
    ensures change { IfOk result (λ change.
        change ≡ clearing (V.view view.now).source.content from to change.commit) }
    ensures commit { IfOk result (λ change.
        ClearsWhere from to (V.view view.now).source.content change.commit) }
    ensures leads { let m = (V.view view.now).source.content in IfOk result (λ change.
        IsChange m (clear_content from to m) change.commit [] [] change) }
    ensures legal { let m = (V.view view.now).source.content in IfOk result (λ change.
        KeepsHistory m (clear_content from to m) change.commit) }
{
    let head = view.head();
    if to < from || head.length < to {
        return Err(CoreFault::OutOfRange { end: head.length });
    }
    let commit = commit_of(view, from, to);
    Ok(LogChange {
        head,
        roots: view.roots().copy(),
        gone: Indices { from, to },
        come: Indices::NONE,
        commit,
    })
}

// The commit of a clearing, where one of the blocks is held.
fn commit_of<V: View>(view: &V, from: u64, to: u64) -> Option<Commit>
    requires ordered { from ≤ to }
    requires within { to ≤ (V.view view.now).source.content.length }
    ensures { ClearsWhere from to (V.view view.now).source.content result }
{
    match view.first_held(from, to) {
        Some(_) => Some(Commit::Clear { from, to }),
        None => None,
    }
}
