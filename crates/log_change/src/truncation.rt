//! The log is cut.
ghost use Rattle.std.specs.Prelude.{◌≡◌, ℕ, List, [], Some, IfOk, IsTrue};
ghost use Rattle.commit_book.specs.declared.commit.Commit.TheVariants.{Truncate};
ghost use Rattle.node_set.specs.Contents.{roots};
ghost use Rattle.node_set.specs.Changes.{truncate_content};
ghost use Rattle.core_forks.specs.Refusals.{truncate_refusal};
ghost use Rattle.core_forks.specs.Truncations.{fresh_roots};
ghost use Rattle.log_change.specs.LogChange.{Ascend, IsChange, MayCommit, signed};
ghost use Rattle.log_change.specs.Calls.{Answers, AreRoots, truncation};

use crate::change::{Indices, LogChange};
use crate::roots::{missing_root, put_fresh, roots_of};
use commit_book::Commit;
use flat_tree::MAX_FORK;
use log_view::View;
use merkle_nodes::{Head, What};
use node_set::{CoreFault, Fresh};

/// Cuts the log to `to` blocks under a greater fork. The head has 64 zeros for its signature, which the caller makes.
/// Leaves in `fresh` the roots that weren't roots before, left to right. `OutOfRange` where `to` is above the length,
/// `Limit` (`Fork`), `OldFork` where the fork isn't above the head's, and `NoNode` of the first root of `to` that isn't
/// stored.
pub fn truncate<V: View>(
    view: &mut V,
    to: u64,
    fork: u64,
    fresh: &mut Fresh,
) -> Result<LogChange, CoreFault>
    ensures answers { Answers (V.view view.old) (V.view view.new)
        (truncate_refusal (V.view view.old).source.content to fork) result }
    ensures change { IfOk result (λ change.
        change ≡ truncation (V.view view.old).source.content to fork change.roots) }
    ensures roots { IfOk result (λ change. AreRoots (V.view view.old).source to change.roots) }
    ensures fresh { IfOk result (λ change.
        fresh.new ≡ fresh_roots (roots (V.view view.old).source.content) change.roots) }
    ensures order { IfOk result (λ change. Ascend fresh.new) }
    ensures leads { let s = (V.view view.old).source in IsTrue s.shows → IfOk result (λ change.
        (signature : List ℕ) → IsChange s.content (truncate_content to fork signature s.content)
        (Some (Truncate to fork)) [] fresh.new (signed signature change)) }
    ensures legal { IfOk result (MayCommit (V.view view.old).source.content) }
{
    let head = view.head();
    if let Some(fault) = refusal(view, to, fork) {
        return Err(fault);
    }
    let roots = match roots_of(view, to) {
        Ok(roots) => roots,
        Err(fault) => return Err(fault),
    };
    put_fresh(view.roots().as_slice(), roots.as_slice(), fresh);
    Ok(LogChange {
        head: Head {
            fork,
            length: to,
            signature: [0; 64],
        },
        roots,
        gone: Indices {
            from: to,
            to: head.length,
        },
        come: Indices::NONE,
        commit: Some(Commit::Truncate { to, fork }),
    })
}

// Why a truncation is refused.
fn refusal<V: View>(view: &V, to: u64, fork: u64) -> Option<CoreFault>
    ensures { result ≡ truncate_refusal (V.view view.now).source.content to fork }
{
    let head = view.head();
    if head.length < to {
        return Some(CoreFault::OutOfRange { end: head.length });
    }
    if MAX_FORK < fork {
        return Some(CoreFault::Limit {
            what: What::Fork,
            max: MAX_FORK,
        });
    }
    if fork <= head.fork {
        return Some(CoreFault::OldFork { have: head.fork });
    }
    missing_root(view, to)
}
