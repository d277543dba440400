//! Blocks come in at the end.
ghost use Rattle.std.specs.Prelude.{◌≡◌, ◌≤◌, ℕ, List, Some, length};
ghost use Rattle.commit_book.specs.declared.commit.Commit.TheVariants.{Append};
ghost use Rattle.merkle_batch.specs.Batch.{HasBlocks};
ghost use Rattle.node_set.specs.Changes.{append_content};
ghost use Rattle.node_set.specs.Whole.{IsSound};
ghost use Rattle.log_change.specs.LogChange.{IsChange, MayCommit, signed};
ghost use Rattle.log_change.specs.Calls.{growth};

use crate::change::{Indices, LogChange};
use commit_book::Commit;
use log_view::View;
use merkle_batch::Batch;
use merkle_nodes::Head;

/// Appends the blocks of a batch, one at least, that was started behind the log of the view. The nodes that come in are
/// the batch's, in its order. The head has 64 zeros for its signature, which the caller makes.
pub fn append<V: View>(view: &V, batch: &Batch) -> LogChange
    requires base { batch.now.base ≡ (V.view view.now).source.content.length }
    requires some { 1 ≤ batch.now.blocks }
    ensures change { result ≡ growth (V.view view.now).source.content batch.now }
    ensures leads { let m = (V.view view.now).source.content in (more : List (List ℕ))
        → (signature : List ℕ) → IsSound m → HasBlocks m.node more batch.now
        → IsChange m (append_content more signature m) (Some (Append (length more))) more
        batch.now.nodes (signed signature result) }
    ensures legal { MayCommit (V.view view.now).source.content result }
{
    let head = view.head();
    let length = batch.length();
    LogChange {
        head: Head {
            fork: head.fork,
            length,
            signature: [0; 64],
        },
        roots: batch.roots().copy(),
        gone: Indices::NONE,
        come: Indices {
            from: head.length,
            to: length,
        },
        commit: Some(Commit::Append {
            count: batch.blocks() as u64,
        }),
    }
}
