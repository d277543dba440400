//! What an append is about to write.
ghost use Rattle.std.specs.Prelude.{◌≡◌, ◌≤◌, List, ℕ, Some, length, vec_capacity};
ghost use Rattle.flat_tree.specs.declared.limits.TheConstants.{MAX_BATCH_BLOCKS};
ghost use Rattle.commit_book.specs.declared.commit.Commit.TheVariants.{Append};
ghost use Rattle.oplog_form.specs.declared.entry.TheConstants.{MAX_ENTRY_NODES};
ghost use Rattle.node_set.specs.Changes.{append_content};
ghost use Rattle.core_state.specs.Refusals.{append_refusal};
ghost use Rattle.core_disk.specs.Planning.{IsBatchOf};
ghost use Rattle.core_disk.specs.Plans.{IsSignedPlan, OrRefused, behind};

use crate::putting::{head_over, put_in_order};
use core_state::push_all;
use merkle_batch::Batch;
use merkle_nodes::{Head, Limit, Node};
use node_set::{CoreFault, View};
use outside_traits::{Blobs, Signer};

/// Plans an append of one block at least: the head after it, signed, and in `nodes` the records of its entry. The blocks'
/// bytes come in behind the log's. `Limit`, for each block in turn: of its bytes, of the blocks and the bytes of one
/// append, of the blocks and the bytes of a core; nothing is signed then. Takes no memory.
pub(crate) fn plan_append<V: View, A: Signer>(
    view: &V,
    auth: &A,
    blocks: &Blobs,
    batch: &mut Batch,
    nodes: &mut Vec<Node>,
) -> Result<Head, CoreFault>
    requires some { 1 ≤ length blocks.now }
    requires batch { MAX_BATCH_BLOCKS ≤ batch.old.room }
    requires room { MAX_ENTRY_NODES ≤ vec_capacity nodes.old }
    ensures plan { let v = V.view view.now in OrRefused (append_refusal v.content blocks.now)
        (IsSignedPlan (A.accepts auth.now) v (Append (length blocks.now))
        (λ (signature : List ℕ). append_content blocks.now signature v.content)
        (Some (behind blocks.now v.content)) nodes.new.items) result }
    ensures batch { batch.new.room ≡ batch.old.room }
    ensures room { vec_capacity nodes.new ≡ vec_capacity nodes.old }
{
    let head = view.head();
    match make_batch(view, blocks, batch) {
        Ok(()) => {}
        Err(fault) => return Err(fault),
    }
    put_in_order(batch.nodes(), nodes);
    Ok(head_over(auth, batch.roots(), batch.length(), head.fork))
}

// Makes the batch of some blocks behind a view's log.
fn make_batch<V: View>(view: &V, blocks: &Blobs, batch: &mut Batch) -> Result<(), CoreFault>
    requires room { MAX_BATCH_BLOCKS ≤ batch.old.room }
    ensures batch { let m = (V.view view.now).content in OrRefused (append_refusal m blocks.now)
        (λ done. IsBatchOf m blocks.now batch.new) result }
    ensures room { batch.new.room ≡ batch.old.room }
{
    let head = view.head();
    batch.start(view.roots(), head.length);
    match push_all(batch, blocks) {
        Ok(()) => Ok(()),
        Err(Limit { what, max }) => Err(CoreFault::Limit { what, max }),
    }
}
