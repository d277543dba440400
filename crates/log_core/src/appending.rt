//! The batch of an append.
ghost use Rattle.std.specs.Prelude.{◌≡◌, ◌≤◌, ◌⊎◌, None, Some, [], IfOk, MatchResult, OnOk, length};
ghost use Rattle.flat_tree.specs.declared.limits.TheConstants.{MAX_BATCH_BLOCKS};
ghost use Rattle.merkle_nodes.specs.Joined.{Values};
ghost use Rattle.merkle_nodes.specs.Nodes.{bytes_under};
ghost use Rattle.merkle_batch.specs.Batch.{HasBlocks};
ghost use Rattle.node_set.specs.declared.fault.CoreFault.TheVariants.{Memory as MemoryFault};
ghost use Rattle.node_set.specs.Whole.{IsSound};
ghost use Rattle.log_core.specs.Refusals.{append_refusal, limit_in, limit_fault};

use log_view::View;
use merkle_batch::Batch;
use merkle_nodes::Limit;
use node_set::CoreFault;
use outside_traits::{Blobs, Memory};
use std::alloc::Global;

/// The batch of some blocks behind the log of a view. `Limit` of the first block that passes one.
pub fn batch_of<V: View>(view: &V, alloc: Global, blocks: &Blobs) -> Result<Batch, CoreFault>
    ensures base { IfOk result (λ batch. batch.base ≡ (V.view view.now).source.content.length) }
    ensures count { IfOk result (λ batch. batch.blocks ≡ length blocks.now) }
    ensures has { let m = (V.view view.now).source.content in IsSound m
        → IfOk result (HasBlocks m.node blocks.now) }
    ensures refused { let m = (V.view view.now).source.content in MatchResult result
        (λ _. append_refusal m blocks.now ≡ None)
        (λ fault. (fault ≡ MemoryFault) ⊎ (append_refusal m blocks.now ≡ Some fault)) }
{
    let mut batch = match Batch::new(alloc, blocks.len()) {
        Ok(batch) => batch,
        Err(Memory) => return Err(CoreFault::Memory),
    };
    batch.start(view.roots(), view.head().length);
    match push_all(&mut batch, blocks) {
        Ok(()) => Ok(batch),
        Err(Limit { what, max }) => Err(CoreFault::Limit { what, max }),
    }
}

// Pushes each block into an empty batch with capacity for all of them, up to the first that passes a limit.
fn push_all(batch: &mut Batch, blocks: &Blobs) -> Result<(), Limit>
    requires capacity { (length blocks.now ≤ batch.old.room) ⊎ (MAX_BATCH_BLOCKS ≤ batch.old.room) }
    requires empty { batch.old.blocks ≡ 0 }
    requires no_bytes { batch.old.bytes ≡ 0 }
    ensures limit { limit_fault result
        ≡ limit_in batch.old.base (bytes_under batch.old.roots) 0 0 blocks.now }
    ensures base { batch.new.base ≡ batch.old.base }
    ensures count { OnOk result (batch.new.blocks ≡ length blocks.now) }
    ensures held { OnOk result ((known : Values) → HasBlocks known [] batch.old
        → HasBlocks known blocks.now batch.new) }
{
    for place in 0..blocks.len() {
        match batch.push(blocks.get(place)) {
            Ok(()) => {}
            Err(limit) => return Err(limit),
        }
    }
    Ok(())
}
