//! Blocks that come in at the end of a content in memory.
ghost use Rattle.std.specs.Prelude.{◌≡◌, ◌<◌, ◌≤◌, ◌+◌, ◌++◌, ◌⊎◌, ℕ, List, [], true, length, IsOk, OnOk, OnErr};
ghost use Rattle.std.specs.List.{AllByRecursion};
ghost use Rattle.flat_tree.specs.declared.limits.TheConstants.{MAX_BATCH_BLOCKS};
ghost use Rattle.bit_field.specs.Places.{has};
ghost use Rattle.bit_field.specs.declared.bits.TheConstants.{MAX_PLACES};
ghost use Rattle.merkle_nodes.specs.declared.node.Node.{Node};
ghost use Rattle.merkle_nodes.specs.Joined.{Values};
ghost use Rattle.merkle_nodes.specs.Nodes.{bytes_under};
ghost use Rattle.merkle_batch.specs.Batch.{HasBlocks};
ghost use Rattle.node_set.specs.Contents.{held};
ghost use Rattle.node_set.specs.Nodes.{has_place, values_of};
ghost use Rattle.core_state.specs.Events.{Append};
ghost use Rattle.core_state.specs.Refusals.{limit_in};
ghost use Rattle.core_state.specs.Batches.{Prepares, IsBatch, limit_fault};
ghost use Rattle.core_state.specs.Turns.{Turns, Extends};
ghost use Rattle.core_state.specs.InMemory.{content_of};

use crate::stored::{MemState, signature_of};
use bit_field::Bits;
use commit_book::Commit;
use merkle_batch::Batch;
use merkle_nodes::{Head, Limit, root_hash};
use node_set::{CoreFault, Nodes, Receipt};
use outside_traits::{Blob, Blobs, Memory, Signer};
use std::alloc::Global;

impl MemState {
    /// Appends blocks under a signed head. Without memory, or where a limit would be passed, the content is as it was.
    pub(crate) fn append<A: Signer>(
        &mut self,
        alloc: Global,
        blocks: &Blobs,
        auth: &A,
    ) -> Result<Receipt, CoreFault>
        ensures { Turns (A.accepts auth.now) (content_of self.old) (Append blocks.now)
            (content_of self.new) result }
    {
        if blocks.len() == 0 {
            return Ok(self.receipt(None));
        }
        let batch = match self.batch(alloc, blocks) {
            Ok(batch) => batch,
            Err(fault) => return Err(fault),
        };
        match self.extend(alloc, blocks, &batch, auth) {
            Ok(()) => Ok(self.receipt(Some(Commit::Append {
                count: blocks.len() as u64,
            }))),
            Err(Memory) => Err(CoreFault::Memory),
        }
    }

    // The batch of some blocks behind the log. It takes all its memory first.
    fn batch(&self, alloc: Global, blocks: &Blobs) -> Result<Batch, CoreFault>
        ensures { Prepares (content_of self.now) blocks.now result }
    {
        let mut batch = match Batch::new(alloc, blocks.len()) {
            Ok(batch) => batch,
            Err(Memory) => return Err(CoreFault::Memory),
        };
        batch.start(&self.roots, self.head.length);
        match push_all(&mut batch, blocks) {
            Ok(()) => Ok(batch),
            Err(Limit { what, max }) => Err(CoreFault::Limit { what, max }),
        }
    }

    // Puts the blocks of a batch in. All memory is taken before anything changes, and nothing is signed without it.
    fn extend<A: Signer>(
        &mut self,
        alloc: Global,
        blocks: &Blobs,
        batch: &Batch,
        auth: &A,
    ) -> Result<(), Memory>
        requires batch { IsBatch (content_of self.old) blocks.now batch.now }
        ensures ok { OnOk result (Extends (A.accepts auth.now) (content_of self.old) blocks.now
            (content_of self.new)) }
        ensures below { (index : ℕ) → held (content_of self.old) index ≡ true
            → index < (content_of self.old).length }
        ensures err { OnErr result (content_of self.new ≡ content_of self.old) }
    {
        let room = make_room(
            alloc,
            &mut self.held,
            &mut self.nodes,
            &mut self.blocks,
            batch,
            blocks,
        );
        match room {
            Ok(()) => {}
            Err(Memory) => return Err(Memory),
        }
        let Head { fork, length, .. } = self.head;
        let end = batch.length();
        self.nodes.insert_all(batch.nodes());
        self.held.set_range(length, end);
        self.roots = batch.roots().copy();
        self.root = root_hash(batch.roots());
        self.head = Head {
            fork,
            length: end,
            signature: signature_of(auth, &self.root, end, fork),
        };
        Ok(())
    }
}

/// Pushes each block into an empty batch with room for all of them, or for as many as one append adds, up to the first that
/// passes a limit.
pub fn push_all(batch: &mut Batch, blocks: &Blobs) -> Result<(), Limit>
    requires room { (length blocks.now ≤ batch.old.room) ⊎ (MAX_BATCH_BLOCKS ≤ batch.old.room) }
    requires empty { batch.old.blocks ≡ 0 }
    requires no_bytes { batch.old.bytes ≡ 0 }
    ensures limit { limit_fault result
        ≡ limit_in batch.old.base (bytes_under batch.old.roots) 0 0 blocks.now }
    ensures base { batch.new.base ≡ batch.old.base }
    ensures room { batch.new.room ≡ batch.old.room }
    ensures held { OnOk result ((known : Values) → HasBlocks known [] batch.old
        → HasBlocks known blocks.now batch.new) }
{
    for place in 0..blocks.len() {
        match batch.push(blocks.get(place)) {
            Ok(()) => {}
            Err(limit) => return Err(limit),
        }
    }
    Ok(())
}

// Takes all memory that a batch's blocks want: for their places, their nodes, and last their copies.
fn make_room(
    alloc: Global,
    held: &mut Bits,
    nodes: &mut Nodes,
    kept: &mut Vec<Blob>,
    batch: &Batch,
    blocks: &Blobs,
) -> Result<(), Memory>
    ensures places { OnOk result (batch.now.base + batch.now.blocks ≤ length held.new) }
    ensures more { length held.old ≤ length held.new }
    ensures held { (place : ℕ) → has held.new place ≡ has held.old place }
    ensures nodes { OnOk result (AllByRecursion
        (λ (node : Node). has_place nodes.new node.index ≡ true) batch.now.nodes) }
    ensures values { values_of nodes.new ≡ values_of nodes.old }
    ensures ok { OnOk result (kept.new.items ≡ kept.old.items ++ blocks.now) }
    ensures err { OnErr result (kept.new.items ≡ kept.old.items) }
{
    match make_places(alloc, held, batch.length()) {
        Ok(()) => {}
        Err(Memory) => return Err(Memory),
    }
    match nodes.reserve_all(alloc, batch.nodes()) {
        Ok(()) => {}
        Err(Memory) => return Err(Memory),
    }
    push_copies(alloc, kept, blocks)
}

/// Makes so many places at least, of which the further ones are not in the set.
pub(crate) fn make_places(alloc: Global, held: &mut Bits, count: u64) -> Result<(), Memory>
    requires within { count ≤ MAX_PLACES }
    ensures places { OnOk result (count ≤ length held.new) }
    ensures idle { count ≤ length held.old → IsOk result }
    ensures more { length held.old ≤ length held.new }
    ensures held { (place : ℕ) → has held.new place ≡ has held.old place }
{
    if count <= held.places() {
        return Ok(());
    }
    held.grow(alloc, count)
}

// Adds a copy of each block, or none without memory.
fn push_copies(alloc: Global, kept: &mut Vec<Blob>, blocks: &Blobs) -> Result<(), Memory>
    ensures ok { OnOk result (kept.new.items ≡ kept.old.items ++ blocks.now) }
    ensures err { OnErr result (kept.new.items ≡ kept.old.items) }
{
    let many = kept.len();
    if kept.reserve(blocks.len()).is_err() {
        return Err(Memory);
    }
    for place in 0..blocks.len() {
        match Blob::from_slice(alloc, blocks.get(place)) {
            Ok(copy) => kept.push_reserved(copy),
            Err(Memory) => {
                kept.truncate(many);
                return Err(Memory);
            }
        }
    }
    Ok(())
}
