//! A batch of blocks behind a log.
ghost use Rattle.std.specs.Prelude.{◌≡◌, ◌≤◌, ℕ, Some, [], List, length, IfOk};
ghost use Rattle.merkle_batch.specs.Limits.{limit_of};

use crate::push::{add_leaf, bytes_under};
use flat_tree::{
    MAX_BATCH_BLOCKS, MAX_BATCH_BYTES, MAX_BLOCK_BYTES, MAX_BLOCKS, MAX_CORE_BYTES, MAX_ROOTS,
};
use merkle_nodes::{Limit, Node, Roots, What, leaf};
use outside_traits::Memory;
use std::alloc::Global;
use std::marker::Model;

/// Blocks that are to be appended, as the nodes and roots that they make. Their bytes aren't kept.
#[derive(Drop)]
pub struct Batch {
    // How many blocks there is memory for.
    room: usize,
    // The length of the log before.
    base: u64,
    blocks: usize,
    bytes: u64,
    // The bytes under the roots.
    total: u64,
    roots: Roots,
    nodes: Vec<Node>,
}

impl Model for Batch {
    ghost use Rattle.merkle_batch.specs.Batch.{BatchView};
    ghost use Rattle.merkle_batch.specs.Kept.{IsKept};

    ghost Value = { BatchView };

    ghost view = { λ batch. record {
      room = batch.room;
      base = batch.base;
      blocks = batch.blocks;
      bytes = batch.bytes;
      roots = batch.roots;
      nodes = batch.nodes.items;
    } };

    ghost invariant = { λ batch.
        IsKept batch.room batch.base batch.blocks batch.bytes batch.total batch.roots batch.nodes };
}

impl Batch {
    ghost use Rattle.std.specs.Prelude.{◌⊎◌, ◌↔◌, ◌<◌, ◌+◌, IfOk, OnOk, OnErr, IsOk, Some, None};
    ghost use Rattle.std.specs.Result.{IsErrOf};
    ghost use Rattle.flat_tree.specs.Roots.{full_roots_of};
    ghost use Rattle.merkle_nodes.specs.Roots.{HasShape};
    ghost use Rattle.merkle_nodes.specs.Joined.{Values};
    ghost use Rattle.merkle_nodes.specs.Nodes.{AreNodes, bytes_under};
    ghost use Rattle.merkle_batch.specs.Batch.{HasBlocks, PushesBlock, empty_on, SizeFits};
    ghost use Rattle.std.specs.List.{AllByRecursion};
    ghost use Rattle.merkle_batch.specs.Limits.{FitsBytes, PassesBlock, PassesBatch, PassesBatchBytes, PassesBlocks, PassesBytes, block_limit, batch_limit, batch_bytes_limit, blocks_limit, bytes_limit};

    /// An empty batch behind the empty log. It takes all the memory for so many blocks at once; no call takes any
    /// later. More than `MAX_BATCH_BLOCKS` are as good as that many.
    pub fn new(alloc: Global, room: usize) -> Result<Batch, Memory>
        ensures empty { IfOk result (λ batch. batch ≡ empty_on room 0 []) }
        ensures held { IfOk result (λ batch. (known : Values) → HasBlocks known [] batch) }
    {
        let most = room.min(MAX_BATCH_BLOCKS);
        match Vec::with_capacity(alloc, 2 * most + MAX_ROOTS) {
            Ok(nodes) => Ok(Batch {
                room,
                base: 0,
                blocks: 0,
                bytes: 0,
                total: 0,
                roots: Roots::new(Node::BLANK),
                nodes,
            }),
            Err(_) => Err(Memory),
        }
    }

    /// Leaves an empty batch behind a log of this length with these roots.
    pub fn start(&mut self, roots: &Roots, length: u64)
        requires within { length ≤ MAX_BLOCKS }
        requires shape { HasShape roots.now length }
        requires sizes { AllByRecursion SizeFits roots.now }
        ensures empty { self.new ≡ empty_on self.old.room length roots.now }
        ensures held { (known : Values) → AreNodes known (full_roots_of length) roots.now
            → HasBlocks known [] self.new }
    {
        self.base = length;
        self.blocks = 0;
        self.bytes = 0;
        self.total = bytes_under(roots.as_slice());
        self.roots = roots.copy();
        self.nodes.clear();
    }

    /// Adds a block at the end. A refused one changes nothing.
    pub fn push(&mut self, block: &[u8]) -> Result<(), Limit>
        requires room { (self.old.blocks < self.old.room) ⊎ (MAX_BATCH_BLOCKS ≤ self.old.room) }
        ensures ok { OnOk result (PushesBlock block.now self.old self.new) }
        ensures fits { IsOk result ↔ FitsBytes self.old (length block.now) }
        ensures block { IsErrOf result block_limit ↔ PassesBlock (length block.now) }
        ensures batch { IsErrOf result batch_limit ↔ PassesBatch self.old (length block.now) }
        ensures batch_bytes { IsErrOf result batch_bytes_limit
            ↔ PassesBatchBytes self.old (length block.now) }
        ensures blocks { IsErrOf result blocks_limit ↔ PassesBlocks self.old (length block.now) }
        ensures bytes { IsErrOf result bytes_limit ↔ PassesBytes self.old (length block.now) }
        ensures err { OnErr result (self.new ≡ self.old) }
    {
        let size = block.len() as u64;
        if let Some(limit) = self.passed(size) {
            return Err(limit);
        }
        let index = self.base + self.blocks as u64;
        add_leaf(&mut self.nodes, &mut self.roots, index, leaf(index, block));
        self.blocks += 1;
        self.bytes += size;
        self.total += size;
        Ok(())
    }

    // The first limit that one more block of so many bytes would pass.
    fn passed(&self, size: u64) -> Option<Limit>
        ensures fits { result ≡ None ↔ FitsBytes self.now size }
        ensures block { result ≡ Some block_limit ↔ PassesBlock size }
        ensures batch { result ≡ Some batch_limit ↔ PassesBatch self.now size }
        ensures batch_bytes { result ≡ Some batch_bytes_limit ↔ PassesBatchBytes self.now size }
        ensures blocks { result ≡ Some blocks_limit ↔ PassesBlocks self.now size }
        ensures bytes { result ≡ Some bytes_limit ↔ PassesBytes self.now size }
    {
        if size > MAX_BLOCK_BYTES {
            return limit(What::Block, MAX_BLOCK_BYTES);
        }
        if self.blocks >= MAX_BATCH_BLOCKS {
            return limit(What::Batch, MAX_BATCH_BLOCKS as u64);
        }
        if self.bytes + size > MAX_BATCH_BYTES {
            return limit(What::BatchBytes, MAX_BATCH_BYTES);
        }
        if self.base + self.blocks as u64 >= MAX_BLOCKS {
            return limit(What::Blocks, MAX_BLOCKS);
        }
        if self.total + size > MAX_CORE_BYTES {
            return limit(What::Bytes, MAX_CORE_BYTES);
        }
        None
    }

    /// Every node that became full, in order of making: block by block, from the leaf upward.
    pub fn nodes(&self) -> &[Node]
        ensures nodes { result.now ≡ self.now.nodes }
        ensures sizes { AllByRecursion SizeFits result.now }
    {
        self.nodes.as_slice()
    }

    /// The roots of the log with the blocks.
    pub fn roots(&self) -> &Roots
        ensures roots { result.now ≡ self.now.roots }
        ensures shape { HasShape result.now (self.now.base + self.now.blocks) }
        ensures sizes { AllByRecursion SizeFits result.now }
    {
        &self.roots
    }

    /// The length of the log with the blocks.
    pub fn length(&self) -> u64
        ensures length { result ≡ self.now.base + self.now.blocks }
        ensures within { result ≤ MAX_BLOCKS }
    {
        self.base + self.blocks as u64
    }

    /// How many blocks the batch has.
    pub fn blocks(&self) -> usize
        ensures { result ≡ self.now.blocks }
    {
        self.blocks
    }

    /// How many bytes they have.
    pub fn bytes(&self) -> u64
        ensures { result ≡ self.now.bytes }
    {
        self.bytes
    }
}

// Some limit.
fn limit(what: What, max: u64) -> Option<Limit>
    ensures { result ≡ Some (limit_of what max) }
{
    Some(Limit { what, max })
}
