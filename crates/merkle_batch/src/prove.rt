//! The honest proof of a block of a log in hand.
ghost use Rattle.std.specs.Prelude.{◌≡◌, ◌≢◌, ◌↔◌, ◌≤◌, ◌<◌, ◌+◌, ℕ, [], List, length, IfOk, IfErr, OnErr};
ghost use Rattle.std.specs.List.{Contains};
ghost use Rattle.std.specs.Result.{IsErrOf};
ghost use Rattle.merkle_nodes.specs.declared.node.Node.{Node as NodeSeen};
ghost use Rattle.merkle_nodes.specs.Roots.{twig_of, roots_of};
ghost use Rattle.merkle_batch.specs.Batch.{nodes_of, empty_on};
ghost use Rattle.merkle_batch.specs.Honest.{AppendFits, AppendsProof, trail_of};

use crate::batch::Batch;
use crate::spell::put_bundle;
use flat_tree::{MAX_BATCH_BLOCKS, parent, root_of_block, sibling};
use merkle_nodes::{Bundle, Node, Start, Trail, Twig, root_hash, signable};
use outside_traits::{Blobs, Memory, Signer};
use std::alloc::Global;

/// Why there is no proof. Nothing was written.
#[derive(Clone, Copy, Debug, PartialEq, Eq)]
pub enum ProveFault {
    /// Want of memory.
    Memory,
    /// The log has no block of the index, only so many.
    OutOfRange { end: u64 },
}

/// Writes the proof bundle of the block at an index of the log of these blocks (docs/FORMATS.md, "Proof bundle") behind
/// the bytes in `out`, under fork 0. Each block is hashed once.
pub fn prove_block<S: Signer>(
    alloc: Global,
    blocks: &Blobs,
    index: u64,
    signer: &S,
    out: &mut Vec<u8>,
) -> Result<(), ProveFault>
    requires fits { AppendFits blocks.now }
    ensures ok { IfOk result (λ _. AppendsProof (S.accepts signer.now) blocks.now index
        out.old.items out.new.items) }
    ensures out_of_range { IsErrOf result (ProveFault.OutOfRange (length blocks.now))
        ↔ (length blocks.now ≤ index) }
    ensures memory { index < length blocks.now → IfErr result (λ fault. fault ≡ ProveFault.Memory) }
    ensures err { OnErr result (out.new.items ≡ out.old.items) }
{
    let end = blocks.len() as u64;
    if end <= index {
        return Err(ProveFault::OutOfRange { end });
    }
    let batch = match batch_of(alloc, blocks) {
        Ok(batch) => batch,
        Err(_) => return Err(ProveFault::Memory),
    };
    let text = signable(&root_hash(batch.roots()), end, 0);
    let bundle = Bundle {
        start: Start {
            fork: 0,
            length: end,
            index,
            signature: signer.sign(&text),
        },
        roots: batch.roots().copy(),
        trail: trail_in(batch.nodes(), blocks, index),
        block: blocks.get(index as usize),
    };
    match put_bundle(out, &bundle) {
        Ok(()) => Ok(()),
        Err(_) => Err(ProveFault::Memory),
    }
}

// The batch of all blocks behind the empty log.
fn batch_of(alloc: Global, blocks: &Blobs) -> Result<Batch, Memory>
    requires { AppendFits blocks.now }
    ensures roots { IfOk result (λ batch. batch.roots ≡ roots_of blocks.now) }
    ensures nodes { IfOk result (λ batch. batch.nodes ≡ nodes_of blocks.now) }
{
    let mut batch = match Batch::new(alloc, blocks.len()) {
        Ok(batch) => batch,
        Err(Memory) => return Err(Memory),
    };
    push_all(&mut batch, blocks);
    Ok(batch)
}

// Pushes each block. None passes a limit.
fn push_all(batch: &mut Batch, blocks: &Blobs)
    requires fits { AppendFits blocks.now }
    requires empty { batch.old ≡ empty_on (length blocks.now) 0 [] }
    ensures roots { batch.new.roots ≡ roots_of blocks.now }
    ensures nodes { batch.new.nodes ≡ nodes_of blocks.now }
{
    for place in 0..blocks.len() {
        let _ = batch.push(blocks.get(place));
    }
}

// The siblings of a block's path below the root over it, from the leaf upward.
fn trail_in(nodes: &[Node], blocks: &Blobs, index: u64) -> Trail
    requires few { length blocks.now ≤ MAX_BATCH_BLOCKS }
    requires nodes { nodes.now ≡ nodes_of blocks.now }
    requires within { index < length blocks.now }
    ensures { result ≡ trail_of blocks.now index }
{
    let (_, depth) = root_of_block(blocks.len() as u64, index);
    let mut trail = Trail::new(Twig::BLANK);
    let mut node = flat_tree::index(0, index);
    for _ in 0..depth {
        trail.push(twig_in(nodes, sibling(node)));
        node = parent(node);
    }
    trail
}

// The node of a number that is there.
fn twig_in(nodes: &[Node], index: u64) -> Twig
    requires { (node : NodeSeen) × Contains nodes.now node × (node.index ≡ index) }
    ensures { (node : NodeSeen) × Contains nodes.now node × (node.index ≡ index)
        × (result ≡ twig_of node) }
{
    for node in nodes {
        if node.index == index {
            return node.twig();
        }
    }
    unreachable!()
}
