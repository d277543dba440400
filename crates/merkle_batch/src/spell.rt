//! The bytes of a proof bundle (docs/FORMATS.md, "Proof bundle").
ghost use Rattle.std.specs.Prelude.{◌≡◌, ◌≤◌, ◌+◌, ◌*◌, ◌++◌, length, OnOk, OnErr, vec_capacity};
ghost use Rattle.std.specs.List.{flat_map};
ghost use Rattle.merkle_nodes.specs.Tree.{u64_bytes};
ghost use Rattle.merkle_nodes.specs.Bundle.{start_spelling, node_spelling, twig_spelling, spelling};
ghost use Rattle.merkle_nodes.specs.View.{view};

use flat_tree::MAX_BLOCK_BYTES;
use merkle_nodes::{Bundle, MAGIC, NUMBER_BYTES, Node, START_BYTES, Start, TWIG_BYTES, Twig};
use outside_traits::Memory;

/// Writes a bundle behind the bytes in `out`, which are all there is after `Memory`.
#[tactic(auto, unfolding(merkle_nodes::specs::Bundle::spelling))]
pub fn put_bundle(out: &mut Vec<u8>, bundle: &Bundle<'_>) -> Result<(), Memory>
    requires { length bundle.now.block.now ≤ MAX_BLOCK_BYTES }
    ensures ok { OnOk result (out.new.items ≡ out.old.items ++ spelling (view bundle.now)) }
    ensures err { OnErr result (out.new.items ≡ out.old.items) }
{
    let twigs = bundle.roots.len() + bundle.trail.len();
    let size = START_BYTES + TWIG_BYTES * twigs + NUMBER_BYTES + bundle.block.len();
    if out.reserve(size).is_err() {
        return Err(Memory);
    }
    put_start(out, &bundle.start);
    put_nodes(out, bundle.roots.as_slice());
    put_twigs(out, bundle.trail.as_slice());
    put_bytes(out, &(bundle.block.len() as u64).to_le_bytes());
    put_bytes(out, bundle.block);
    Ok(())
}

fn put_start(out: &mut Vec<u8>, start: &Start)
    requires room { length out.old.items + START_BYTES ≤ vec_capacity out.old }
    ensures items { out.new.items ≡ out.old.items ++ start_spelling start.now }
    ensures many { length out.new.items ≡ length out.old.items + START_BYTES }
    ensures capacity { vec_capacity out.old ≤ vec_capacity out.new }
{
    put_bytes(out, MAGIC);
    put_bytes(out, &start.fork.to_le_bytes());
    put_bytes(out, &start.length.to_le_bytes());
    put_bytes(out, &start.index.to_le_bytes());
    put_bytes(out, &start.signature);
}

fn put_nodes(out: &mut Vec<u8>, nodes: &[Node])
    requires room { length out.old.items + TWIG_BYTES * length nodes.now ≤ vec_capacity out.old }
    ensures items { out.new.items ≡ out.old.items ++ flat_map node_spelling nodes.now }
    ensures many { length out.new.items ≡ length out.old.items + TWIG_BYTES * length nodes.now }
    ensures capacity { vec_capacity out.old ≤ vec_capacity out.new }
{
    for node in nodes {
        put_twig(out, node.size, &node.hash);
    }
}

fn put_twigs(out: &mut Vec<u8>, twigs: &[Twig])
    requires room { length out.old.items + TWIG_BYTES * length twigs.now ≤ vec_capacity out.old }
    ensures items { out.new.items ≡ out.old.items ++ flat_map twig_spelling twigs.now }
    ensures many { length out.new.items ≡ length out.old.items + TWIG_BYTES * length twigs.now }
    ensures capacity { vec_capacity out.old ≤ vec_capacity out.new }
{
    for twig in twigs {
        put_twig(out, twig.size, &twig.hash);
    }
}

// A size and a hash.
fn put_twig(out: &mut Vec<u8>, size: u64, hash: &[u8; 32])
    requires room { length out.old.items + TWIG_BYTES ≤ vec_capacity out.old }
    ensures items { out.new.items ≡ out.old.items ++ u64_bytes size ++ hash.now }
    ensures many { length out.new.items ≡ length out.old.items + TWIG_BYTES }
    ensures capacity { vec_capacity out.old ≤ vec_capacity out.new }
{
    put_bytes(out, &size.to_le_bytes());
    put_bytes(out, hash);
}

// The memory was taken, so this doesn't fail.
fn put_bytes(out: &mut Vec<u8>, bytes: &[u8])
    requires room { length out.old.items + length bytes.now ≤ vec_capacity out.old }
    ensures items { out.new.items ≡ out.old.items ++ bytes.now }
    ensures many { length out.new.items ≡ length out.old.items + length bytes.now }
    ensures capacity { vec_capacity out.old ≤ vec_capacity out.new }
{
    let _ = out.extend_from_slice(bytes);
}
