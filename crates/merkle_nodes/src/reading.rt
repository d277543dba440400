//! Reading a bundle's bytes from left to right (docs/FORMATS.md, "Proof bundle").
ghost use Rattle.std.specs.Prelude.{◌≡◌, ◌≤◌, ◌<◌, ◌^◌, ℕ, List, length, IfOk};
ghost use Rattle.flat_tree.specs.Subtrees.{numbers_of};
ghost use Rattle.flat_tree.specs.Roots.{full_roots_of, depth_over};
ghost use Rattle.merkle_nodes.specs.Reading.{Gives, bytes_at, number_at, magic_at, start_at, twig_at, nodes_at, twigs_at, block_of, bundle_of};
ghost use Rattle.merkle_nodes.specs.View.{view};

use crate::bundle::Bundle;
use crate::node::{HASH_BYTES, Node, Roots, Trail, Twig};
use flat_tree::{
    MAX_BLOCK_BYTES, MAX_BLOCKS, MAX_CORE_BYTES, MAX_FORK, MAX_ROOTS, MAX_SIBLINGS, full_roots,
    root_of_block,
};

/// The bytes that each bundle begins with.
pub const MAGIC: &[u8; 8] = b"HCPROOF1";
/// The bytes of a number.
pub const NUMBER_BYTES: usize = 8;
/// The bytes of a signature.
const SIGNATURE_BYTES: usize = 64;
/// The bytes of a bundle up to its roots: the magic bytes, three numbers and a signature.
pub const START_BYTES: usize = 8 + 3 * NUMBER_BYTES + SIGNATURE_BYTES;
/// The bytes of a root or a twig: a size and a hash.
pub const TWIG_BYTES: usize = NUMBER_BYTES + HASH_BYTES;
/// The most roots and twigs that a bundle has: a log of the most blocks has one root and the most siblings, and any
/// shorter one has no more roots than digits, and fewer siblings.
const MAX_TWIGS: usize = MAX_ROOTS + MAX_SIBLINGS - 1;
/// The most bytes that a bundle has.
pub const MAX_BUNDLE_BYTES: usize = START_BYTES
    + MAX_TWIGS * TWIG_BYTES
    + NUMBER_BYTES
    + MAX_BLOCK_BYTES as usize;

/// A field isn't whole or is outside its range, and so many bytes are left from its first on.
#[derive(Clone, Copy, Debug)]
pub struct BadField {
    pub left: usize,
}

/// So many bytes as they are.
#[tactic(auto, unfolding(crate::specs::Reading::bytes_at))]
fn bytes_from(count: usize, bytes: &[u8]) -> Result<(&[u8], &[u8]), BadField>
    ensures gives { Gives (λ x. (x.0.now, x.1.now)) result (bytes_at count bytes.now) }
    ensures count { IfOk result (λ x. length x.0.now ≡ count) }
{
    if count <= bytes.len() {
        Ok(bytes.split_at(count))
    } else {
        Err(BadField { left: bytes.len() })
    }
}

/// A number of eight bytes, low byte first, from `low` to `high`.
#[tactic(auto, unfolding(crate::specs::Reading::number_at))]
fn number_from(low: u64, high: u64, bytes: &[u8]) -> Result<(u64, &[u8]), BadField>
    ensures gives { Gives (λ x. (x.0, x.1.now)) result (number_at low high bytes.now) }
    ensures low { IfOk result (λ x. low ≤ x.0) }
    ensures high { IfOk result (λ x. x.0 ≤ high) }
{
    let (eight, rest) = bytes_from(8, bytes)?;
    let number = u64::from_le_bytes([
        eight[0], eight[1], eight[2], eight[3], eight[4], eight[5], eight[6], eight[7],
    ]);
    if low <= number && number <= high {
        Ok((number, rest))
    } else {
        Err(BadField { left: bytes.len() })
    }
}

/// The magic bytes.
#[tactic(auto, unfolding(crate::specs::Reading::magic_at))]
fn magic_from(bytes: &[u8]) -> Result<(&[u8], &[u8]), BadField>
    ensures { Gives (λ x. (x.0.now, x.1.now)) result (magic_at bytes.now) }
{
    let (eight, rest) = bytes_from(8, bytes)?;
    if eight == MAGIC.as_slice() {
        Ok((eight, rest))
    } else {
        Err(BadField { left: bytes.len() })
    }
}

/// What a bundle begins with: a head's fork, length in blocks and signature, and the index of the block.
#[derive(Clone, Copy)]
pub struct Start {
    pub fork: u64,
    pub length: u64,
    pub index: u64,
    pub signature: [u8; 64],
}

#[tactic(auto, unfolding(crate::specs::Reading::start_at))]
fn start_from(bytes: &[u8]) -> Result<(Start, &[u8]), BadField>
    ensures gives { Gives (λ x. (x.0, x.1.now)) result (start_at bytes.now) }
    ensures some { IfOk result (λ x. 0 < x.0.length) }
    ensures few { IfOk result (λ x. x.0.length ≤ MAX_BLOCKS) }
    ensures index { IfOk result (λ x. x.0.index < x.0.length) }
{
    let (_, rest) = magic_from(bytes)?;
    let (fork, rest) = number_from(0, MAX_FORK, rest)?;
    let (length, rest) = number_from(1, MAX_BLOCKS, rest)?;
    let (index, rest) = number_from(0, length - 1, rest)?;
    let (signature, rest) = signature_from(rest)?;
    let start = Start {
        fork,
        length,
        index,
        signature,
    };
    Ok((start, rest))
}

#[tactic(auto, unfolding(crate::specs::Reading::twig_at))]
fn twig_from(bytes: &[u8]) -> Result<(Twig, &[u8]), BadField>
    ensures { Gives (λ x. (x.0, x.1.now)) result (twig_at bytes.now) }
{
    let (size, rest) = number_from(0, MAX_CORE_BYTES, bytes)?;
    let (hash, rest) = hash_from(rest)?;
    Ok((Twig { size, hash }, rest))
}

fn signature_from(bytes: &[u8]) -> Result<([u8; 64], &[u8]), BadField>
    ensures { Gives (λ x. (x.0, x.1.now)) result (bytes_at 64 bytes.now) }
{
    let (front, rest) = bytes_from(64, bytes)?;
    let mut signature = [0; 64];
    signature.copy_from_slice(front);
    Ok((signature, rest))
}

fn hash_from(bytes: &[u8]) -> Result<([u8; 32], &[u8]), BadField>
    ensures { Gives (λ x. (x.0, x.1.now)) result (bytes_at 32 bytes.now) }
{
    let (front, rest) = bytes_from(32, bytes)?;
    let mut hash = [0; 32];
    hash.copy_from_slice(front);
    Ok((hash, rest))
}

/// A node for each number, in order.
fn nodes_from<'b>(numbers: &[u64], bytes: &'b [u8]) -> Result<(Roots, &'b [u8]), BadField>
    requires { length numbers.now ≤ MAX_ROOTS }
    ensures { Gives (λ x. (x.0, x.1.now)) result (nodes_at numbers.now bytes.now) }
{
    let mut nodes = Roots::new(Node::BLANK);
    let mut rest = bytes;
    for index in numbers {
        match twig_from(rest) {
            Ok((twig, after)) => {
                nodes.push(twig.numbered(*index));
                rest = after;
            }
            Err(bad) => return Err(bad),
        }
    }
    Ok((nodes, rest))
}

/// So many twigs.
fn twigs_from(count: u32, bytes: &[u8]) -> Result<(Trail, &[u8]), BadField>
    requires { count ≤ MAX_SIBLINGS }
    ensures { Gives (λ x. (x.0, x.1.now)) result (twigs_at count bytes.now) }
{
    let mut twigs = Trail::new(Twig::BLANK);
    let mut rest = bytes;
    for _ in 0..count {
        match twig_from(rest) {
            Ok((twig, after)) => {
                twigs.push(twig);
                rest = after;
            }
            Err(bad) => return Err(bad),
        }
    }
    Ok((twigs, rest))
}

/// A block behind its length, after which nothing follows.
#[tactic(auto, unfolding(crate::specs::Reading::block_of))]
fn block_from(bytes: &[u8]) -> Result<&[u8], BadField>
    ensures { Gives (λ x. x.now) result (block_of bytes.now) }
{
    let (size, rest) = number_from(0, MAX_BLOCK_BYTES, bytes)?;
    let (block, rest) = bytes_from(size as usize, rest)?;
    if !rest.is_empty() {
        return Err(BadField { left: rest.len() });
    }
    Ok(block)
}

/// The bundle that the bytes spell, all of the bytes; or the first field that isn't whole or is outside its range.
#[tactic(auto, unfolding(crate::specs::Reading::bundle_of))]
pub fn read_bundle(bytes: &[u8]) -> Result<Bundle<'_>, BadField>
    ensures { Gives view result (bundle_of bytes.now) }
{
    let (start, rest) = start_from(bytes)?;
    let (roots, rest) = nodes_from(full_roots(start.length).as_slice(), rest)?;
    let (_, depth) = root_of_block(start.length, start.index);
    let (trail, rest) = twigs_from(depth, rest)?;
    let block = block_from(rest)?;
    Ok(Bundle {
        start,
        roots,
        trail,
        block,
    })
}
