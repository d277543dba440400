//! Whether an offered block fits the node that its path meets.
ghost use Rattle.std.specs.Prelude.{◌≡◌, ℕ, ◌+◌, ◌*◌, ◌/◌, ◌^◌, ◌<◌, ◌≤◌, Some, None, length};
ghost use Rattle.flat_tree.specs.declared.limits.TheConstants.{MAX_FRESH_NODES};
ghost use Rattle.node_set.specs.Contents.{Content};
ghost use Rattle.node_set.specs.Same.{is_same};
ghost use Rattle.node_set.specs.Walks.{IsInTree};
ghost use Rattle.flat_tree.specs.Subtrees.{number};
ghost use Rattle.proof_form.specs.Proofs.{BlockFits};
ghost use Rattle.proof_check.specs.Admission.{Ascends};
ghost use Rattle.proof_check.specs.Meets.{seen, IsTop, block_refusal, PutsPath};

use crate::path::{Met, fold_up};
use merkle_nodes::Twig;
use node_set::{Fresh, Refusal};
use proof_form::BlockPart;

/// Why a block is refused where its path meets a stored node. Where it isn't, the nodes of its path below come in.
pub(crate) fn refused_block(block: &BlockPart<'_>, met: &Met, fresh: &mut Fresh) -> Option<Refusal>
    requires tree { IsInTree block.now.index met.now.level }
    requires fits { BlockFits (seen block.now) }
    requires order { Ascends fresh.old }
    requires room { length fresh.old + 2 * met.now.level ≤ MAX_FRESH_NODES }
    ensures refusal { (m : Content) → IsTop m (seen block.now) met.now
        → result ≡ block_refusal m (seen block.now) }
    ensures puts { result ≡ None → PutsPath (seen block.now) met.now.level fresh.old fresh.new }
    ensures order { Ascends fresh.new }
    ensures few { length fresh.new ≤ length fresh.old + 2 * met.now.level }
{
    let trail = block.trail.as_slice();
    if trail.len() < met.level as usize {
        let index = number_over(block.index, trail.len() as u32);
        return Some(Refusal::Uncovered { index });
    }
    let have = fold_up(block.index, block.bytes, trail, met.level, fresh).twig();
    let want = met.node.twig();
    if !is_same(&want, &have) {
        let index = number_over(block.index, met.level);
        return Some(Refusal::HashDiffers { index, want, have });
    }
    None
}

// The node of a block's path at a level.
fn number_over(index: u64, level: u32) -> u64
    requires { IsInTree index level }
    ensures { result ≡ number level (index / 2 ^ level) }
{
    flat_tree::index(level, index >> level)
}

// Whether two twigs have one size and one hash.
fn is_same(one: &Twig, other: &Twig) -> bool
    ensures { result ≡ is_same one.now other.now }
{
    one.size == other.size && one.hash == other.hash
}
