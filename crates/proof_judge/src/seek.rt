//! Whether the block of a proof has the byte that was sought.
ghost use Rattle.std.specs.Prelude.{◌≡◌, ℕ, ◌+◌, ◌-◌, ◌*◌, ◌/◌, ◌^◌, ◌<◌, ◌≤◌, Some, not, IsTrue, IfOk};
ghost use Rattle.flat_tree.specs.Roots.{depth_over};
ghost use Rattle.flat_tree.specs.declared.limits.TheConstants.{MAX_BLOCKS, MAX_CORE_BYTES, MAX_ROOTS, MAX_SIBLINGS};
ghost use Rattle.node_set.specs.declared.fault.Refusal.TheVariants.{SeekWrong};
ghost use Rattle.node_set.specs.Contents.{held};
ghost use Rattle.node_set.specs.Refuses.{refuse_if};
ghost use Rattle.node_set.specs.Walks.{IsInTree};
ghost use Rattle.node_set.specs.Whole.{IsClosed};
ghost use Rattle.log_view.specs.Views.{Looks};
ghost use Rattle.log_view.specs.Walks.{AreLeft, BeginsAt, IsLeftAt};
ghost use Rattle.proof_form.specs.Proofs.{BlockFits, Proof as ProofSpelled, view as proof_view, block_view};
ghost use Rattle.proof_check.specs.Judge.{is_in, seek_refusal};
ghost use Rattle.proof_check.specs.Meets.{seen};
ghost use Rattle.proof_judge.specs.PartsMet.{IsWithin, IsBlockWay};
ghost use Rattle.proof_judge.specs.Seeking.{SeekMeets, with_way};

use crate::numbers::bytes_of_roots;
use crate::part::Way;
use flat_tree::root_of_block;
use log_view::View;
use merkle_nodes::Node;
use node_set::{CoreFault, Refusal};
use proof_form::{BlockPart, Proof};

/// `SeekWrong` where the byte that a proof seeks isn't in its block, with the byte at which the block begins in the log
/// after it, and the block's length: the bytes of the roots to its left and of the left siblings on its path. These are
/// in `way`, as `meet_parts` left it, below the first stored node, and are read above it. An `Err` is the view's.
pub fn refused_by_seek<V: View>(
    view: &mut V,
    proof: &Proof<'_>,
    way: &Way,
) -> Result<Option<Refusal>, CoreFault>
    requires within { IsWithin (V.view view.old).source.content.length (proof_view proof.now) }
    requires way { let m = (V.view view.old).source.content in
        IsBlockWay m.length (held m) (block_view proof.now.block) way.now }
    ensures content { let s = (V.view view.old).source in
        IsTrue s.shows → IsClosed s.content.length s.content.block s.content.node
        → IfOk result (λ refusal. refusal ≡ seek_refusal (proof_view proof.now) s.content) }

    // of any view, also of one that doesn't give what is its content's
    ensures given { let s = (V.view view.old).source in
        (IsTrue s.shows → IsClosed s.content.length s.content.block s.content.node)
        → IfOk result (SeekMeets s (proof_view proof.now) way.now) }
    ensures looks { Looks (V.view view.old) (V.view view.new) result }
{
    let Some(byte) = proof.seek else {
        return Ok(None);
    };
    let Some(block) = &proof.block else {
        return Ok(None);
    };
    match begin_of(view, block, way.as_slice()) {
        Ok(begin) => Ok(outside(byte, begin, block.bytes.len() as u64)),
        Err(fault) => Err(fault),
    }
}

// A byte isn't among so many from one on.
fn outside(byte: u64, begin: u64, len: u64) -> Option<Refusal>
    requires few { begin + len < 2 ^ 64 }
    ensures { result ≡ refuse_if (not (is_in byte begin len)) (SeekWrong begin len) }
{
    if begin <= byte && byte < begin + len {
        return None;
    }
    Some(Refusal::SeekWrong { offset: begin, len })
}

// The byte at which a block begins, with its way over what a view stores.
fn begin_of<V: View>(view: &mut V, block: &BlockPart<'_>, way: &[Node]) -> Result<u64, CoreFault>
    requires fits { BlockFits (seen block.now) }
    requires way { let m = (V.view view.old).source.content in
        IsBlockWay m.length (held m) (Some (seen block.now)) way.now }
    ensures begins { let s = (V.view view.old).source in (p : ProofSpelled) → p.block ≡ Some (seen block.now)
        → (IsTrue s.shows → IsClosed s.content.length s.content.block s.content.node)
        → IfOk result (BeginsAt (with_way p way.now s) block.now.index) }
    ensures most { IfOk result (λ begin. begin ≤ (MAX_ROOTS + MAX_SIBLINGS) * MAX_CORE_BYTES) }
    ensures looks { Looks (V.view view.old) (V.view view.new) result }
{
    let (place, levels) = root_of_block(view.head().length, block.index);
    let before = bytes_of_roots(&view.roots().as_slice()[..place]);
    match left_of_path(view, block, levels, way) {
        Ok(left) => Ok(before + left),
        Err(fault) => Err(fault),
    }
}

// The bytes of the left siblings on the path of a block, up to the root over it.
fn left_of_path<V: View>(
    view: &mut V,
    block: &BlockPart<'_>,
    levels: u32,
    way: &[Node],
) -> Result<u64, CoreFault>
    requires fits { BlockFits (seen block.now) }
    requires way { let m = (V.view view.old).source.content in
        IsBlockWay m.length (held m) (Some (seen block.now)) way.now }
    requires levels { levels ≡ depth_over (V.view view.old).source.content.length block.now.index }
    requires tree { IsInTree block.now.index levels }
    ensures left { let s = (V.view view.old).source in (p : ProofSpelled) → p.block ≡ Some (seen block.now)
        → (IsTrue s.shows → IsClosed s.content.length s.content.block s.content.node)
        → IfOk result (AreLeft (with_way p way.now s) block.now.index levels) }
    ensures most { IfOk result (λ bytes. bytes ≤ levels * MAX_CORE_BYTES) }
    ensures looks { Looks (V.view view.old) (V.view view.new) result }
{
    let mut bytes = 0;
    for level in 0..levels {
        match left_at(view, block, level, way) {
            Ok(left) => bytes += left,
            Err(fault) => return Err(fault),
        }
    }
    Ok(bytes)
}

// The bytes of the left sibling so many levels above a block's leaf, 0 at a left half: of the way, or of the view above it.
fn left_at<V: View>(
    view: &mut V,
    block: &BlockPart<'_>,
    level: u32,
    way: &[Node],
) -> Result<u64, CoreFault>
    requires fits { BlockFits (seen block.now) }
    requires way { let m = (V.view view.old).source.content in
        IsBlockWay m.length (held m) (Some (seen block.now)) way.now }
    requires below { level < depth_over (V.view view.old).source.content.length block.now.index }
    requires tree { IsInTree block.now.index level }
    ensures left { let s = (V.view view.old).source in (p : ProofSpelled) → p.block ≡ Some (seen block.now)
        → (IsTrue s.shows → IsClosed s.content.length s.content.block s.content.node)
        → IfOk result (IsLeftAt (with_way p way.now s) block.now.index level) }
    ensures most { IfOk result (λ bytes. bytes ≤ MAX_CORE_BYTES) }
    ensures looks { Looks (V.view view.old) (V.view view.new) result }
{
    let offset = block.index >> level;
    if offset % 2 == 0 {
        return Ok(0);
    }
    let beside = 2 * level as usize + 1;
    if beside < way.len() {
        return Ok(way[beside].size);
    }
    match view.node(flat_tree::index(level, offset - 1)) {
        Ok(left) => Ok(left.size),
        Err(fault) => Err(fault),
    }
}
