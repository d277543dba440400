//! Another log takes the place of this one.
ghost use Rattle.std.specs.Prelude.{◌≡◌, ◌<◌, ◌≤◌, ℕ, List, [], Some, drop, map, true, IfOk, IsTrue};
ghost use Rattle.flat_tree.specs.Subtrees.{number, end_block_of, Tile};
ghost use Rattle.flat_tree.specs.Roots.{full_roots_of};
ghost use Rattle.flat_tree.specs.declared.limits.TheConstants.{MAX_BLOCKS, MAX_FORK};
ghost use Rattle.commit_book.specs.declared.commit.Commit.TheVariants.{Reorg};
ghost use Rattle.merkle_nodes.specs.Roots.{twig_of, HasShape};
ghost use Rattle.node_set.specs.Contents.{roots};
ghost use Rattle.node_set.specs.Same.{is_stored_as};
ghost use Rattle.node_set.specs.Whole.{IsSound};
ghost use Rattle.core_forks.specs.Reorganise.{kept_of, reorganise_content};
ghost use Rattle.core_forks.specs.Truncations.{fresh_roots};
ghost use Rattle.log_view.specs.Views.{Looks};
ghost use Rattle.log_change.specs.LogChange.{Ascend, IsChange, MayCommit};
ghost use Rattle.log_change.specs.Calls.{GivesBelow, reorganisation};

use crate::change::{Indices, LogChange};
use crate::roots::put_fresh;
use commit_book::Commit;
use flat_tree::spans;
use log_view::View;
use merkle_nodes::{Head, Node, Roots};
use node_set::{CoreFault, Fresh};

/// Another log, with this head under a greater fork and these roots. Of the blocks those under the first roots stay, up
/// to one that the view doesn't store with the same size and hash. Leaves in `fresh` the roots that weren't roots
/// before, left to right. Each `Err` is the view's.
pub fn reorganise<V: View>(
    view: &mut V,
    head: Head,
    nodes: &Roots,
    fresh: &mut Fresh,
) -> Result<LogChange, CoreFault>
    requires newer { (V.view view.old).source.content.fork < head.fork }
    requires fork { head.fork ≤ MAX_FORK }
    requires within { head.length ≤ MAX_BLOCKS }
    requires shape { HasShape nodes.now head.length }
    ensures looks { Looks (V.view view.old) (V.view view.new) result }
    ensures change { IfOk result (λ change. change
        ≡ reorganisation (V.view view.old).source.content head change.gone.from nodes.now) }
    ensures fresh { IfOk result (λ change.
        fresh.new ≡ fresh_roots (roots (V.view view.old).source.content) nodes.now) }
    ensures order { IfOk result (λ change. Ascend fresh.new) }
    ensures leads { let s = (V.view view.old).source in IsTrue s.shows → IsSound s.content
        → IfOk result (λ change. IsChange s.content
        (reorganise_content head.fork head.length (map twig_of nodes.now) head.signature s.content)
        (Some (Reorg head.fork head.length (kept_of s.content head.length (map twig_of nodes.now))))
        [] fresh.new change) }
    ensures given { IfOk result (λ change.
        GivesBelow (V.view view.old).source change.gone.from nodes.now) }
    ensures legal { IfOk result (MayCommit (V.view view.old).source.content) }
{
    let Head { fork, length, .. } = head;
    let end = view.head().length;
    let kept = match kept_under(view, length, nodes.as_slice()) {
        Ok(kept) => kept,
        Err(fault) => return Err(fault),
    };
    put_fresh(view.roots().as_slice(), nodes.as_slice(), fresh);
    Ok(LogChange {
        head,
        roots: nodes.copy(),
        gone: Indices {
            from: kept,
            to: end,
        },
        come: Indices::NONE,
        commit: Some(Commit::Reorg {
            fork,
            to: length,
            kept,
        }),
    })
}

/// How many blocks are under the first of the roots of a length, up to one that the view doesn't store with the same size
/// and hash. Each `Err` is the view's.
pub fn kept_under<V: View>(view: &mut V, length: u64, roots: &[Node]) -> Result<u64, CoreFault>
    requires within { length ≤ MAX_BLOCKS }
    requires shape { HasShape roots.now length }
    ensures below { IfOk result (λ kept. kept ≤ length) }
    ensures before { IfOk result (λ kept. kept ≤ (V.view view.old).source.content.length) }
    ensures tile { IfOk result (λ kept. (at : ℕ) × Tile (drop at (full_roots_of length)) kept length) }
    ensures given { IfOk result (λ kept. GivesBelow (V.view view.old).source kept roots.now) }
    ensures kept { let s = (V.view view.old).source in IsTrue s.shows → IsSound s.content
        → IfOk result (λ kept. kept ≡ kept_of s.content length (map twig_of roots.now)) }
    ensures looks { Looks (V.view view.old) (V.view view.new) result }
{
    let mut kept = 0;
    for root in roots {
        match stores(view, root) {
            Ok(true) => kept = spans(root.index).1 / 2 + 1,
            Ok(false) => return Ok(kept),
            Err(fault) => return Err(fault),
        }
    }
    Ok(kept)
}

// Whether a node is stored with this size and hash.
fn stores<V: View>(view: &mut V, node: &Node) -> Result<bool, CoreFault>
    ensures within { let m = (V.view view.old).source.content in (depth offset : ℕ)
        → number depth offset ≡ node.now.index → IfOk result (λ same. IsTrue same
        → end_block_of depth offset ≤ m.length) }
    ensures given { IfOk result (λ same. IsTrue same
        → (V.view view.old).source.gives node.now.index (twig_of node.now) ≡ true) }
    ensures stored { let s = (V.view view.old).source in IsTrue s.shows → IsSound s.content
        → (depth offset : ℕ) → number depth offset ≡ node.now.index → IfOk result (λ same.
        same ≡ is_stored_as (s.content.node depth offset) (twig_of node.now)) }
    ensures looks { Looks (V.view view.old) (V.view view.new) result }
{
    if !view.is_stored(node.index) {
        return Ok(false);
    }
    match view.node(node.index) {
        Ok(stored) => Ok(stored == *node),
        Err(fault) => Err(fault),
    }
}
