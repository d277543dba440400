//! The block of a proof.
ghost use Rattle.std.specs.Prelude.{◌≡◌, ◌≤◌, ◌<◌, ◌/◌, ◌^◌, true, Some, length, option_map, IfOk, IfSome, IsTrue};
ghost use Rattle.std.specs.List.{AllByRecursion};
ghost use Rattle.flat_tree.specs.declared.limits.TheConstants.{MAX_BLOCKS, MAX_BLOCK_BYTES};
ghost use Rattle.flat_tree.specs.Roots.{depth_over};
ghost use Rattle.merkle_nodes.specs.Bundle.{TwigFits};
ghost use Rattle.node_set.specs.Contents.{held, twig_at};
ghost use Rattle.node_set.specs.Paths.{sibling_of, trail_at};
ghost use Rattle.node_set.specs.Views.{KeepsContent, HasViewCause};
ghost use Rattle.node_set.specs.Walks.{IsInTree};
ghost use Rattle.proof_form.specs.Proofs.{block_view, BlockFits};
ghost use Rattle.proof_form.specs.Requests.{WantFits};
ghost use Rattle.proof_make.specs.Answers.{part_for, block_for};
ghost use Rattle.proof_make.specs.Offers.{passes, has_block, want_of};

use flat_tree::RoomList;
use merkle_nodes::{Trail, Twig};
use node_set::{CoreFault, View};
use proof_form::{BlockPart, Want};

/// The block that is asked for, where one is, in `buf`, with the lowest siblings of its path.
pub(crate) fn block_part<'b, V: View>(
    view: &mut V,
    want: &Option<Want>,
    buf: &'b mut [u8],
) -> Result<Option<BlockPart<'b>>, CoreFault>
    requires room { MAX_BLOCK_BYTES ≤ length buf.old }
    requires held { passes (has_block (V.view view.old).content) want.now ≡ true }
    requires fits { IfSome want.now WantFits }
    requires few { (V.view view.old).content.length ≤ MAX_BLOCKS }
    ensures part { IsTrue (V.view view.old).stands → IfOk result (λ part.
        Some (block_view part) ≡ part_for want.now (block_for (V.view view.old).content)) }
    ensures fits { IfOk result (λ part. IfSome (block_view part) BlockFits) }
    ensures asked { IfOk result (λ part. option_map want_of (block_view part) ≡ want.now) }
    ensures keeps { KeepsContent (V.view view.old) (V.view view.new) }
    ensures cause { HasViewCause (V.view view.old) (V.view view.new) result }
{
    let Some(want) = want else {
        return Ok(None);
    };
    let trail = match trail_of(view, want) {
        Ok(trail) => trail,
        Err(fault) => return Err(fault),
    };
    match view.block(want.index, buf) {
        Ok(len) => Ok(Some(BlockPart {
            index: want.index,
            bytes: &buf[..len],
            trail,
        })),
        Err(fault) => Err(fault),
    }
}

// The lowest siblings of a held block's path.
fn trail_of<V: View>(view: &mut V, want: &Want) -> Result<Trail, CoreFault>
    requires held { has_block (V.view view.old).content want.now ≡ true }
    requires fits { WantFits want.now }
    requires few { (V.view view.old).content.length ≤ MAX_BLOCKS }
    ensures trail { IsTrue (V.view view.old).stands → IfOk result (λ trail.
        trail ≡ trail_at (V.view view.old).content.node 0 want.now.index want.now.nodes) }
    ensures count { IfOk result (λ trail. length trail ≡ want.now.nodes) }
    ensures fits { IfOk result (AllByRecursion TwigFits) }
    ensures keeps { KeepsContent (V.view view.old) (V.view view.new) }
    ensures cause { HasViewCause (V.view view.old) (V.view view.new) result }
{
    let mut trail = RoomList::new(Twig::BLANK);
    for level in 0..want.nodes as u32 {
        match sibling_at(view, want.index, level) {
            Ok(twig) => trail.push(twig),
            Err(fault) => return Err(fault),
        }
    }
    Ok(trail)
}

// The sibling of a held block's path so many levels above its leaf.
fn sibling_at<V: View>(view: &mut V, index: u64, level: u32) -> Result<Twig, CoreFault>
    requires held { IsTrue (held (V.view view.old).content index) }
    requires below { level < depth_over (V.view view.old).content.length index }
    requires within { index < (V.view view.old).content.length }
    requires fits { IsInTree index level }
    ensures twig { IsTrue (V.view view.old).stands → IfOk result (λ twig.
        twig ≡ twig_at (V.view view.old).content.node level (sibling_of (index / 2 ^ level))) }
    ensures fits { IfOk result TwigFits }
    ensures keeps { KeepsContent (V.view view.old) (V.view view.new) }
    ensures cause { HasViewCause (V.view view.old) (V.view view.new) result }
{
    let offset = index >> level;
    match view.node(flat_tree::index(level, offset + 1 - 2 * (offset % 2))) {
        // the siblings of a held block's path are stored
        Ok(sibling) => Ok(sibling.unwrap().twig()),
        Err(fault) => Err(fault),
    }
}
