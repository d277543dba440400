//! How the parts of a proof meet the nodes that a view stores.
ghost use Rattle.std.specs.Prelude.{◌≡◌, None, IsTrue, IfOk, IfSome, option_map};
ghost use Rattle.node_set.specs.Contents.{held};
ghost use Rattle.node_set.specs.Whole.{IsClosed};
ghost use Rattle.log_view.specs.Views.{Looks};
ghost use Rattle.proof_form.specs.Proofs.{BlockFits, HashFits, view as proof_view, block_view};
ghost use Rattle.proof_check.specs.Parts.{part_of_hash};
ghost use Rattle.proof_judge.specs.Meetings.{part_of, IsPartOf};
ghost use Rattle.proof_judge.specs.PartsMet.{block_part, parts_refusal, IsWithin, MeetsPart, PartMeets, PartsMeet, IsBlockWay};

use crate::part::{Meeting, PartPath, Way, meet};
use flat_tree::{depth, offset};
use log_view::View;
use merkle_nodes::{Node, leaf};
use node_set::{CoreFault, Refusal};
use proof_form::{BlockPart, HashPart, Proof};

// What a part meets that isn't there.
const NO_MEETING: Meeting = Meeting {
    levels: 0,
    differs: None,
    uncovered: None,
};

/// Compares the parts of a proof with the nodes that a view stores, as if it had no upgrade: the first refusal is that the
/// block differs, that the node does, that the block's siblings end below a stored node, or that the node's do. The node
/// isn't looked at where the block differs. The nodes of the block's path below the first stored one, each with its
/// sibling, are left in `way`. An `Err` is the view's.
pub fn meet_parts<V: View>(
    view: &mut V,
    proof: &Proof<'_>,
    way: &mut Way,
) -> Result<Option<Refusal>, CoreFault>
    requires within { IsWithin (V.view view.old).source.content.length (proof_view proof.now) }
    ensures content { let s = (V.view view.old).source in
        IsTrue s.shows → IsClosed s.content.length s.content.block s.content.node
        → IfOk result (λ refusal. refusal ≡ parts_refusal (proof_view proof.now) s.content) }
    ensures way { let m = (V.view view.old).source.content in IfOk result (λ refusal.
        refusal ≡ None → IsBlockWay m.length (held m) (block_view proof.now.block) way.new) }

    // of any view, also of one that doesn't give what is its content's
    ensures given { IfOk result (λ refusal.
        PartsMeet (V.view view.old).source (proof_view proof.now) refusal way.new) }
    ensures looks { Looks (V.view view.old) (V.view view.new) result }
{
    let block = match meet_part(view, &path_of_block(&proof.block), way) {
        Ok(meeting) => meeting,
        Err(fault) => return Err(fault),
    };
    if block.differs.is_some() {
        return Ok(block.differs);
    }
    let mut beside = Way::new(Node::BLANK);
    match meet_part(view, &path_of_hash(&proof.hash), &mut beside) {
        Ok(hash) => Ok(hash.differs.or(block.uncovered).or(hash.uncovered)),
        Err(fault) => Err(fault),
    }
}

// How a part that is there meets them. One that isn't meets nothing.
fn meet_part<V: View>(
    view: &mut V,
    part: &Option<PartPath<'_>>,
    way: &mut Way,
) -> Result<Meeting, CoreFault>
    requires part { IfSome (option_map part_of part.now) (IsPartOf (V.view view.old).source.content.length) }
    ensures content { let m = (V.view view.old).source.content in
        IsTrue (V.view view.old).source.shows → IsClosed m.length m.block m.node
        → IfOk result (MeetsPart m (option_map part_of part.now)) }
    ensures given { IfOk result (λ meeting.
        PartMeets (V.view view.old).source (option_map part_of part.now) meeting way.new) }
    ensures looks { Looks (V.view view.old) (V.view view.new) result }
{
    match part {
        Some(part) => meet(view, part, way),
        None => {
            way.clear();
            Ok(NO_MEETING)
        }
    }
}

// The path of a block's leaf.
fn path_of_block<'p>(block: &'p Option<BlockPart<'_>>) -> Option<PartPath<'p>>
    requires fits { IfSome (block_view block.now) BlockFits }
    ensures { option_map part_of result ≡ block_part (block_view block.now) }
{
    let Some(block) = block else {
        return None;
    };
    Some(PartPath {
        depth: 0,
        offset: block.index,
        twig: leaf(block.index, block.bytes).twig(),
        trail: block.trail.as_slice(),
    })
}

// The path of a node.
fn path_of_hash<'p>(hash: &'p Option<HashPart>) -> Option<PartPath<'p>>
    requires fits { IfSome hash.now HashFits }
    ensures { option_map part_of result ≡ option_map part_of_hash hash.now }
{
    let Some(hash) = hash else {
        return None;
    };
    Some(PartPath {
        depth: depth(hash.node.index),
        offset: offset(hash.node.index),
        twig: hash.node.twig(),
        trail: hash.trail.as_slice(),
    })
}
