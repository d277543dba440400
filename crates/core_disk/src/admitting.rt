//! What an admission is about to write.
ghost use Rattle.std.specs.Prelude.{◌≡◌, ◌<◌, ◌≤◌, ◌⊎◌, ℕ, false, Err, IfOk, IfErr, IfSome, IsTrue, IsSome, option_map};
ghost use Rattle.std.specs.List.{AllByRecursion};
ghost use Rattle.flat_tree.specs.Subtrees.{number};
ghost use Rattle.flat_tree.specs.declared.limits.TheConstants.{MAX_COUNT, MAX_CORE_BYTES};
ghost use Rattle.merkle_nodes.specs.declared.node.Node.{Node as NodeSeen};
ghost use Rattle.merkle_nodes.specs.Joined.{Values};
ghost use Rattle.merkle_nodes.specs.Roots.{twig_of};
ghost use Rattle.oplog_form.specs.Nodes.{Rise, RecordFits};
ghost use Rattle.node_set.specs.declared.fault.CoreFault.TheVariants.{Refused};
ghost use Rattle.node_set.specs.declared.fault.Refusal.TheVariants.{NewFork};
ghost use Rattle.node_set.specs.Contents.{twig_at, roots_at, bytes_under};
ghost use Rattle.node_set.specs.Nodes.{with_nodes};
ghost use Rattle.node_set.specs.Views.{KeepsContent, HasViewCause, AnswersBy, TellsFault};
ghost use Rattle.node_set.specs.Walks.{KeepsView};
ghost use Rattle.node_set.specs.Whole.{IsWhole};
ghost use Rattle.proof_check.specs.Admission.{IsPlain, IsServed, IsRefusal, refused};
ghost use Rattle.proof_check.specs.Judge.{refusal_of};
ghost use Rattle.core_disk.specs.Plans.{IsEntered, IsAdmitPlan, block_at, brought_by, bytes_in};
ghost use Rattle.core_disk.specs.Planning.{IsInRange, MayBeRecords, AreRecords, IsJudged, CantBeRecords, GivesOthers, placed};

use crate::records::last_of;
use disk_trait::Area;
use flat_tree::{MAX_CORE_BYTES, full_roots};
use merkle_nodes::Node;
use node_set::{Change, CoreFault, View};
use oplog_form::{MAX_NUMBER, Records};
use outside_traits::Verifier;
use proof_check::{Prepared, judge};

/// An admission that is planned: the change, and the byte at which the block's bytes come in, if they do.
#[derive(Drop)]
pub(crate) struct Admission {
    pub(crate) change: Change,
    pub(crate) at: Option<u64>,
}

/// Plans the admission of a proof. `Refused` where it isn't admitted (`proof_check::judge`), `BadStore` where the nodes that
/// come in can't be records of an entry, since the view gave others than it stands for; each other `Err` is the view's.
pub(crate) fn plan_admit<V: View, A: Verifier>(
    view: &mut V,
    verifier: &A,
    prepared: &Prepared<'_>,
) -> Result<Admission, CoreFault>
    requires plain { IsPlain prepared.now }
    ensures plan { let v = V.view view.old in IsTrue v.stands → IsWhole (A.accepts verifier.now) v.content
        → IsServed prepared.now v.content → AnswersBy v (V.view view.new)
        (refused (refusal_of (A.accepts verifier.now) prepared.now v.content))
        (λ planned. IsAdmitPlan (A.accepts verifier.now) prepared.now v.content planned.change planned.at) result }
    ensures new_fork { let m = (V.view view.old).content in m.fork < prepared.now.fork
        → IsSome prepared.now.upgrade → result ≡ Err (Refused (NewFork m.fork)) }

    // of any view, also of one that doesn't give what it stands for
    ensures bytes { IfOk result (λ planned. bytes_in (block_at planned.at prepared.now.block)
        ≡ bytes_in (brought_by prepared.now (V.view view.old).content)) }
    ensures entered { IfOk result (λ planned. IsEntered prepared.now (V.view view.old) planned.change) }
    ensures told { let v = V.view view.old in IfErr result (λ fault. IsRefusal fault
        ⊎ (TellsFault v (V.view view.new) fault ⊎ GivesOthers (A.accepts verifier.now) v fault)) }
    ensures keeps { KeepsView (V.view view.old) (V.view view.new) }
{
    // the length and the fork are within the limits
    let _head = view.head();
    match judged(view, verifier, prepared) {
        Ok(change) => with_place(view, prepared, change),
        Err(fault) => Err(fault),
    }
}

// Whether a proof is admitted, and what it changes.
fn judged<V: View, A: Verifier>(
    view: &mut V,
    verifier: &A,
    prepared: &Prepared<'_>,
) -> Result<Change, CoreFault>
    requires plain { IsPlain prepared.now }
    ensures { IsJudged (A.accepts verifier.now) prepared.now (V.view view.old) (V.view view.new) result }
{
    // it is within its ranges
    let _proof = prepared.proof();
    judge(view, verifier, prepared)
}

// A change with the place of its block, where its nodes may be records.
fn with_place<V: View>(
    view: &mut V,
    prepared: &Prepared<'_>,
    change: Change,
) -> Result<Admission, CoreFault>
    ensures same { IfOk result (λ planned. planned.change ≡ change) }
    ensures records { IfOk result (λ planned. AreRecords change) }
    ensures place { let v = V.view view.old in IsTrue v.stands → IfOk result
        (λ planned. block_at planned.at prepared.now.block ≡ placed change.fresh prepared.now v.content) }
    ensures bytes { IfOk result (λ planned. bytes_in (block_at planned.at prepared.now.block)
        ≡ bytes_in (brought_by prepared.now (V.view view.old).content)) }
    ensures err { IfErr result (λ fault.
        TellsFault (V.view view.old) (V.view view.new) fault ⊎ CantBeRecords change.fresh fault) }
    ensures keeps { KeepsView (V.view view.old) (V.view view.new) }
{
    let fresh = change.fresh.as_slice();
    if !may_be_records(fresh) {
        return Err(CoreFault::BadStore {
            area: Area::Tree,
            at: 0,
        });
    }
    match place_of_block(view, prepared, fresh) {
        Ok(at) => Ok(Admission { change, at }),
        Err(fault) => Err(fault),
    }
}

// The byte at which a proof's block begins once the change is in, where it isn't held: the bytes of the roots before it.
fn place_of_block<V: View>(
    view: &mut V,
    prepared: &Prepared<'_>,
    fresh: &[Node],
) -> Result<Option<u64>, CoreFault>
    requires sizes { AllByRecursion RecordFits fresh.now }
    ensures place { let v = V.view view.old in IsTrue v.stands
        → IfOk result (λ at. block_at at prepared.now.block ≡ placed fresh.now prepared.now v.content) }
    ensures bytes { IfOk result (λ at. bytes_in (block_at at prepared.now.block)
        ≡ bytes_in (brought_by prepared.now (V.view view.old).content)) }
    ensures keeps { KeepsView (V.view view.old) (V.view view.new) }
    ensures cause { HasViewCause (V.view view.old) (V.view view.new) result }
{
    // the index is within its range
    let _proof = prepared.proof();
    let Some(part) = prepared.block() else {
        return Ok(None);
    };
    if view.held(part.index) {
        return Ok(None);
    }
    match bytes_before(view, fresh, part.index) {
        Ok(at) => Ok(Some(at)),
        Err(fault) => Err(fault),
    }
}

// The bytes of the full roots of an index, with these nodes over the view's.
fn bytes_before<V: View>(view: &mut V, fresh: &[Node], index: u64) -> Result<u64, CoreFault>
    requires within { index ≤ MAX_COUNT }
    requires sizes { AllByRecursion RecordFits fresh.now }
    ensures bytes { let v = V.view view.old in IsTrue v.stands
        → IfOk result (λ bytes. bytes ≡ bytes_under (roots_at (with_nodes v.content.node fresh.now) index)) }
    ensures keeps { KeepsView (V.view view.old) (V.view view.new) }
    ensures cause { HasViewCause (V.view view.old) (V.view view.new) result }
{
    let places = full_roots(index);
    let mut bytes = 0;
    for place in 0..places.len() {
        match size_after(view, fresh, places.at(place)) {
            Ok(size) => bytes += size,
            Err(fault) => return Err(fault),
        }
    }
    Ok(bytes)
}

// The bytes under a node, of these or else of the view's; 0 where it is in neither.
fn size_after<V: View>(view: &mut V, fresh: &[Node], index: u64) -> Result<u64, CoreFault>
    requires sizes { AllByRecursion RecordFits fresh.now }
    ensures size { let v = V.view view.old in IsTrue v.stands
        → IfOk result (λ size. (depth offset : ℕ) → number depth offset ≡ index
        → size ≡ (twig_at (with_nodes v.content.node fresh.now) depth offset).size) }
    ensures most { IfOk result (λ size. size ≤ MAX_CORE_BYTES) }
    ensures keeps { KeepsContent (V.view view.old) (V.view view.new) }
    ensures cause { HasViewCause (V.view view.old) (V.view view.new) result }
{
    match view.node(index) {
        Ok(found) => Ok(size_of(last_of(&Records::of(fresh), index, found))),
        Err(fault) => Err(fault),
    }
}

// The bytes under a node, 0 without one.
fn size_of(found: Option<Node>) -> u64
    ensures size { (value : Values) (depth offset : ℕ) → option_map twig_of found ≡ value depth offset
        → result ≡ (twig_at value depth offset).size }
    ensures most { (most : ℕ) → IfSome found (λ node. node.size ≤ most) → result ≤ most }
{
    match found {
        Some(node) => node.size,
        None => 0,
    }
}

// Whether these may be the records of an entry. The nodes of a change are, where the view gives what it stands for.
fn may_be_records(nodes: &[Node]) -> bool
    ensures rise { IsTrue result → Rise 0 nodes.now }
    ensures fit { IsTrue result → AllByRecursion RecordFits nodes.now }
    ensures only { MayBeRecords nodes.now → IsTrue result }
{
    let mut least = 0;
    for node in nodes {
        if node.index < least || !is_in_range(*node) {
            return false;
        }
        least = node.index + 1;
    }
    true
}

// Whether a node's number and size are in their ranges.
fn is_in_range(node: Node) -> bool
    ensures fits { IsTrue result → RecordFits node }
    ensures only { IsInRange node → IsTrue result }
{
    node.index <= MAX_NUMBER && node.size <= MAX_CORE_BYTES
}
