//! The refusals that the head, the roots and the numbers of a proof tell, before a node is read.
ghost use Rattle.std.specs.Prelude.{◌≡◌, ℕ, ◌≤◌, ◌<◌, ◌+◌, ◌*◌, Bool, None, is_none, length as count, nat_lt, IfSome};
ghost use Rattle.std.specs.List.{AllByRecursion};
ghost use Rattle.flat_tree.specs.declared.limits.TheConstants.{MAX_CORE_BYTES, MAX_ROOTS, MAX_UPGRADE_NODES};
ghost use Rattle.merkle_nodes.specs.declared.node.Node.{Node as NodeSeen};
ghost use Rattle.merkle_nodes.specs.Bundle.{TwigFits};
ghost use Rattle.node_set.specs.declared.fault.Refusal.TheVariants.{NewFork};
ghost use Rattle.node_set.specs.Contents.{Content, bytes_under};
ghost use Rattle.node_set.specs.Refuses.{or_else, refuse_if};
ghost use Rattle.proof_form.specs.Proofs.{Proof as ProofSpelled, UpgradeFits, ProofFits, view, block_view};
ghost use Rattle.proof_check.specs.Parts.{of_part, part_of_block, range_refusal};
ghost use Rattle.proof_check.specs.Upgraded.{length_after};
ghost use Rattle.proof_check.specs.Judge.{head_refusal, due_start, longer_refusal, start_refusal};
ghost use Rattle.proof_check.specs.Settling.{fork_upgrade_refusal};
ghost use Rattle.proof_check.specs.Early.{twig_bytes, limits_refusal, early_refusal};

use flat_tree::{MAX_BLOCKS, MAX_CORE_BYTES};
use merkle_nodes::{Head, Node, Twig, What};
use node_set::Refusal;
use proof_form::{BlockPart, Proof, UpgradePart};

/// Why a proof is refused under a head with these roots, as far as numbers tell. An upgrade under a greater fork is
/// refused as such.
pub(crate) fn refused_first(proof: &Proof<'_>, head: &Head, roots: &[Node]) -> Option<Refusal>
    requires fits { ProofFits (view proof.now) }
    requires few { count roots.now ≤ MAX_ROOTS }
    requires sizes { AllByRecursion (λ (node : NodeSeen). node.size ≤ MAX_CORE_BYTES) roots.now }
    ensures { (m : Content) → m.fork ≡ head.now.fork → m.length ≡ head.now.length → result
        ≡ or_else (fork_upgrade_refusal (view proof.now) m) (early_refusal (view proof.now) m (bytes_under roots.now)) }
{
    if head.fork < proof.fork && proof.upgrade.is_some() {
        return Some(Refusal::NewFork { have: head.fork });
    }
    refused_early(proof, head, roots)
}

// Its limits, then what is out of range, then what doesn't fit the head.
fn refused_early(proof: &Proof<'_>, head: &Head, roots: &[Node]) -> Option<Refusal>
    requires fits { ProofFits (view proof.now) }
    requires few { count roots.now ≤ MAX_ROOTS }
    requires sizes { AllByRecursion (λ (node : NodeSeen). node.size ≤ MAX_CORE_BYTES) roots.now }
    ensures { (m : Content) → m.fork ≡ head.now.fork → m.length ≡ head.now.length
        → result ≡ early_refusal (view proof.now) m (bytes_under roots.now) }
{
    let by_head = refused_by_head(proof, head);
    let bytes = bytes_of_roots(roots);
    if let Some(limit) = passed_limit(&proof.upgrade, by_head.is_none(), bytes) {
        return Some(limit);
    }
    if let Some(range) = out_of_range(&proof.block, length_with(&proof.upgrade, head)) {
        return Some(range);
    }
    by_head
}

// The first of the refusals of the head.
fn refused_by_head(proof: &Proof<'_>, head: &Head) -> Option<Refusal>
    ensures { (m : Content) → m.fork ≡ head.now.fork → m.length ≡ head.now.length
        → result ≡ head_refusal (view proof.now) m }
{
    if proof.fork < head.fork {
        return Some(Refusal::OldFork { have: head.fork });
    }
    match &proof.upgrade {
        Some(upgrade) => refused_upgrade(proof.fork, upgrade, head),
        None => refused_fork(proof.fork, head),
    }
}

// A proof without an upgrade is under the head's fork.
fn refused_fork(fork: u64, head: &Head) -> Option<Refusal>
    ensures { result ≡ refuse_if (nat_lt head.now.fork fork) (NewFork head.now.fork) }
{
    if head.fork < fork {
        return Some(Refusal::NewFork { have: head.fork });
    }
    None
}

// An upgrade under the head's fork is longer, and starts where it has to.
fn refused_upgrade(fork: u64, upgrade: &UpgradePart, head: &Head) -> Option<Refusal>
    ensures { (p : ProofSpelled) → (m : Content) → p.fork ≡ fork → m.fork ≡ head.now.fork
        → m.length ≡ head.now.length → result ≡ or_else (longer_refusal p m upgrade.now) (start_refusal p m upgrade.now) }
{
    if fork == head.fork && upgrade.length <= head.length {
        return Some(Refusal::NotLonger { have: head.length });
    }
    let start = due_start(fork, head);
    if upgrade.start != start {
        return Some(Refusal::WrongStart { have: start });
    }
    None
}

// Where an upgrade has to start.
fn due_start(fork: u64, head: &Head) -> u64
    ensures { (p : ProofSpelled) → (m : Content) → p.fork ≡ fork → m.fork ≡ head.now.fork
        → m.length ≡ head.now.length → result ≡ due_start p m }
{
    if fork == head.fork { head.length } else { 0 }
}

// The limit that an upgrade of a log of so many bytes would pass.
fn passed_limit(upgrade: &Option<UpgradePart>, is_due: bool, bytes: u64) -> Option<Refusal>
    requires fits { IfSome upgrade.now UpgradeFits }
    requires most { bytes ≤ MAX_ROOTS * MAX_CORE_BYTES }
    ensures { result ≡ limits_refusal upgrade.now is_due bytes }
{
    let Some(upgrade) = upgrade else {
        return None;
    };
    if upgrade.length > MAX_BLOCKS {
        return Some(Refusal::Limit {
            what: What::Blocks,
            max: MAX_BLOCKS,
        });
    }
    if is_due && bytes + bytes_of_twigs(upgrade.nodes.as_slice()) > MAX_CORE_BYTES {
        return Some(Refusal::Limit {
            what: What::Bytes,
            max: MAX_CORE_BYTES,
        });
    }
    None
}

// The bytes under some nodes.
fn bytes_of_roots(nodes: &[Node]) -> u64
    requires few { count nodes.now ≤ MAX_ROOTS }
    requires sizes { AllByRecursion (λ (node : NodeSeen). node.size ≤ MAX_CORE_BYTES) nodes.now }
    ensures sum { result ≡ bytes_under nodes.now }
    ensures most { result ≤ MAX_ROOTS * MAX_CORE_BYTES }
{
    let mut bytes = 0;
    for node in nodes {
        bytes += node.size;
    }
    bytes
}

// The bytes under some twigs.
fn bytes_of_twigs(twigs: &[Twig]) -> u64
    requires few { count twigs.now ≤ MAX_UPGRADE_NODES }
    requires sizes { AllByRecursion TwigFits twigs.now }
    ensures sum { result ≡ twig_bytes twigs.now }
    ensures most { result ≤ MAX_UPGRADE_NODES * MAX_CORE_BYTES }
{
    let mut bytes = 0;
    for twig in twigs {
        bytes += twig.size;
    }
    bytes
}

// The length once an upgrade is in.
pub(crate) fn length_with(upgrade: &Option<UpgradePart>, head: &Head) -> u64
    ensures { (p : ProofSpelled) → (m : Content) → p.upgrade ≡ upgrade.now → m.length ≡ head.now.length
        → result ≡ length_after p m }
{
    match upgrade {
        Some(upgrade) => upgrade.length,
        None => head.length,
    }
}

// A block has to be below the end.
fn out_of_range(block: &Option<BlockPart<'_>>, end: u64) -> Option<Refusal>
    ensures { result ≡ of_part (block_view block.now) (λ b. range_refusal end (part_of_block b)) }
{
    match block {
        Some(block) => {
            if block.index >= end {
                return Some(Refusal::OutOfRange { end });
            }
            None
        }
        None => None,
    }
}
