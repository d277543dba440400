//! The refusals that the numbers of a proof, the head and the roots decide, before a node is read.
ghost use Rattle.std.specs.Prelude.{◌≡◌, ℕ, ◌≤◌, ◌<◌, ◌+◌, ◌*◌, ◌&&◌, is_some, length as count, nat_lt, IfSome};
ghost use Rattle.std.specs.List.{AllByRecursion};
ghost use Rattle.flat_tree.specs.declared.limits.TheConstants.{MAX_BLOCKS, MAX_CORE_BYTES, MAX_ROOTS, MAX_UPGRADE_NODES};
ghost use Rattle.merkle_nodes.specs.declared.limit.What.TheVariants.{Blocks, Bytes};
ghost use Rattle.merkle_nodes.specs.Bundle.{TwigFits};
ghost use Rattle.node_set.specs.declared.fault.Refusal.TheVariants.{Limit, NewFork};
ghost use Rattle.node_set.specs.Contents.{Content, roots as roots_in, bytes_under};
ghost use Rattle.node_set.specs.Refuses.{or_else, refuse_if};
ghost use Rattle.root_stack.specs.Stack.{SizeFits, twig_bytes};
ghost use Rattle.proof_form.specs.Proofs.{Proof as ProofSpelled, UpgradeFits, HashFits, ProofFits, view, block_view};
ghost use Rattle.proof_check.specs.Parts.{of_part, part_of_block, part_of_hash, range_refusal};
ghost use Rattle.proof_check.specs.Upgraded.{length_after};
ghost use Rattle.proof_check.specs.Judge.{each_part, head_refusal, due_start, longer_refusal, start_refusal};
ghost use Rattle.proof_judge.specs.Numbers.{bytes_after, numbers_refusal};

use flat_tree::{MAX_BLOCKS, MAX_CORE_BYTES, spans};
use merkle_nodes::{Head, Node, Twig, What};
use node_set::Refusal;
use proof_form::{BlockPart, HashPart, Proof, UpgradePart};

/// Why a proof is refused under a head with these roots, as far as numbers decide it.
pub fn refused_by_numbers(proof: &Proof<'_>, head: &Head, roots: &[Node]) -> Option<Refusal>
    requires fits { ProofFits (view proof.now) }
    requires few { count roots.now ≤ MAX_ROOTS }
    requires sizes { AllByRecursion SizeFits roots.now }
    ensures { (m : Content) → m.fork ≡ head.now.fork → m.length ≡ head.now.length
        → roots_in m ≡ roots.now → result ≡ numbers_refusal (view proof.now) m }
{
    let by_head = refused_by_head(proof, head);
    let bytes = bytes_with(proof, head, roots);
    if let Some(limit) = passed_limit(&proof.upgrade, by_head.is_none(), bytes) {
        return Some(limit);
    }
    if let Some(range) = out_of_range(proof, length_with(&proof.upgrade, head)) {
        return Some(range);
    }
    by_head
}

// The first of the refusals of the head.
fn refused_by_head(proof: &Proof<'_>, head: &Head) -> Option<Refusal>
    ensures { (m : Content) → m.fork ≡ head.now.fork → m.length ≡ head.now.length
        → result ≡ head_refusal (view proof.now) m }
{
    if proof.fork < head.fork {
        return Some(Refusal::OldFork { have: head.fork });
    }
    match &proof.upgrade {
        Some(upgrade) => refused_upgrade(proof.fork, upgrade, head),
        None => refused_fork(proof.fork, head),
    }
}

// A proof without an upgrade is under the head's fork.
fn refused_fork(fork: u64, head: &Head) -> Option<Refusal>
    ensures { result ≡ refuse_if (nat_lt head.now.fork fork) (NewFork head.now.fork) }
{
    if head.fork < fork {
        return Some(Refusal::NewFork { have: head.fork });
    }
    None
}

// An upgrade under the head's fork is longer, and starts where it has to.
fn refused_upgrade(fork: u64, upgrade: &UpgradePart, head: &Head) -> Option<Refusal>
    ensures { (p : ProofSpelled) → (m : Content) → p.fork ≡ fork → m.fork ≡ head.now.fork
        → m.length ≡ head.now.length
        → result ≡ or_else (longer_refusal p m upgrade.now) (start_refusal p m upgrade.now) }
{
    if fork == head.fork && upgrade.length <= head.length {
        return Some(Refusal::NotLonger { have: head.length });
    }
    let start = due_start(fork, head);
    if upgrade.start != start {
        return Some(Refusal::WrongStart { have: start });
    }
    None
}

// Where an upgrade has to start.
fn due_start(fork: u64, head: &Head) -> u64
    ensures { (p : ProofSpelled) → (m : Content) → p.fork ≡ fork → m.fork ≡ head.now.fork
        → m.length ≡ head.now.length → result ≡ due_start p m }
{
    if fork == head.fork { head.length } else { 0 }
}

// The bytes of the log that a proof leads to.
fn bytes_with(proof: &Proof<'_>, head: &Head, roots: &[Node]) -> u64
    requires fits { ProofFits (view proof.now) }
    requires few { count roots.now ≤ MAX_ROOTS }
    requires sizes { AllByRecursion SizeFits roots.now }
    ensures { (m : Content) → m.fork ≡ head.now.fork → roots_in m ≡ roots.now
        → result ≡ bytes_after (view proof.now) m }
{
    let Some(upgrade) = &proof.upgrade else {
        return bytes_of_roots(roots);
    };
    let more = bytes_of_twigs(upgrade.nodes.as_slice());
    if head.fork < proof.fork {
        return more;
    }
    bytes_of_roots(roots) + more
}

// The limit that a log of so many bytes would pass, or an upgrade of it.
fn passed_limit(upgrade: &Option<UpgradePart>, is_due: bool, bytes: u64) -> Option<Refusal>
    ensures { result ≡ or_else
        (of_part upgrade.now (λ u. refuse_if (nat_lt MAX_BLOCKS u.length) (Limit Blocks MAX_BLOCKS)))
        (refuse_if (is_due && nat_lt MAX_CORE_BYTES bytes) (Limit Bytes MAX_CORE_BYTES)) }
{
    if has_too_many_blocks(upgrade) {
        return Some(Refusal::Limit {
            what: What::Blocks,
            max: MAX_BLOCKS,
        });
    }
    if is_due && bytes > MAX_CORE_BYTES {
        return Some(Refusal::Limit {
            what: What::Bytes,
            max: MAX_CORE_BYTES,
        });
    }
    None
}

// Whether an upgrade leads past the limit of blocks.
fn has_too_many_blocks(upgrade: &Option<UpgradePart>) -> bool
    ensures { result ≡ is_some (of_part upgrade.now
        (λ u. refuse_if (nat_lt MAX_BLOCKS u.length) (Limit Blocks MAX_BLOCKS))) }
{
    match upgrade {
        Some(upgrade) => upgrade.length > MAX_BLOCKS,
        None => false,
    }
}

/// The bytes under some nodes.
pub(crate) fn bytes_of_roots(nodes: &[Node]) -> u64
    requires few { count nodes.now ≤ MAX_ROOTS }
    requires sizes { AllByRecursion SizeFits nodes.now }
    ensures sum { result ≡ bytes_under nodes.now }
    ensures most { result ≤ MAX_ROOTS * MAX_CORE_BYTES }
{
    let mut bytes = 0;
    for node in nodes {
        bytes += node.size;
    }
    bytes
}

// The bytes under some twigs.
fn bytes_of_twigs(twigs: &[Twig]) -> u64
    requires few { count twigs.now ≤ MAX_UPGRADE_NODES }
    requires sizes { AllByRecursion TwigFits twigs.now }
    ensures sum { result ≡ twig_bytes twigs.now }
    ensures most { result ≤ MAX_UPGRADE_NODES * MAX_CORE_BYTES }
{
    let mut bytes = 0;
    for twig in twigs {
        bytes += twig.size;
    }
    bytes
}

// The length once an upgrade is in.
pub(crate) fn length_with(upgrade: &Option<UpgradePart>, head: &Head) -> u64
    ensures { (p : ProofSpelled) → (m : Content) → p.upgrade ≡ upgrade.now
        → m.length ≡ head.now.length → result ≡ length_after p m }
{
    match upgrade {
        Some(upgrade) => upgrade.length,
        None => head.length,
    }
}

// Each part has to be wholly below the end, the block before the node.
fn out_of_range(proof: &Proof<'_>, end: u64) -> Option<Refusal>
    requires fits { IfSome proof.now.hash HashFits }
    ensures { result ≡ each_part (view proof.now) (range_refusal end) }
{
    if let Some(range) = block_out_of_range(&proof.block, end) {
        return Some(range);
    }
    hash_out_of_range(&proof.hash, end)
}

fn block_out_of_range(block: &Option<BlockPart<'_>>, end: u64) -> Option<Refusal>
    ensures { result ≡ of_part (block_view block.now) (λ b. range_refusal end (part_of_block b)) }
{
    let Some(block) = block else {
        return None;
    };
    if block.index >= end {
        return Some(Refusal::OutOfRange { end });
    }
    None
}

fn hash_out_of_range(hash: &Option<HashPart>, end: u64) -> Option<Refusal>
    requires fits { IfSome hash.now HashFits }
    ensures { result ≡ of_part hash.now (λ h. range_refusal end (part_of_hash h)) }
{
    let Some(hash) = hash else {
        return None;
    };
    let (_, last) = spans(hash.node.index);
    if last / 2 >= end {
        return Some(Refusal::OutOfRange { end });
    }
    None
}
