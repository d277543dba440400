//! The change that an admitted proof makes of a log, but for the bytes of its block and the nodes that come in.
ghost use Rattle.std.specs.Prelude.{◌≡◌, ◌<◌, None, Some, IfSome};
ghost use Rattle.flat_tree.specs.declared.limits.TheConstants.{MAX_BLOCKS};
ghost use Rattle.proof_form.specs.Proofs.{Proof as ProofSpelled, block_view};
ghost use Rattle.proof_check.specs.Judge.{incoming};
ghost use Rattle.proof_judge.specs.Judging.{come_at, fetch_change, commit_after, upgrade_change};

use crate::upgrade::LogAfter;
use commit_book::Commit;
use log_change::{Indices, LogChange};
use log_view::View;
use merkle_nodes::{Head, Roots};
use proof_form::BlockPart;

/// The block of a proof that comes in: one that isn't held.
pub(crate) fn incoming<V: View>(view: &V, block: &Option<BlockPart<'_>>) -> Option<u64>
    ensures { (p : ProofSpelled) → p.block ≡ block_view block.now
        → result ≡ incoming p (V.view view.now).source.content }
{
    let Some(block) = block else {
        return None;
    };
    if view.held(block.index) {
        return None;
    }
    Some(block.index)
}

/// The change of a proof without an upgrade.
pub(crate) fn fetch_change(head: Head, roots: &Roots, incoming: Option<u64>) -> LogChange
    requires within { IfSome incoming (λ index. index < MAX_BLOCKS) }
    ensures { result ≡ fetch_change head roots.now incoming }
{
    let commit = match incoming {
        Some(index) => Some(Commit::Fetch { index }),
        None => None,
    };
    LogChange {
        head,
        roots: roots.copy(),
        gone: Indices::NONE,
        come: come_at(incoming),
        commit,
    }
}

/// The change of a proof with an upgrade, from the head before it.
pub(crate) fn upgrade_change(before: &Head, after: LogAfter, incoming: Option<u64>) -> LogChange
    requires within { IfSome incoming (λ index. index < MAX_BLOCKS) }
    ensures { result ≡ upgrade_change before.now after incoming }
{
    let commit = Some(commit_after(before.fork, &after, incoming));
    LogChange {
        head: after.head,
        gone: gone_from(before, &after),
        roots: after.roots,
        come: come_at(incoming),
        commit,
    }
}

// The blocks that go: under a greater fork those that aren't kept.
fn gone_from(before: &Head, after: &LogAfter) -> Indices
    ensures { result ≡ (upgrade_change before.now after.now None).gone }
{
    if before.fork < after.head.fork {
        return Indices {
            from: after.kept,
            to: before.length,
        };
    }
    Indices::NONE
}

// The index of one block as a range.
fn come_at(incoming: Option<u64>) -> Indices
    requires within { IfSome incoming (λ index. index < MAX_BLOCKS) }
    ensures { result ≡ come_at incoming }
{
    match incoming {
        Some(index) => Indices {
            from: index,
            to: index + 1,
        },
        None => Indices::NONE,
    }
}

fn commit_after(fork: u64, after: &LogAfter, incoming: Option<u64>) -> Commit
    ensures { result ≡ commit_after fork after.now incoming }
{
    match incoming {
        Some(index) => commit_with(fork, after, index),
        None => commit_alone(fork, after),
    }
}

fn commit_with(fork: u64, after: &LogAfter, index: u64) -> Commit
    ensures { result ≡ commit_after fork after.now (Some index) }
{
    let Head {
        fork: other,
        length,
        ..
    } = after.head;
    if fork < other {
        return Commit::ReorgFetch {
            fork: other,
            to: length,
            kept: after.kept,
            index,
        };
    }
    Commit::UpgradeFetch { to: length, index }
}

fn commit_alone(fork: u64, after: &LogAfter) -> Commit
    ensures { result ≡ commit_after fork after.now None }
{
    let Head {
        fork: other,
        length,
        ..
    } = after.head;
    if fork < other {
        return Commit::Reorg {
            fork: other,
            to: length,
            kept: after.kept,
        };
    }
    Commit::Upgrade { to: length }
}
