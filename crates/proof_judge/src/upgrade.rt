//! The log after an upgrade, before anything of it is stored: what is laid over a view.
ghost use Rattle.std.specs.Prelude.{◌≡◌, ◌<◌, ◌≤◌, ◌+◌, ℕ, [], IfOk, length, vec_capacity};
ghost use Rattle.std.specs.List.{AllByRecursion};
ghost use Rattle.flat_tree.specs.Roots.{full_roots_of};
ghost use Rattle.flat_tree.specs.declared.limits.TheConstants.{MAX_BLOCKS, MAX_CORE_BYTES};
ghost use Rattle.merkle_nodes.specs.Joined.{Values};
ghost use Rattle.merkle_nodes.specs.Nodes.{AreNodes, bytes_under};
ghost use Rattle.merkle_nodes.specs.Roots.{HasShape, twig_of};
ghost use Rattle.root_stack.specs.Stack.{SizeFits, twig_bytes};
ghost use Rattle.proof_form.specs.Proofs.{UpgradeFits};
ghost use Rattle.log_view.specs.Views.{IsUsable, Looks};
ghost use Rattle.proof_judge.specs.Laying.{IsDue, AreLaid, KeepsBlocks, LaysUpgrade, roots_before, joined_with};

use flat_tree::{MAX_ROOTS, MAX_UPGRADE_NODES};
use log_change::kept_under;
use log_view::View;
use merkle_nodes::{Head, Node, Roots};
use node_set::CoreFault;
use proof_form::UpgradePart;
use root_stack::push_cover;

/// The most nodes that an upgrade makes.
pub const MAX_LAID_NODES: usize = MAX_ROOTS + 2 * MAX_UPGRADE_NODES;

/// The log after an upgrade, but for the nodes that it makes.
#[derive(Drop)]
pub struct LogAfter {
    /// The head, whose signature is not verified yet.
    pub head: Head,
    /// The full roots of its length, left to right.
    pub roots: Roots,
    /// The blocks below this index stay.
    pub kept: u64,
}

/// The log after an upgrade under a fork, where its numbers aren't refused. The roots after are those of the view with
/// the upgrade's subtrees pushed behind them, or these alone under a greater fork. Leaves in `nodes` the nodes that
/// become full, in the order of their numbers. Each `Err` is the view's.
pub fn lay_upgrade<V: View>(
    view: &mut V,
    fork: u64,
    upgrade: &UpgradePart,
    nodes: &mut Vec<Node>,
) -> Result<LogAfter, CoreFault>
    requires due { IsDue fork upgrade.now (V.view view.old).source.content }
    requires empty { nodes.old.items ≡ [] }
    requires room { MAX_LAID_NODES ≤ vec_capacity nodes.old }
    ensures lays { IfOk result (λ after.
        LaysUpgrade (V.view view.old).source fork upgrade.now after nodes.new.items) }
    ensures few { IfOk result (λ after. length nodes.new.items ≤ MAX_LAID_NODES) }
    ensures looks { Looks (V.view view.old) (V.view view.new) result }
{
    let mut roots = roots_before(view, fork);
    push_in_order(&mut roots, upgrade, nodes);
    let kept = match kept_before(view, fork, upgrade.length, &roots) {
        Ok(kept) => kept,
        Err(fault) => return Err(fault),
    };
    Ok(LogAfter {
        head: Head {
            fork,
            length: upgrade.length,
            signature: upgrade.signature,
        },
        roots,
        kept,
    })
}

// The roots that an upgrade is joined behind.
fn roots_before<V: View>(view: &V, fork: u64) -> Roots
    ensures roots { result ≡ roots_before fork (V.view view.now).source.content }
    ensures usable { IsUsable (V.view view.now).source.content }
{
    if view.head().fork < fork {
        return Roots::new(Node::BLANK);
    }
    view.roots().copy()
}

// Pushes an upgrade's subtrees behind these roots. The nodes that become full are left in the order of their numbers.
fn push_in_order(roots: &mut Roots, upgrade: &UpgradePart, nodes: &mut Vec<Node>)
    requires fits { UpgradeFits upgrade.now }
    requires blocks { upgrade.now.length ≤ MAX_BLOCKS }
    requires of { (known : Values) × AreNodes known (full_roots_of upgrade.now.start) roots.old }
    requires bytes { bytes_under roots.old + twig_bytes upgrade.now.nodes ≤ MAX_CORE_BYTES }
    requires empty { nodes.old.items ≡ [] }
    requires room { MAX_LAID_NODES ≤ vec_capacity nodes.old }
    ensures nodes { AreLaid roots.old upgrade.now nodes.new.items }
    ensures nodes_fit { AllByRecursion SizeFits nodes.new.items }
    ensures few { length nodes.new.items ≤ MAX_LAID_NODES }
    ensures roots { (known : Values) → AreNodes known (full_roots_of upgrade.now.start) roots.old
        → AreNodes (joined_with upgrade.now known) (full_roots_of upgrade.now.length) roots.new }
    ensures roots_fit { AllByRecursion SizeFits roots.new }
{
    push_cover(
        roots,
        nodes,
        upgrade.start,
        upgrade.length,
        upgrade.nodes.as_slice(),
    );
    nodes.sort_unstable_by_key(|node| node.index);
}

// How many blocks stay: all under the log's own fork, and those under the first roots that are stored under a greater
// one.
fn kept_before<V: View>(
    view: &mut V,
    fork: u64,
    length: u64,
    roots: &Roots,
) -> Result<u64, CoreFault>
    requires within { length ≤ MAX_BLOCKS }
    requires shape { HasShape roots.now length }
    ensures kept { IfOk result (KeepsBlocks (V.view view.old).source fork length roots.now) }
    ensures looks { Looks (V.view view.old) (V.view view.new) result }
{
    if view.head().fork < fork {
        return kept_under(view, length, roots.as_slice());
    }
    Ok(view.head().length)
}
