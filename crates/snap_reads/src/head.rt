//! The present head of a view as a snapshot.
ghost use Rattle.std.specs.Prelude.{◌≡◌, ◌≤◌};
ghost use Rattle.flat_tree.specs.declared.limits.TheConstants.{MAX_BLOCKS};
ghost use Rattle.merkle_nodes.specs.Roots.{HasShape};
ghost use Rattle.node_set.specs.Contents.{roots};

use core_snap::Snapshot;
use log_view::View;
use merkle_nodes::{Node, Roots};

/// The head of a view with its roots, under which reads stay what they are when the view changes.
pub fn snapshot<V: View>(view: &V) -> Snapshot
    ensures fork { result.fork ≡ (V.view view.now).source.content.fork }
    ensures length { result.length ≡ (V.view view.now).source.content.length }
    ensures roots { result.roots ≡ roots (V.view view.now).source.content }
    ensures signature { result.signature ≡ (V.view view.now).source.content.signature }

    // what a read under it requires
    ensures shape { HasShape result.roots result.length }
    ensures few { result.length ≤ MAX_BLOCKS }
{
    let head = view.head();
    let mut roots = Roots::new(Node::BLANK);
    roots.extend(view.roots().as_slice());
    let signature = head.signature;
    Snapshot {
        fork: head.fork,
        length: head.length,
        roots,
        signature,
    }
}
