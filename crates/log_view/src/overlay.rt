//! A view laid over another.
ghost use Rattle.std.specs.Prelude.{◌≡◌, ◌<◌, None, IfSome, false};
ghost use Rattle.std.specs.List.{AllPairs, Contains};
ghost use Rattle.merkle_nodes.specs.declared.node.Node.{Node as NodeSeen};
ghost use Rattle.log_view.specs.Overlays.{IsLaid, has_number, view_over};

use crate::view::View;
use merkle_nodes::{Head, Node, Roots};
use node_set::CoreFault;

/// A view under another head: with the roots of that head, some nodes laid over those of the view below, and the blocks
/// of the view below up to an index. It is the log after an upgrade or a reorganisation, before anything is stored.
#[derive(Drop)]
pub struct Overlay<'a, V: View> {
    below: &'a mut V,
    head: Head,
    roots: &'a Roots,
    kept: u64,
    laid: &'a [Node],
    ghost is_laid: { IsLaid (V.view below.now).source.content head roots.now kept laid.now },
}

impl<'a, V: View> Overlay<'a, V> {
    /// Lays a head with its roots and nodes, in the order of their numbers, over a view whose first `kept` blocks stay.
    pub fn new(
        below: &'a mut V,
        head: Head,
        roots: &'a Roots,
        kept: u64,
        laid: &'a [Node],
    ) -> Overlay<'a, V>
        requires is_laid { IsLaid (V.view below.old).source.content head roots.now kept laid.now }
        ensures same { result.below.ghost_name ≡ below.entry.ghost_name }
        ensures below { result.below.now ≡ below.old }
        ensures head { result.head ≡ head }
        ensures kept { result.kept ≡ kept }
        ensures laid { result.laid.now ≡ laid.now }
    {
        Overlay {
            below,
            head,
            roots,
            kept,
            laid,
        }
    }
}

impl<'a, V: View> View for Overlay<'a, V> {
    ghost view = { λ o.
        view_over o.below.ghost_name (V.view o.below.now) o.head o.kept o.laid.now };

    fn head(&self) -> Head {
        self.head
    }

    fn roots(&self) -> &Roots {
        self.roots
    }

    fn held(&self, index: u64) -> bool {
        index < self.kept && self.below.held(index)
    }

    fn first_held(&self, from: u64, to: u64) -> Option<u64> {
        let end = to.min(self.kept);
        if end <= from {
            return None;
        }
        self.below.first_held(from, end)
    }

    fn node(&mut self, index: u64) -> Result<Node, CoreFault> {
        match find(self.laid, index) {
            Some(node) => Ok(node),
            None => self.below.node(index),
        }
    }

    fn block(&mut self, index: u64, out: &mut [u8]) -> Result<usize, CoreFault> {
        self.below.block(index, out)
    }
}

// The node of a number among nodes in the order of their numbers.
fn find(nodes: &[Node], index: u64) -> Option<Node>
    requires ascend { AllPairs (λ (one other : NodeSeen). one.index < other.index) nodes.now }
    ensures numbered { IfSome result (λ node. node.index ≡ index) }
    ensures among { IfSome result (λ node. Contains nodes.now node) }
    ensures none { result ≡ None → has_number nodes.now index ≡ false }
{
    match nodes.binary_search_by_key(&index, |node| node.index) {
        Ok(place) => Some(nodes[place]),
        Err(_) => None,
    }
}
