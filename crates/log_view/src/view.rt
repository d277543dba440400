//! The trait of views: what a core's decisions are made over.
ghost use Rattle.std.specs.Prelude.{◌≡◌, ◌≤◌, ◌<◌, ℕ, None, IfOk, IfSome, IsTrue, length};
ghost use Rattle.flat_tree.specs.Subtrees.{number};
ghost use Rattle.flat_tree.specs.declared.limits.TheConstants.{MAX_BLOCK_BYTES};
ghost use Rattle.node_set.specs.Closure.{in_closure};
ghost use Rattle.node_set.specs.Contents.{held, roots};
ghost use Rattle.log_view.specs.Views.{ViewState, IsUsable, HoldsNone, IsFirstHeld};
ghost use Rattle.log_view.specs.Views.{Looks, IsStored, GivesNode, GivesBlock};

use flat_tree::{parent, spans};
use merkle_nodes::{Head, Node, Roots};
use node_set::CoreFault;

/// A head with the nodes and blocks that are held for it. No call changes what is seen of the content.
pub trait View {
    /// What is seen of it.
    ghost view: { Self → ViewState };

    /// The fork, the length in blocks and the signature. With them come the limits that every view keeps.
    fn head(&self) -> Head
        ensures fork { result.fork ≡ (view self.now).source.content.fork }
        ensures length { result.length ≡ (view self.now).source.content.length }
        ensures signature { result.signature ≡ (view self.now).source.content.signature }
        ensures usable { IsUsable (view self.now).source.content };

    /// The full roots of the length.
    fn roots(&self) -> &Roots
        ensures { result.now ≡ roots (view self.now).source.content };

    /// Whether the block of an index is held.
    fn held(&self, index: u64) -> bool
        ensures { result ≡ held (view self.now).source.content index };

    /// The index of the first held block of a range below the length.
    fn first_held(&self, from: u64, to: u64) -> Option<u64>
        requires ordered { from ≤ to }
        requires within { to ≤ (view self.now).source.content.length }
        ensures found { IfSome result (IsFirstHeld (held (view self.now).source.content) from to) }
        ensures none { result ≡ None → HoldsNone (held (view self.now).source.content) from to };

    /// Whether the node of a number is to be stored, which the length and the held indices decide.
    final fn is_stored(&self, index: u64) -> bool
        ensures { let m = (view self.now).source.content in (depth offset : ℕ)
            → number depth offset ≡ index → result ≡ in_closure m.length (held m) depth offset }
    {
        let length = self.head().length;
        if index / 2 >= length {
            return false;
        }
        let (_, last) = spans(index);
        if last / 2 >= length {
            return false;
        }
        let (first, last) = spans(parent(index));
        if last / 2 >= length {
            return true;
        }
        self.first_held(first / 2, last / 2 + 1).is_some()
    }

    /// The node of a number that is to be stored.
    fn node(&mut self, index: u64) -> Result<Node, CoreFault>
        requires stored { IsStored (view self.old).source index }
        ensures gives { IfOk result (GivesNode (view self.old).source index) }
        ensures looks { Looks (view self.old) (view self.new) result };

    /// Reads a held block to the front of `out`, which has capacity for the largest, and gives its number of bytes.
    fn block(&mut self, index: u64, out: &mut [u8]) -> Result<usize, CoreFault>
        requires held { IsTrue (held (view self.old).source.content index) }
        requires capacity { MAX_BLOCK_BYTES ≤ length out.old }
        ensures gives { IfOk result (GivesBlock (view self.old).source index out.new) }
        ensures place { length out.new ≡ length out.old }
        ensures looks { Looks (view self.old) (view self.new) result };
}
