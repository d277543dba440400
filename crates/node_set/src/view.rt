//! The trait of views: what a core's decisions are made over.
ghost use Rattle.std.specs.Prelude.{◌≡◌, ◌≤◌, ◌<◌, ℕ, IfOk, IsTrue, length};
ghost use Rattle.flat_tree.specs.declared.limits.TheConstants.{MAX_BLOCK_BYTES};
ghost use Rattle.merkle_nodes.specs.Roots.{HasShape};
ghost use Rattle.node_set.specs.Contents.{held, roots};
ghost use Rattle.node_set.specs.Views.{ViewState, IsUsable, StandsSoundly, KeepsContent, HasViewCause, GivesNode, GivesBlock};

use crate::fault::CoreFault;
use merkle_nodes::{Head, Node, Roots};

/// A head with the nodes and blocks that are on hand for it. A call that answers a fault leaves the content as it was.
pub trait View {
    /// What is seen of it.
    ghost view: { Self → ViewState };

    /// The fork, the length and the signature. With them comes what every view keeps: the limits, and that the content
    /// of one that stands is sound.
    fn head(&self) -> Head
        ensures fork { result.fork ≡ (view self.now).content.fork }
        ensures length { result.length ≡ (view self.now).content.length }
        ensures signature { result.signature ≡ (view self.now).content.signature }
        ensures usable { IsUsable (view self.now).content }
        ensures sound { StandsSoundly (view self.now) };

    /// The full roots of the length.
    fn roots(&self) -> &Roots
        ensures { result.now ≡ roots (view self.now).content };

    /// Whether the block of an index is held.
    fn held(&self, index: u64) -> bool
        ensures { result ≡ held (view self.now).content index };

    /// The node of a number, exactly where it is to be stored for the length and the held indices.
    fn node(&mut self, index: u64) -> Result<Option<Node>, CoreFault>
        ensures gives { IfOk result (GivesNode (view self.old) index) }
        ensures keeps { KeepsContent (view self.old) (view self.new) }
        ensures cause { HasViewCause (view self.old) (view self.new) result };

    /// Reads a held block to the front of `out`, which has room for the largest, and gives its number of bytes.
    fn block(&mut self, index: u64, out: &mut [u8]) -> Result<usize, CoreFault>
        requires held { IsTrue (held (view self.old).content index) }
        requires room { MAX_BLOCK_BYTES ≤ length out.old }
        ensures gives { IfOk result (GivesBlock (view self.old) index out.new) }
        ensures keeps { KeepsContent (view self.old) (view self.new) }
        ensures cause { HasViewCause (view self.old) (view self.new) result };
}
