//! What is in memory of a core's disk, read by numbers: nodes that are to be stored, and where blocks begin.
ghost use Rattle.std.specs.Prelude.{◌≡◌, ◌+◌, ◌*◌, ◌/◌, ◌^◌, ◌<◌, ◌≤◌, ℕ, min, None, Some, IfSome, IsTrue};
ghost use Rattle.std.specs.Option.{option_map};
ghost use Rattle.bit_field.specs.Pages.{page_of};
ghost use Rattle.bit_field.specs.Places.{has};
ghost use Rattle.flat_tree.specs.Subtrees.{number};
ghost use Rattle.flat_tree.specs.Roots.{depth_over};
ghost use Rattle.flat_tree.specs.declared.limits.TheConstants.{MAX_CORE_BYTES, MAX_ROOTS, MAX_SIBLINGS};
ghost use Rattle.merkle_nodes.specs.declared.node.Twig.{Twig};
ghost use Rattle.merkle_nodes.specs.Roots.{twig_of};
ghost use Rattle.node_set.specs.Contents.{bytes_under, twig_at};
ghost use Rattle.node_set.specs.Closure.{in_closure};
ghost use Rattle.node_set.specs.Offsets.{left_bytes, left_step, offset_of};
ghost use Rattle.node_set.specs.Walks.{IsInTree};
ghost use Rattle.core_disk.specs.InHand.{opened_of};
ghost use Rattle.core_disk.specs.Laid.{IsRooted, SizesFit, outline};

use crate::replay::{DiskState, MAX_NODES};
use bit_field::PAGE_BYTES;
use flat_tree::{MAX_CORE_BYTES, root_of_block};
use merkle_nodes::Node;
use node_set::is_stored;

impl DiskState {
    /// Whether the node of a number is to be stored.
    pub(crate) fn stores(&self, index: u64) -> bool
        ensures closed { (depth offset : ℕ) → number depth offset ≡ index
            → result ≡ in_closure self.now.head.length (opened_of self.now).held depth offset }
        ensures few { IsTrue result → index < MAX_NODES }
    {
        is_stored(self.head().length, &self.held, index)
    }

    /// The bytes of the log.
    pub(crate) fn bytes(&self) -> u64
        ensures { result ≡ bytes_under self.now.roots }
    {
        let _ = self.head();
        sum_of_sizes(self.roots.as_slice())
    }

    /// The bytes of a page of the held blocks.
    pub(crate) fn page(&self, number: u64, out: &mut [u8; PAGE_BYTES])
        ensures { out.new ≡ page_of (has self.now.held) number }
    {
        self.held.page(number, out);
    }

    /// The node of a number, where it is to be stored and there.
    pub(crate) fn stored_node(&self, index: u64) -> Option<Node>
        ensures value { (depth offset : ℕ) → number depth offset ≡ index
            → option_map twig_of result ≡ (outline (opened_of self.now)).node depth offset }
        ensures numbered { IfSome result (λ node. node.index ≡ index) }
    {
        if self.stores(index) {
            return self.nodes.get(index);
        }
        None
    }

    /// The node of a number, where it is there and no larger than a core.
    pub(crate) fn fit_node(&self, index: u64) -> Option<Node>
        ensures value { IfSome result (λ node. (depth offset : ℕ) → number depth offset ≡ index
            → (opened_of self.now).nodes depth offset ≡ Some (twig_of node)) }
        ensures numbered { IfSome result (λ node. node.index ≡ index) }
        ensures size { IfSome result (λ node. node.size ≤ MAX_CORE_BYTES) }
        ensures none { result ≡ None → (depth offset : ℕ) → number depth offset ≡ index → (twig : Twig)
            → (opened_of self.now).nodes depth offset ≡ Some twig → MAX_CORE_BYTES < twig.size }
    {
        match self.nodes.get(index) {
            Some(node) if node.size <= MAX_CORE_BYTES => Some(node),
            _ => None,
        }
    }

    /// The bytes under such a node, none where it isn't there, and no more than a core has.
    pub(crate) fn bytes_of(&self, index: u64) -> u64
        ensures size { (depth offset : ℕ) → number depth offset ≡ index
            → result ≡ min (twig_at (outline (opened_of self.now)).node depth offset).size MAX_CORE_BYTES }
        ensures few { result ≤ MAX_CORE_BYTES }
    {
        match self.stored_node(index) {
            Some(node) => node.size.min(MAX_CORE_BYTES),
            None => 0,
        }
    }

    /// The byte at which a block begins.
    pub(crate) fn offset(&self, index: u64) -> u64
        requires within { index < self.now.head.length }
        requires rooted { IsRooted (opened_of self.now) }
        ensures { SizesFit (outline (opened_of self.now)).node
            → result ≡ offset_of (outline (opened_of self.now)) index }
    {
        let (place, levels) = root_of_block(self.head().length, index);
        let before = sum_of_sizes(&self.roots.as_slice()[..place]);
        before + self.left_of_path(index, levels)
    }

    // The bytes of the left siblings on the way from a block's leaf to the root over it.
    fn left_of_path(&self, index: u64, levels: u32) -> u64
        requires fits { IsInTree index levels }
        ensures bytes { SizesFit (outline (opened_of self.now)).node
            → result ≡ left_bytes levels (outline (opened_of self.now)).node 0 index }
        ensures most { result ≤ levels * MAX_CORE_BYTES }
    {
        let mut bytes = 0;
        for level in 0..levels {
            bytes += self.left_of_node(index, level);
        }
        bytes
    }

    // The bytes of the left sibling of the node so many levels above a block's leaf, 0 at a left half.
    fn left_of_node(&self, index: u64, level: u32) -> u64
        requires fits { IsInTree index level }
        ensures bytes { SizesFit (outline (opened_of self.now)).node
            → result ≡ left_step (outline (opened_of self.now)).node level (index / 2 ^ level) }
        ensures most { result ≤ MAX_CORE_BYTES }
    {
        let offset = index >> level;
        if offset % 2 == 0 {
            return 0;
        }
        self.bytes_of(flat_tree::index(level, offset - 1))
    }
}

/// The bytes under some nodes.
pub(crate) fn sum_of_sizes(nodes: &[Node]) -> u64
    requires { bytes_under nodes.now ≤ MAX_ROOTS * MAX_CORE_BYTES }
    ensures { result ≡ bytes_under nodes.now }
{
    nodes.iter().map(|node| node.size).sum()
}
