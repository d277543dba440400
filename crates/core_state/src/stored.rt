//! A content in memory, and the view of it.
ghost use Rattle.std.specs.Prelude.{◌≡◌, ◌≤◌, IfOk, IsTrue, length as count};
ghost use Rattle.flat_tree.specs.declared.limits.TheConstants.{MAX_BLOCK_BYTES, MAX_CORE_BYTES, MAX_SIBLINGS};
ghost use Rattle.node_set.specs.Views.{IsUsable, StandsSoundly, GivesNode, GivesBlock};
ghost use Rattle.merkle_nodes.specs.Roots.{signed_text};
ghost use Rattle.bit_field.specs.Pages.{page_of};
ghost use Rattle.node_set.specs.Contents.{start, held, roots, bytes_under};
ghost use Rattle.core_state.specs.States.{info_of, receipt_of};
ghost use Rattle.core_state.specs.Refusals.{need_answer};
ghost use Rattle.core_state.specs.InMemory.{content_of, view_of};

use bit_field::{Bits, PAGE_BYTES};
use commit_book::Commit;
use merkle_nodes::{Head, Info, Node, Roots, root_hash, signable};
use node_set::{CoreFault, Nodes, Receipt, View, is_stored, need};
use outside_traits::{Blob, Signer};
use std::alloc::Global;
use std::marker::Model;

/// A content in memory. There may be more places than blocks, and nodes beside those that are to be stored.
#[derive(Drop)]
pub(crate) struct MemState {
    pub(crate) head: Head,
    pub(crate) roots: Roots,
    // Their root hash.
    pub(crate) root: [u8; 32],
    pub(crate) held: Bits,
    pub(crate) nodes: Nodes,
    pub(crate) blocks: Vec<Blob>,
    // A place for the bytes of a block that is to come in.
    pub(crate) spare: Option<Blob>,
}

impl Model for MemState {
    ghost use Rattle.core_state.specs.InMemory.{Stored, IsKept};
    ghost use Rattle.core_state.specs.Stores.{stored_of};

    ghost Value = { Stored };

    ghost view = { stored_of };

    ghost invariant = { λ inside. IsKept (stored_of inside) };
}

impl MemState {
    /// Nothing, under the head that was never signed. Takes no memory.
    pub(crate) fn new(alloc: Global) -> MemState
        ensures { content_of result ≡ start }
    {
        let roots = Roots::new(Node::BLANK);
        let root = root_hash(&roots);
        MemState {
            head: Head {
                fork: 0,
                length: 0,
                signature: [0; 64],
            },
            roots,
            root,
            held: Bits::none(alloc),
            nodes: Nodes::new(alloc),
            blocks: Vec::new(alloc),
            spare: None,
        }
    }

    /// The head in short.
    pub(crate) fn info(&self) -> Info
        ensures { result ≡ info_of (content_of self.now) }
    {
        Info {
            fork: self.head.fork,
            length: self.head.length,
            bytes: bytes_under(self.roots.as_slice()),
            held: self.held.count(),
            root: self.root,
        }
    }

    /// What a change tells that committed this.
    pub(crate) fn receipt(&self, commit: Option<Commit>) -> Receipt
        ensures { result ≡ receipt_of (content_of self.now) commit }
    {
        Receipt {
            fork: self.head.fork,
            length: self.head.length,
            root: self.root,
            commit,
        }
    }

    /// The bytes of a page of held indices.
    pub(crate) fn page(&self, number: u64, out: &mut [u8; PAGE_BYTES])
        ensures { out.new ≡ page_of (held (content_of self.now)) number }
    {
        let _roots = &self.roots;
        self.held.page(number, out);
    }

    /// The fork, the length and the signature.
    pub(crate) fn head(&self) -> Head
        ensures head { result ≡ self.now.parts.head }
        ensures usable { IsUsable (content_of self.now) }
        ensures sound { StandsSoundly (view_of self.now) }
    {
        self.head
    }

    /// Whether the block of an index is held.
    pub(crate) fn held(&self, index: u64) -> bool
        ensures { result ≡ held (content_of self.now) index }
    {
        index < self.head.length && self.held.get(index)
    }

    /// The node of a number, where it is to be stored.
    pub(crate) fn node(&self, index: u64) -> Option<Node>
        ensures { GivesNode (view_of self.now) index result }
    {
        if is_stored(self.head.length, &self.held, index) {
            return self.nodes.get(index);
        }
        None
    }

    /// Reads a held block to the front of `out`, and gives its number of bytes.
    pub(crate) fn block(&self, index: u64, out: &mut [u8]) -> usize
        requires held { IsTrue (held (content_of self.now) index) }
        requires room { MAX_BLOCK_BYTES ≤ count out.old }
        ensures { GivesBlock (view_of self.now) index out.new result }
    {
        let bytes = self.blocks[index as usize].bytes();
        out[..bytes.len()].copy_from_slice(bytes);
        bytes.len()
    }

    /// The full roots of the length.
    pub(crate) fn roots(&self) -> &Roots
        ensures { result.now ≡ roots (content_of self.now) }
    {
        &self.roots
    }

    /// It as a view, whose calls don't change it.
    pub(crate) fn view(&self) -> MemView<'_>
        ensures { result.state.now ≡ self.now }
    {
        MemView { state: self }
    }

    /// How many siblings a block needs.
    pub(crate) fn need(&self, index: u64) -> Result<u64, CoreFault>
        ensures answer { result ≡ need_answer (content_of self.now) index }
        ensures few { IfOk result (λ levels. levels ≤ MAX_SIBLINGS) }
    {
        let end = self.head.length;
        if index < end {
            need(&mut self.view(), index)
        } else {
            Err(CoreFault::OutOfRange { end })
        }
    }
}

/// The view of a content in memory.
#[derive(Drop)]
pub(crate) struct MemView<'a> {
    state: &'a MemState,
}

/// The signature of a head over the roots with this root hash.
pub fn signature_of<A: Signer>(auth: &A, root: &[u8; 32], length: u64, fork: u64) -> [u8; 64]
    ensures accepted { IsTrue (A.accepts auth.now (signed_text root.now length fork) result) }
    ensures wide { count result ≡ 64 }
{
    auth.sign(&signable(root, length, fork))
}

// The bytes under some nodes.
fn bytes_under(nodes: &[Node]) -> u64
    requires { bytes_under nodes.now ≤ MAX_CORE_BYTES }
    ensures { result ≡ bytes_under nodes.now }
{
    nodes.iter().map(|node| node.size).sum()
}

impl<'a> View for MemView<'a> {
    ghost view = { λ view. view_of view.state.now };

    fn head(&self) -> Head {
        self.state.head()
    }

    fn roots(&self) -> &Roots {
        self.state.roots()
    }

    fn held(&self, index: u64) -> bool {
        self.state.held(index)
    }

    fn node(&mut self, index: u64) -> Result<Option<Node>, CoreFault> {
        Ok(self.state.node(index))
    }

    fn block(&mut self, index: u64, out: &mut [u8]) -> Result<usize, CoreFault> {
        Ok(self.state.block(index, out))
    }
}
