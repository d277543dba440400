//! A log in memory.
ghost use Rattle.std.specs.Prelude.{◌≡◌};
ghost use Rattle.node_set.specs.Contents.{start};
ghost use Rattle.node_set.specs.Tables.{shown};
ghost use Rattle.log_core.specs.Memory.{memory_view};

use bit_field::Bits;
use log_view::View;
use merkle_nodes::{Head, Node, Roots, root_hash};
use node_set::{CoreFault, Nodes};
use outside_traits::Blob;
use std::alloc::Global;
use std::marker::Model;

/// A log in memory. There may be more places than blocks, and nodes beside those that are to be stored.
#[derive(Drop)]
pub struct MemLog {
    pub(crate) head: Head,
    pub(crate) roots: Roots,
    // Their hash.
    pub(crate) root: [u8; 32],
    pub(crate) held: Bits,
    pub(crate) nodes: Nodes,
    pub(crate) blocks: Vec<Blob>,
}

impl Model for MemLog {
    ghost use Rattle.log_core.specs.Memory.{Stored, IsKept};
    ghost use Rattle.log_core.specs.MemoryParts.{stored_of};

    ghost Value = { Stored };

    ghost view = { stored_of };

    ghost invariant = { λ inside. IsKept (stored_of inside) };
}

impl MemLog {
    /// The log without blocks, which was never signed. Takes no memory.
    pub fn new(alloc: Global) -> MemLog
        ensures { shown result.parts ≡ start }
    {
        let roots = Roots::new(Node::BLANK);
        let root = root_hash(&roots);
        MemLog {
            head: Head {
                fork: 0,
                length: 0,
                signature: [0; 64],
            },
            roots,
            root,
            held: Bits::none(alloc),
            nodes: Nodes::new(alloc),
            blocks: Vec::new(alloc),
        }
    }
}

impl View for MemLog {
    ghost view = { memory_view };

    fn head(&self) -> Head {
        self.head
    }

    fn roots(&self) -> &Roots {
        &self.roots
    }

    fn held(&self, index: u64) -> bool {
        index < self.head.length && self.held.get(index)
    }

    fn first_held(&self, from: u64, to: u64) -> Option<u64> {
        self.held.first_in(from, to)
    }

    fn node(&mut self, index: u64) -> Result<Node, CoreFault> {
        match self.nodes.get(index) {
            Some(node) => Ok(node),
            None => unreachable!(),
        }
    }

    fn block(&mut self, index: u64, out: &mut [u8]) -> Result<usize, CoreFault> {
        let bytes = self.blocks[index as usize].bytes();
        out[..bytes.len()].copy_from_slice(bytes);
        Ok(bytes.len())
    }
}
