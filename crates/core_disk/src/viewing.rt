//! A core on a disk, as a view. A broken one gives what it had before the change that failed.
ghost use Rattle.std.specs.Prelude.{◌≡◌, ◌≤◌, IfOk, IsTrue, length as count};
ghost use Rattle.flat_tree.specs.declared.limits.TheConstants.{MAX_BLOCK_BYTES};
ghost use Rattle.node_set.specs.Contents.{held};
ghost use Rattle.node_set.specs.Views.{KeepsContent, HasViewCause, GivesNode, GivesBlock};
ghost use Rattle.core_disk.specs.Stored.{view_of};
ghost use Rattle.core_disk.specs.Reading.{OnlyReads};

use crate::disk_core::DiskCore;
use disk_trait::Disk;
use merkle_nodes::{Head, Node, Roots};
use node_set::{CoreFault, View};
use outside_traits::Signer;

impl<D: Disk, A: Signer> View for DiskCore<D, A> {
    ghost view = { λ core. view_of D.disk core.store };

    fn head(&self) -> Head {
        self.store.head()
    }

    fn roots(&self) -> &Roots {
        self.store.roots()
    }

    fn held(&self, index: u64) -> bool {
        self.store.held(index)
    }

    fn node(&mut self, index: u64) -> Result<Option<Node>, CoreFault>
        ensures gives { IfOk result (GivesNode (view_of D.disk self.old.store) index) }
        ensures keeps { KeepsContent (view_of D.disk self.old.store) (view_of D.disk self.new.store) }
        ensures cause { HasViewCause (view_of D.disk self.old.store) (view_of D.disk self.new.store) result }
        ensures leaves { OnlyReads D.disk self.old self.new }
    {
        self.store.node(index)
    }

    fn block(&mut self, index: u64, out: &mut [u8]) -> Result<usize, CoreFault>
        requires held { IsTrue (held (view_of D.disk self.old.store).content index) }
        requires room { MAX_BLOCK_BYTES ≤ count out.old }
        ensures gives { IfOk result (GivesBlock (view_of D.disk self.old.store) index out.new) }
        ensures keeps { KeepsContent (view_of D.disk self.old.store) (view_of D.disk self.new.store) }
        ensures cause { HasViewCause (view_of D.disk self.old.store) (view_of D.disk self.new.store) result }
        ensures leaves { OnlyReads D.disk self.old self.new }
    {
        self.store.block(index, out)
    }
}
