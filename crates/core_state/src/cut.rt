//! Blocks that are taken away from a content in memory.
ghost use Rattle.std.specs.Prelude.{◌≡◌, ◌≤◌, ◌<◌, ◌⊎◌, ℕ, Bool, List, None, length, slice_get};
ghost use Rattle.flat_tree.specs.Roots.{full_roots_of};
ghost use Rattle.flat_tree.specs.declared.limits.TheConstants.{MAX_FORK};
ghost use Rattle.node_set.specs.Contents.{held, roots_at};
ghost use Rattle.node_set.specs.Closure.{in_closure};
ghost use Rattle.node_set.specs.Changes.{clear_content};
ghost use Rattle.core_forks.specs.Refusals.{first_missing, truncate_refusal, clear_refusal};
ghost use Rattle.core_forks.specs.Truncations.{IsTruncation, IsClearing};
ghost use Rattle.core_state.specs.Events.{Truncate, Clear};
ghost use Rattle.core_state.specs.Turns.{Turns, Decides, Cuts};
ghost use Rattle.core_state.specs.InMemory.{content_of, view_of};

use crate::stored::{MemState, signature_of};
use commit_book::Commit;
use merkle_nodes::{Head, Roots, root_hash};
use node_set::{Change, CoreFault, Receipt};
use outside_traits::{Blob, Signer};
use std::alloc::Global;

impl MemState {
    /// Cuts the log to a length, under a greater fork and a signed head. Where it is refused nothing changes.
    pub(crate) fn truncate<A: Signer>(
        &mut self,
        to: u64,
        fork: u64,
        auth: &A,
    ) -> Result<Receipt, CoreFault>
        ensures { Turns (A.accepts auth.now) (content_of self.old) (Truncate to fork)
            (content_of self.new) result }
    {
        let change = match self.truncation(to, fork) {
            Ok(change) => change,
            Err(fault) => return Err(fault),
        };
        self.cut(&change.roots, to, fork, auth);
        Ok(self.receipt(Some(Commit::Truncate { to, fork })))
    }

    // Whether the log may be cut.
    fn truncation(&self, to: u64, fork: u64) -> Result<Change, CoreFault>
        ensures { Decides (truncate_refusal (content_of self.now) to fork)
            (IsTruncation (view_of self.now) to fork) result }
    {
        core_forks::truncate(&mut self.view(), to, fork)
    }

    // Keeps what is below a length, under these roots.
    fn cut<A: Signer>(&mut self, roots: &Roots, to: u64, fork: u64, auth: &A)
        requires short { to ≤ (content_of self.old).length }
        requires few { fork ≤ MAX_FORK }
        requires roots { roots.now ≡ roots_at (content_of self.old).node to }
        requires found { let m = content_of self.old in
            first_missing (in_closure m.length (held m)) (full_roots_of to) ≡ None }
        ensures { Cuts (A.accepts auth.now) (content_of self.old) to fork (content_of self.new) }
    {
        let places = self.held.places();
        self.root = root_hash(roots);
        self.head = Head {
            fork,
            length: to,
            signature: signature_of(auth, &self.root, to, fork),
        };
        self.roots = roots.copy();
        self.blocks.truncate(to as usize);
        self.held.clear_range(to, places);
        self.nodes.prune(to, &self.held);
    }

    /// Gives up the blocks from..to, with their memory. Where none is held, or it is refused, nothing changes.
    pub(crate) fn clear(&mut self, alloc: Global, from: u64, to: u64) -> Result<Receipt, CoreFault>
        ensures { (accepts : List ℕ → List ℕ → Bool)
            → Turns accepts (content_of self.old) (Clear from to) (content_of self.new) result }
    {
        let change = match self.clearing(from, to) {
            Ok(change) => change,
            Err(fault) => return Err(fault),
        };
        if change.commit.is_none() {
            return Ok(self.receipt(None));
        }
        self.give_up(alloc, from, to);
        Ok(self.receipt(Some(Commit::Clear { from, to })))
    }

    // Whether blocks may be given up, and whether one of them is held.
    fn clearing(&self, from: u64, to: u64) -> Result<Change, CoreFault>
        ensures { Decides (clear_refusal (content_of self.now) from to)
            (IsClearing (content_of self.now) from to) result }
    {
        core_forks::clear(&mut self.view(), from, to)
    }

    // Gives up the blocks from..to.
    fn give_up(&mut self, alloc: Global, from: u64, to: u64)
        requires ordered { from ≤ to }
        requires within { to ≤ (content_of self.old).length }
        ensures { content_of self.new ≡ clear_content from to (content_of self.old) }
    {
        self.held.clear_range(from, to);
        empty_range(alloc, &mut self.blocks, from as usize, to as usize);
        self.nodes.prune(self.head.length, &self.held);
    }
}

// Gives back the memory of the blocks from..to, which no call reads: an empty one takes none.
fn empty_range(alloc: Global, blocks: &mut Vec<Blob>, from: usize, to: usize)
    requires within { to ≤ length blocks.old.items }
    ensures count { length blocks.new.items ≡ length blocks.old.items }
    ensures outside { (index : ℕ) → (index < from) ⊎ (to ≤ index)
        → slice_get blocks.new.items index ≡ slice_get blocks.old.items index }
{
    for index in from..to {
        if let Ok(empty) = Blob::zeros(alloc, 0) {
            blocks[index] = empty;
        }
    }
}
