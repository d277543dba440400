//! The core in memory.
ghost use Rattle.std.specs.Prelude.{◌≡◌, true, OnOk};
ghost use Rattle.node_set.specs.Contents.{start};
ghost use Rattle.proof_check.specs.Admission.{IsPlain};
ghost use Rattle.core_state.specs.InMemory.{content_of, view_of, mem_state};
ghost use Rattle.core_state.specs.Reserves.{IsReserved};

use crate::log_core::Core;
use crate::stored::MemState;
use bit_field::PAGE_BYTES;
use core_snap::{ReadAt, read_held};
use merkle_nodes::{Head, Info, Node, Roots};
use node_set::{Change, CoreFault, Receipt, View};
use outside_traits::{Blobs, Memory, Signer};
use proof_check::{Prepared, no_change};
use proof_form::{Proof, Request};
use std::alloc::Global;
use std::marker::Model;

/// A log in memory, with the authority that signs its heads.
#[derive(Drop)]
pub struct MemCore<A: Signer> {
    state: MemState,
    auth: A,
    // A place for the change of an admission, which none of them clears.
    change: Change,
}

impl<A: Signer> Model for MemCore<A> {
    ghost use Rattle.node_set.specs.Whole.{IsWhole};
    ghost use Rattle.core_state.specs.InMemory.{Owned, content_of};

    ghost Value = { Owned A };

    ghost view = { λ core. record { stored = core.state; auth = core.auth } };

    ghost invariant = { λ core. IsWhole (A.accepts core.auth) (content_of core.state) };
}

impl<A: Signer> MemCore<A> {
    /// The log without blocks, which was never signed. Takes no memory.
    pub fn new(alloc: Global, auth: A) -> MemCore<A>
        ensures start { content_of result.stored ≡ start }
        ensures auth { result.auth ≡ auth }
    {
        MemCore {
            state: MemState::new(alloc),
            auth,
            change: no_change(),
        }
    }

    /// Takes all memory that an admission of this proof wants: an `admit` of it takes none from then on, until another
    /// change. Takes none where the proof is refused. The content stays, also without memory.
    pub fn reserve(&mut self, alloc: Global, prepared: &Prepared<'_>) -> Result<(), Memory>
        requires plain { IsPlain prepared.now }
        ensures reserved { OnOk result (IsReserved (A.accepts self.new.auth) self.new.stored prepared.now) }
        ensures content { content_of self.new.stored ≡ content_of self.old.stored }
        ensures auth { self.new.auth ≡ self.old.auth }
    {
        self.state
            .reserve(alloc, prepared, &self.auth, &mut self.change)
    }
}

impl<A: Signer> View for MemCore<A> {
    ghost view = { λ core. view_of core.stored };

    fn head(&self) -> Head {
        self.state.head()
    }

    fn roots(&self) -> &Roots {
        self.state.roots()
    }

    fn held(&self, index: u64) -> bool {
        self.state.held(index)
    }

    fn node(&mut self, index: u64) -> Result<Option<Node>, CoreFault> {
        Ok(self.state.node(index))
    }

    fn block(&mut self, index: u64, out: &mut [u8]) -> Result<usize, CoreFault> {
        Ok(self.state.block(index, out))
    }
}

impl<A: Signer> Core for MemCore<A> {
    ghost state = { λ core. mem_state (A.accepts core.auth) (content_of core.stored) };

    ghost TAKES_MEMORY = { true };

    ghost IsReserved = { λ core p. IsReserved (A.accepts core.auth) core.stored p };

    const TAKES_MEMORY: bool = true;

    fn info(&self) -> Info {
        self.state.info()
    }

    fn faults(&self) -> u64 {
        0
    }

    fn append(&mut self, alloc: Global, blocks: &Blobs) -> Result<Receipt, CoreFault> {
        self.state.append(alloc, blocks, &self.auth)
    }

    fn truncate(&mut self, _alloc: Global, to: u64, fork: u64) -> Result<Receipt, CoreFault> {
        self.state.truncate(to, fork, &self.auth)
    }

    fn clear(&mut self, alloc: Global, from: u64, to: u64) -> Result<Receipt, CoreFault> {
        self.state.clear(alloc, from, to)
    }

    fn admit(&mut self, alloc: Global, prepared: &Prepared<'_>) -> Result<Receipt, CoreFault> {
        self.state
            .admit(alloc, prepared, &self.auth, &mut self.change)
    }

    fn make<'b>(&mut self, request: &Request, buf: &'b mut [u8]) -> Result<Proof<'b>, CoreFault> {
        proof_make::make(&mut self.state.view(), request, buf)
    }

    fn get(&mut self, index: u64, buf: &mut [u8]) -> Result<ReadAt, CoreFault> {
        read_held(&mut self.state.view(), index, buf)
    }

    fn need(&mut self, index: u64) -> Result<u64, CoreFault> {
        self.state.need(index)
    }

    fn bits(&mut self, number: u64, out: &mut [u8; PAGE_BYTES]) -> Result<(), CoreFault> {
        self.state.page(number, out);
        Ok(())
    }
}
