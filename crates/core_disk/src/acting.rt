//! A core on a disk, as every core.
ghost use Rattle.std.specs.Prelude.{true};
ghost use Rattle.core_disk.specs.Cored.{state_of};

use crate::disk_core::DiskCore;
use bit_field::PAGE_BYTES;
use core_snap::ReadAt;
use core_state::Core;
use disk_trait::Disk;
use merkle_nodes::Info;
use node_set::{CoreFault, Receipt};
use outside_traits::{Blobs, Signer};
use proof_check::Prepared;
use proof_form::{Proof, Request};
use std::alloc::Global;

impl<D: Disk, A: Signer> Core for DiskCore<D, A> {
    ghost state = { state_of D.disk A.accepts };

    ghost TAKES_MEMORY = { true };

    ghost IsReserved = { λ core p. ⊥ };

    const TAKES_MEMORY: bool = true;

    fn info(&self) -> Info {
        self.info()
    }

    fn faults(&self) -> u64 {
        self.faults()
    }

    fn append(&mut self, alloc: Global, blocks: &Blobs) -> Result<Receipt, CoreFault> {
        self.append(alloc, blocks)
    }

    fn truncate(&mut self, alloc: Global, to: u64, fork: u64) -> Result<Receipt, CoreFault> {
        self.truncate(alloc, to, fork)
    }

    fn clear(&mut self, alloc: Global, from: u64, to: u64) -> Result<Receipt, CoreFault> {
        self.clear(alloc, from, to)
    }

    fn admit(&mut self, alloc: Global, prepared: &Prepared<'_>) -> Result<Receipt, CoreFault> {
        self.admit(alloc, prepared)
    }

    fn make<'b>(&mut self, request: &Request, buf: &'b mut [u8]) -> Result<Proof<'b>, CoreFault> {
        self.make(request, buf)
    }

    fn get(&mut self, index: u64, buf: &mut [u8]) -> Result<ReadAt, CoreFault> {
        self.get(index, buf)
    }

    fn need(&mut self, index: u64) -> Result<u64, CoreFault> {
        self.need(index)
    }

    fn bits(&mut self, number: u64, out: &mut [u8; PAGE_BYTES]) -> Result<(), CoreFault> {
        self.bits(number, out)
    }
}
