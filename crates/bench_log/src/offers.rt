//! Proofs between two cores: asked for, spelled, read and taken in.
ghost use Rattle.std.specs.Prelude.{◌≤◌, ◌<◌, ◌≡◌, length};
ghost use Rattle.flat_tree.specs.declared.limits.TheConstants.{MAX_BLOCK_BYTES, MAX_SIBLINGS};
ghost use Rattle.proof_form.specs.Requests.{RequestFits};

use crate::path_hashes::hash_path;
use compact_enc::{Decoder, Encoder};
use core_state::Core;
use proof_check::prepare;
use proof_form::{Proof, Reach, Request, Want, put_proof, read_proof};
use std::alloc::Global;
use std::marker::Model;

/// A proof of a block or of an upgrade, as it was read.
#[derive(Drop)]
pub(crate) struct Offer<'f> {
    proof: Proof<'f>,
}

impl<'f> Model for Offer<'f> {
    ghost use Rattle.proof_form.specs.Proofs.{Proof as ProofSpelled, ProofFits, view as proof_view};
    ghost use Rattle.proof_check.specs.Admission.{IsPlain};

    ghost Value = { ProofSpelled };

    ghost view = { λ offer. proof_view offer.proof };

    ghost invariant = { λ offer. ProofFits (proof_view offer.proof) × IsPlain (proof_view offer.proof) };
}

impl<'f> Offer<'f> {
    /// The proof that is spelled at the front of some bytes, if there is one of a block or an upgrade.
    pub(crate) fn read(bytes: &'f [u8]) -> Option<Offer<'f>> {
        let mut decoder = Decoder::new(bytes);
        let Ok(proof) = read_proof(&mut decoder) else {
            return None;
        };
        if proof.hash.is_some() || proof.seek.is_some() {
            return None;
        }
        Some(Offer { proof })
    }

    /// Takes in what it brings. Whether it is admitted.
    pub(crate) fn admit<C: Core>(&self, core: &mut C, alloc: Global) -> bool {
        core.admit(alloc, &prepare(&self.proof)).is_ok()
    }

    /// A byte of the last hash of its block's path, which has as many hashes as an admission makes, of the bytes where
    /// they lie. 0 without a block.
    pub(crate) fn hash(&self) -> u8 {
        match &self.proof.block {
            Some(block) => hash_path(block.bytes, block.trail.as_slice()),
            None => 0,
        }
    }
}

/// Spells the proof for a request to the front of `out`. Whether there is one, and room for it.
pub(crate) fn spell<C: Core>(
    source: &mut C,
    request: &Request,
    place: &mut [u8],
    out: &mut [u8],
) -> bool
    requires fits { RequestFits request.now }
    requires room { MAX_BLOCK_BYTES ≤ length place.old }
{
    let Ok(proof) = source.make(request, place) else {
        return false;
    };
    put_proof(&proof, &mut Encoder::new(out)).is_ok()
}

/// A block with so many siblings.
pub(crate) fn block_at(index: u32, nodes: u64) -> Request
    requires nodes { nodes ≤ MAX_SIBLINGS }
    ensures { RequestFits result }
{
    let index = index as u64;
    Request {
        fork: 0,
        block: Some(Want { index, nodes }),
        hash: None,
        seek: None,
        upgrade: None,
    }
}

/// An upgrade from nothing to a length.
pub(crate) fn upgrade_to(length: u32) -> Request
    requires some { 0 < length }
    ensures { RequestFits result }
{
    let length = length as u64;
    Request {
        fork: 0,
        block: None,
        hash: None,
        seek: None,
        upgrade: Some(Reach { start: 0, length }),
    }
}
