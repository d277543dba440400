//! A proof that is ready to be judged.
ghost use Rattle.std.specs.Prelude.{◌≡◌};
ghost use Rattle.proof_form.specs.Proofs.{ProofFits, view};

use proof_form::{BlockPart, Proof};
use std::marker::Model;

/// A proof within its ranges, with all that is known of it before a state is looked at.
#[derive(Drop)]
pub struct Prepared<'p> {
    proof: &'p Proof<'p>,
}

impl<'p> Model for Prepared<'p> {
    ghost use Rattle.proof_form.specs.Proofs.{Proof as ProofSpelled, ProofFits, view as proof_view};

    ghost Value = { ProofSpelled };

    ghost view = { λ prepared. proof_view prepared.proof.now };

    ghost invariant = { λ prepared. ProofFits (proof_view prepared.proof.now) };
}

/// Makes a proof ready. It reads no state, and refuses none.
pub fn prepare<'p>(proof: &'p Proof<'p>) -> Prepared<'p>
    requires fits { ProofFits (view proof.now) }
    ensures { result ≡ view proof.now }
{
    Prepared { proof }
}

impl<'p> Prepared<'p> {
    ghost use Rattle.std.specs.Prelude.{◌≡◌, option_map};
    ghost use Rattle.proof_form.specs.declared.proof.UpgradePart.{UpgradePart};
    ghost use Rattle.proof_form.specs.Proofs.{block_view, ProofFits, view};

    /// The proof.
    pub fn proof(&self) -> &'p Proof<'p>
        ensures proof { view result.now ≡ self.now }
        ensures fits { ProofFits (view result.now) }
    {
        self.proof
    }

    /// The fork that it is under.
    pub fn fork(&self) -> u64
        ensures { result ≡ self.now.fork }
    {
        self.proof.fork
    }

    /// Its block part.
    pub fn block(&self) -> &'p Option<BlockPart<'p>>
        ensures { block_view result.now ≡ self.now.block }
    {
        &self.proof.block
    }

    /// The length that its upgrade leads to.
    pub fn upgrade_length(&self) -> Option<u64>
        ensures { result ≡ option_map (λ (upgrade : UpgradePart). upgrade.length) self.now.upgrade }
    {
        match &self.proof.upgrade {
            Some(upgrade) => Some(upgrade.length),
            None => None,
        }
    }
}
