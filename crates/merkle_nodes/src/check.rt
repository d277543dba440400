//! Is this the block that the signer signed?
ghost use Rattle.std.specs.Prelude.{◌≡◌, ◌↔◌, ◌≤◌, ℕ, List, length, IfOk, IsTrue};
ghost use Rattle.merkle_nodes.specs.Bundle.{Bundle as BundleSpelled, Fits, Spells};
ghost use Rattle.merkle_nodes.specs.View.{view};
ghost use Rattle.merkle_nodes.specs.Roots.{twig_of};
ghost use Rattle.merkle_nodes.specs.Fold.{IsRootOver};
ghost use Rattle.merkle_nodes.specs.Check.{Checks, HeadAccepted, OpensSigned};

use crate::bundle::Bundle;
use crate::fold::fold_path;
use crate::node::Node;
use crate::reading::{MAX_BUNDLE_BYTES, read_bundle};
use crate::roots::{root_hash, signable};
use flat_tree::root_of_block;
use outside_traits::Verifier;

/// Where a bundle's block stands in its bytes, and under which head it is proved.
#[derive(Clone, Copy, Debug, PartialEq, Eq)]
pub struct Opened {
    pub fork: u64,
    pub length: u64,
    pub index: u64,
    /// The place of the block's first byte.
    pub start: usize,
    /// The place after its last.
    pub end: usize,
}

/// Why a bundle is refused. Each comes only where none before it holds.
#[derive(Clone, Copy, Debug, PartialEq, Eq)]
pub enum BundleFault {
    /// The bytes are no bundle: the field at this place is the first that isn't whole or is outside its range, or the
    /// bundle ends there and more bytes follow.
    BadForm { at: usize },
    /// The node that the block and its siblings fold to differs in size or hash from the root over the block's index.
    NotProved { index: u64, want: Node, have: Node },
    /// The verifier refuses the head.
    BadSignature,
}

/// Checks a proof bundle (docs/FORMATS.md, "Proof bundle"): that the bytes are one, that its block and siblings fold to
/// the root over the block's index, and that the verifier accepts its head over its roots.
#[tactic(auto, using(crate::proofs::BundleSize::bundle_bound))]
pub fn check_bundle<V: Verifier>(bytes: &[u8], verifier: &V) -> Result<Opened, BundleFault>
    ensures checks { Checks (V.accepts verifier.now) bytes.now result }
    ensures sound { IfOk result (OpensSigned (V.accepts verifier.now) bytes.now) }
    ensures bound { (bundle : BundleSpelled) → Spells bundle bytes.now
        → length bytes.now ≤ MAX_BUNDLE_BYTES }
{
    match read_bundle(bytes) {
        Ok(bundle) => check_read(bytes, &bundle, verifier),
        Err(bad) => Err(BundleFault::BadForm {
            at: bytes.len() - bad.left,
        }),
    }
}

/// Checks a bundle that was read from these bytes.
fn check_read<V: Verifier>(
    bytes: &[u8],
    bundle: &Bundle<'_>,
    verifier: &V,
) -> Result<Opened, BundleFault>
    requires { Spells (view bundle.now) bytes.now }
    ensures { Checks (V.accepts verifier.now) bytes.now result }
{
    let want = root_over(bundle);
    let have = fold_path(bundle.start.index, bundle.block, &bundle.trail);
    if !is_same(&have, &want) {
        return Err(BundleFault::NotProved {
            index: bundle.start.index,
            want,
            have,
        });
    }
    if !is_accepted(bundle, verifier) {
        return Err(BundleFault::BadSignature);
    }
    let end = bytes.len();
    Ok(Opened {
        fork: bundle.start.fork,
        length: bundle.start.length,
        index: bundle.start.index,
        start: end - bundle.block.len(),
        end,
    })
}

/// Whether two nodes have one size and one hash.
fn is_same(one: &Node, other: &Node) -> bool
    ensures { IsTrue result ↔ (twig_of one.now ≡ twig_of other.now) }
{
    one.twig() == other.twig()
}

/// The root over the bundle's block.
fn root_over(bundle: &Bundle<'_>) -> Node
    requires { Fits (view bundle.now) }
    ensures { IsRootOver bundle.now.roots bundle.now.start.length bundle.now.start.index result }
{
    let (place, _) = root_of_block(bundle.start.length, bundle.start.index);
    bundle.roots.at(place)
}

/// Whether the verifier accepts the bundle's head.
fn is_accepted<V: Verifier>(bundle: &Bundle<'_>, verifier: &V) -> bool
    requires { Fits (view bundle.now) }
    ensures { IsTrue result ↔ HeadAccepted (V.accepts verifier.now) (view bundle.now) }
{
    let text = signable(
        &root_hash(&bundle.roots),
        bundle.start.length,
        bundle.start.fork,
    );
    verifier.verify(&text, &bundle.start.signature)
}
