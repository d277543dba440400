//! Nodes of a log's Merkle tree after DEP-0002 (leaf, parent, roots and their hash), the text that a head's signature
//! is over, and the check of a proof bundle: a block with all that proves it under a signed head. No call takes memory.
#![tactic(auto)]

mod bundle;
mod check;
mod fold;
mod limit;
mod node;
mod reading;
mod roots;

pub use bundle::Bundle;
pub use check::{BundleFault, Opened, check_bundle};
pub use fold::fold_path;
pub use limit::{Info, Limit, What};
pub use node::{Node, Roots, Trail, Twig, Twigs, leaf, parent};
pub use reading::{MAGIC, MAX_BUNDLE_BYTES, NUMBER_BYTES, START_BYTES, Start, TWIG_BYTES};
pub use roots::{Head, root_hash, signable};
