//! Laws of admission, for proofs with any parts, under a core's own fork and under a greater one, over the definitions
//! alone: what an admission leaves whole and legal, and which proofs are admitted.
#![tactic(auto)]

mod laws;

pub use laws::{
    admitted_is_of_the_log, admitted_stays_whole, covering_proofs_are_admitted, history_is_legal,
};
