//! Requests and proofs as peers send them (docs/PROTOCOL.md, "Requests" and "Proofs"): what is asked of a core, and
//! what proves an answer, each with one spelling. For whoever makes, checks or sends them. No call takes memory.
#![tactic(auto)]

mod fields;
mod flags;
mod form;
mod laws;
mod proof;
mod request;
mod twigs;

pub use fields::{MAX_NUMBER, buffer_from, fixed32_from, number_from, write_numbers};
pub use form::{Bad, BadForm, bad_form};
pub use laws::{one_spelling_of_a_proof, one_spelling_of_a_request};
pub use proof::{BlockPart, HashPart, Proof, UpgradePart, put_proof, read_proof};
pub use request::{Reach, Request, Want, put_request, read_request};
