//! The hash function BLAKE2b (RFC 7693): of a whole message, or of one that comes in pieces, with
//! or without a key. It takes no memory.
#![tactic(auto)]

mod compress;
mod digest;
mod hasher;

pub use digest::{hash256, hash256_pair, keyed256};
pub use hasher::{BadParam, Blake2b, MAX_KEY_BYTES, MAX_OUT_BYTES};
