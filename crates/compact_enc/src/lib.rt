//! Compact encoding, as Hypercore's programs use it: numbers, bytes of a known count and buffers, each with one
//! spelling. An encoder writes into a buffer of the caller's; a decoder reads the shortest spellings alone. No call
//! takes memory.
#![tactic(auto)]

mod decoder;
mod encoder;
mod fields;
mod laws;
mod marks;

pub use decoder::Decoder;
pub use encoder::{Encoder, Full};
pub use fields::EncFault;
pub use laws::{one_spelling_of_a_buffer, one_spelling_of_a_number};
