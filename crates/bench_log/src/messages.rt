//! Hashes of a stream and of small messages.
ghost use Rattle.std.specs.Prelude.{◌≤◌, length};

use blake2b_hash::{Blake2b, hash256};
use std::io::{self, Read};

// The bytes that are read at a time.
const PIECE_BYTES: usize = 65536;

// The most bytes of a small message.
const SMALL_BYTES: usize = 256;

/// The first byte of the hash of all that is read.
pub(crate) fn first_of_input(mut input: impl Read + Drop) -> io::Result<u8> {
    let mut piece = [0; PIECE_BYTES];
    let mut hasher = Blake2b::new256();
    for _ in 0..u64::MAX {
        let count = input.read(&mut piece)?;
        if count == 0 {
            break;
        }
        hasher.update(&piece[..count]);
    }
    Ok(hasher.finalize256()[0])
}

/// The exclusive or of a byte of each of `count` hashes of `length` bytes, of which no two are alike.
pub(crate) fn mixed_of_small(length: usize, count: u64) -> u8 {
    let mut message = [0; SMALL_BYTES];
    let mut mixed = 0;
    let end = length.min(SMALL_BYTES);
    for number in 0..count {
        message[..8].copy_from_slice(&number.to_le_bytes());
        mixed ^= hash256(&message[..end])[0];
    }
    mixed
}
