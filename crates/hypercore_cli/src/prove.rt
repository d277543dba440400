//! The command `prove KEY INDEX`.
ghost use Rattle.std.specs.Prelude.{◌≡◌, None};
ghost use Rattle.hypercore_cli.specs.LineLimits.{limit_in};
ghost use Rattle.hypercore_cli.specs.Runs.{streams_of};
ghost use Rattle.hypercore_cli.specs.Proves.{ProvesTo, ProvesBlock};

use crate::log::read_log;
use crate::outcome::Outcome;
use flat_tree::MAX_BLOCK_BYTES;
use merkle_batch::{ProveFault, prove_block};
use outside_traits::{Blobs, Keys, Sink, Source, write_all};
use std::alloc::Global;

/// Reads a log's blocks as lines, and writes the proof bundle of the one at the index under fork 0.
pub fn prove<K: Keys, I: Source, O: Sink>(
    alloc: Global,
    key: &[u8; 32],
    index: u64,
    keys: &K,
    input: &mut I,
    output: &mut O,
) -> Outcome
    ensures { ProvesTo (streams_of (K.key_accepts keys.now) (I.source input.old) (I.source input.new)
        (O.sink output.old) (O.sink output.new)) key.now index result }
{
    match read_log(alloc, MAX_BLOCK_BYTES as usize, input) {
        Ok(log) => prove_in(alloc, &log, index, key, keys, output),
        Err(outcome) => outcome,
    }
}

/// Writes the proof bundle of the log's block at the index.
fn prove_in<K: Keys, O: Sink>(
    alloc: Global,
    log: &Blobs,
    index: u64,
    key: &[u8; 32],
    keys: &K,
    output: &mut O,
) -> Outcome
    requires { limit_in 0 0 log.now ≡ None }
    ensures { ProvesBlock (K.key_accepts keys.now key.now) log.now index (O.sink output.old)
        (O.sink output.new) result }
{
    let mut bundle = Vec::new(alloc);
    match prove_block(alloc, log, index, &keys.auth(key), &mut bundle) {
        Ok(()) => match write_all(output, bundle.as_slice()) {
            Ok(()) => Outcome::Done,
            Err(_) => Outcome::WriteFault,
        },
        Err(ProveFault::Memory) => Outcome::NoMemory,
        Err(ProveFault::OutOfRange { end }) => Outcome::OutOfRange { end },
    }
}
