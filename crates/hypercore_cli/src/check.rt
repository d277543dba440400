//! The command `check KEY`.
ghost use Rattle.std.specs.Prelude.{◌<◌, ◌≤◌, ◌+◌};
ghost use Rattle.hypercore_cli.specs.Runs.{streams_of};
ghost use Rattle.hypercore_cli.specs.Checks.{ChecksTo, ChecksBytes};

use crate::outcome::Outcome;
use merkle_nodes::{BundleFault, MAX_BUNDLE_BYTES, check_bundle};
use outside_traits::{Blob, Keys, Sink, Source, fill, write_all};
use std::alloc::Global;

/// Reads a bundle, at most one byte more than the largest has, and writes its block where its head is accepted and its
/// block proved.
pub fn check<K: Keys, I: Source, O: Sink>(
    alloc: Global,
    key: &[u8; 32],
    keys: &K,
    input: &mut I,
    output: &mut O,
) -> Outcome
    ensures { ChecksTo (streams_of (K.key_accepts keys.now) (I.source input.old) (I.source input.new)
        (O.sink output.old) (O.sink output.new)) key.now result }
{
    check_within(alloc, MAX_BUNDLE_BYTES + 1, key, keys, input, output)
}

/// Reads at most so many bytes, and checks them as a bundle.
fn check_within<K: Keys, I: Source, O: Sink>(
    alloc: Global,
    room: usize,
    key: &[u8; 32],
    keys: &K,
    input: &mut I,
    output: &mut O,
) -> Outcome
    requires more { MAX_BUNDLE_BYTES < room }
    requires most { room ≤ MAX_BUNDLE_BYTES + 1 }
    ensures { ChecksTo (streams_of (K.key_accepts keys.now) (I.source input.old) (I.source input.new)
        (O.sink output.old) (O.sink output.new)) key.now result }
{
    let mut place = match Blob::zeros(alloc, room) {
        Ok(place) => place,
        Err(_) => return Outcome::NoMemory,
    };
    match fill(input, place.bytes_mut()) {
        Ok(count) => check_bytes(&place.bytes()[..count], key, keys, output),
        Err(_) => Outcome::ReadFault,
    }
}

/// Checks these bytes as a bundle, and writes its block.
fn check_bytes<K: Keys, O: Sink>(bytes: &[u8], key: &[u8; 32], keys: &K, output: &mut O) -> Outcome
    ensures { ChecksBytes (K.key_accepts keys.now key.now) bytes.now (O.sink output.old)
        (O.sink output.new) result }
{
    match check_bundle(bytes, &keys.auth(key)) {
        Ok(opened) => match write_all(output, &bytes[opened.start..opened.end]) {
            Ok(()) => Outcome::Done,
            Err(_) => Outcome::WriteFault,
        },
        Err(BundleFault::BadForm { at }) => Outcome::BadForm { at },
        Err(BundleFault::NotProved { index, want, have }) => {
            Outcome::NotProved { index, want, have }
        }
        Err(BundleFault::BadSignature) => Outcome::BadSignature,
    }
}
