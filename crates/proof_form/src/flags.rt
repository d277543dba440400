//! Flags: which parts a request or a proof has.
ghost use Rattle.std.specs.Prelude.{◌≡◌, ◌<◌};
ghost use Rattle.proof_form.specs.Flags.{has_flag, flag_if, are_request_flags, are_proof_flags};

/// A block.
pub const BLOCK: u64 = 1;
/// A node and its hash.
pub const HASH: u64 = 2;
/// The block that has a byte.
pub const SEEK: u64 = 4;
/// A greater length.
pub const UPGRADE: u64 = 8;
/// Every part.
pub const ALL_PARTS: u64 = BLOCK + HASH + SEEK + UPGRADE;

/// Whether the flags have one.
pub(crate) fn has(flag: u64, flags: u64) -> bool
    requires { 0 < flag }
    ensures { result ≡ has_flag flag flags }
{
    flags / flag % 2 == 1
}

/// The flag of a part, where it is there.
pub(crate) fn flag(flag: u64, here: bool) -> u64
    ensures { result ≡ flag_if flag here }
{
    if here { flag } else { 0 }
}

/// Whether a request may have the flags: some part, but not both a block and a seek.
pub(crate) fn is_request(flags: u64) -> bool
    ensures { result ≡ are_request_flags flags }
{
    0 < flags && flags <= ALL_PARTS && !(has(BLOCK, flags) && has(SEEK, flags))
}

/// Whether a proof may have the flags: some part, and a seek only beside a block.
pub(crate) fn is_proof(flags: u64) -> bool
    ensures { result ≡ are_proof_flags flags }
{
    0 < flags && flags <= ALL_PARTS && (!has(SEEK, flags) || has(BLOCK, flags))
}
