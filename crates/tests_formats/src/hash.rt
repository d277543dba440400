// The self-test of RFC 7693, appendix E.

use blake2b_hash::{BadParam, Blake2b};

const MAX_BYTES: usize = 1024;

const SELF_TEST: [u8; 32] = [
    0xc2, 0x3a, 0x78, 0x00, 0xd9, 0x81, 0x23, 0xbd, 0x10, 0xf5, 0x06, 0xc6, 0x1e, 0x29, 0xda, 0x56,
    0x03, 0xd7, 0x63, 0xb8, 0xbb, 0xad, 0x2e, 0x73, 0x7f, 0x5e, 0x76, 0x5a, 0x7b, 0xcc, 0xd4, 0x75,
];

// The bytes that are hashed, and the keys.
fn sequence(seed: u16) -> [u8; MAX_BYTES] {
    let mut bytes = [0; MAX_BYTES];
    let mut a = 0xDEAD_4BADu32.wrapping_mul(u32::from(seed));
    let mut b = 1u32;
    for byte in bytes.iter_mut() {
        let sum = a.wrapping_add(b);
        a = b;
        b = sum;
        *byte = (sum >> 24) as u8;
    }
    bytes
}

fn front(bytes: &[u8], len: u16) -> &[u8] {
    bytes.get(..usize::from(len)).unwrap_or(bytes)
}

// Adds the hash of a message to the message of all hashes.
fn add(all: &mut Blake2b, outlen: u16, key: &[u8], message: &[u8]) -> Result<(), BadParam> {
    let mut hasher = Blake2b::new(usize::from(outlen), key)?;
    hasher.update(message);
    all.update(front(&hasher.finalize(), outlen));
    Ok(())
}

fn add_each_length(all: &mut Blake2b, outlen: u16) -> Result<(), BadParam> {
    let key = sequence(outlen);
    for len in [0, 3, 128, 129, 255, 1024] {
        let message = sequence(len);
        add(all, outlen, &[], front(&message, len))?;
        add(all, outlen, front(&key, outlen), front(&message, len))?;
    }
    Ok(())
}

fn self_test() -> Result<[u8; 32], BadParam> {
    let mut all = Blake2b::new256();
    for outlen in [20, 32, 48, 64] {
        add_each_length(&mut all, outlen)?;
    }
    Ok(all.finalize256())
}

#[test]
fn the_self_test(rt: HostRuntime) {
    assert!(rt; self_test() == Ok(SELF_TEST));
}
