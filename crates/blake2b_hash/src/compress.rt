// The compression function F of RFC 7693, section 3.2, over one block of 128 bytes.

ghost use Rattle.std.specs.Prelude.{◌≡◌, ℕ, ◌+◌, ◌%◌, ◌^◌, ◌<◌, ◌≤◌, List, length};
ghost use Rattle.blake2b_hash.specs.Blake2b.{F, G, IV, local_words, round, rounds, word_at, words};

/// The bytes of a block.
pub(crate) const BLOCK_BYTES: usize = 128;

/// The initialization vector (RFC 7693, section 2.6).
pub(crate) const INITIAL: [u64; 8] = [
    0x6A09_E667_F3BC_C908,
    0xBB67_AE85_84CA_A73B,
    0x3C6E_F372_FE94_F82B,
    0xA54F_F53A_5F1D_36F1,
    0x510E_527F_ADE6_82D1,
    0x9B05_688C_2B3E_6C1F,
    0x1F83_D9AB_FB41_BD6B,
    0x5BE0_CD19_137E_2179,
];

// One more than the largest word.
const WORD: u128 = 0x1_0000_0000_0000_0000;

/// The state after one more block: `t` is the number of bytes so far, this block's among them, and
/// `last` says that no block follows.
pub(crate) fn compress(h: [u64; 8], block: &[u8], t: u128, last: bool) -> [u64; 8]
    requires { length block.now ≡ BLOCK_BYTES }
    ensures { result ≡ F h (words block.now) t last }
{
    let v = all_rounds(start(h, t, last), load(block));
    [
        h[0] ^ v[0] ^ v[8],
        h[1] ^ v[1] ^ v[9],
        h[2] ^ v[2] ^ v[10],
        h[3] ^ v[3] ^ v[11],
        h[4] ^ v[4] ^ v[12],
        h[5] ^ v[5] ^ v[13],
        h[6] ^ v[6] ^ v[14],
        h[7] ^ v[7] ^ v[15],
    ]
}

#[inline(always)]
fn start(h: [u64; 8], t: u128, last: bool) -> [u64; 16]
    ensures { result ≡ local_words h t last }
{
    let low = (t % WORD) as u64;
    let high = (t / WORD % WORD) as u64;
    let flag = if last { u64::MAX } else { 0 };
    [
        h[0],
        h[1],
        h[2],
        h[3],
        h[4],
        h[5],
        h[6],
        h[7],
        INITIAL[0],
        INITIAL[1],
        INITIAL[2],
        INITIAL[3],
        INITIAL[4] ^ low,
        INITIAL[5] ^ high,
        INITIAL[6] ^ flag,
        INITIAL[7],
    ]
}

// The word that begins at byte `i`.
#[inline(always)]
fn load_word(block: &[u8], i: usize) -> u64
    requires { i + 8 ≤ length block.now }
    ensures { result ≡ word_at block.now i }
{
    u64::from_le_bytes([
        block[i],
        block[i + 1],
        block[i + 2],
        block[i + 3],
        block[i + 4],
        block[i + 5],
        block[i + 6],
        block[i + 7],
    ])
}

#[inline(always)]
#[tactic(auto, unfolding(crate::specs::Blake2b::words))]
fn load(block: &[u8]) -> [u64; 16]
    requires { length block.now ≡ BLOCK_BYTES }
    ensures { result ≡ words block.now }
{
    [
        load_word(block, 0),
        load_word(block, 8),
        load_word(block, 16),
        load_word(block, 24),
        load_word(block, 32),
        load_word(block, 40),
        load_word(block, 48),
        load_word(block, 56),
        load_word(block, 64),
        load_word(block, 72),
        load_word(block, 80),
        load_word(block, 88),
        load_word(block, 96),
        load_word(block, 104),
        load_word(block, 112),
        load_word(block, 120),
    ]
}

// The rounds are written out, so that each word of the block stands at a fixed place.
fn all_rounds(v: [u64; 16], m: [u64; 16]) -> [u64; 16]
    ensures { result ≡ rounds 12 v m }
{
    macro_rules! round_over {
        ($v:ident, $m:ident; $($k:literal)*) => {
            one_round($v, [$($m[$k]),*])
        };
    }
    let v = round_over!(v, m; 0 1 2 3 4 5 6 7 8 9 10 11 12 13 14 15);
    let v = round_over!(v, m; 14 10 4 8 9 15 13 6 1 12 0 2 11 7 5 3);
    let v = round_over!(v, m; 11 8 12 0 5 2 15 13 10 14 3 6 7 1 9 4);
    let v = round_over!(v, m; 7 9 3 1 13 12 11 14 2 6 5 10 4 0 15 8);
    let v = round_over!(v, m; 9 0 5 7 2 4 10 15 14 1 11 12 6 8 3 13);
    let v = round_over!(v, m; 2 12 6 10 0 11 8 3 4 13 7 5 15 14 1 9);
    let v = round_over!(v, m; 12 5 1 15 14 13 4 10 0 7 6 3 9 2 8 11);
    let v = round_over!(v, m; 13 11 7 14 12 1 3 9 5 0 15 4 8 6 2 10);
    let v = round_over!(v, m; 6 15 14 9 11 3 0 8 12 2 13 7 1 4 10 5);
    let v = round_over!(v, m; 10 2 8 4 7 6 1 5 15 11 9 14 3 12 13 0);
    let v = round_over!(v, m; 0 1 2 3 4 5 6 7 8 9 10 11 12 13 14 15);
    round_over!(v, m; 14 10 4 8 9 15 13 6 1 12 0 2 11 7 5 3)
}

// One round, with the words in their order of use.
#[inline(always)]
#[tactic(auto, unfolding(crate::specs::Blake2b::round))]
fn one_round(v: [u64; 16], x: [u64; 16]) -> [u64; 16]
    ensures { result ≡ round v x }
{
    let v = mix(v, 0, 4, 8, 12, x[0], x[1]);
    let v = mix(v, 1, 5, 9, 13, x[2], x[3]);
    let v = mix(v, 2, 6, 10, 14, x[4], x[5]);
    let v = mix(v, 3, 7, 11, 15, x[6], x[7]);
    let v = mix(v, 0, 5, 10, 15, x[8], x[9]);
    let v = mix(v, 1, 6, 11, 12, x[10], x[11]);
    let v = mix(v, 2, 7, 8, 13, x[12], x[13]);
    mix(v, 3, 4, 9, 14, x[14], x[15])
}

// The mixing function G (RFC 7693, section 3.1).
#[inline(always)]
#[tactic(auto, unfolding(crate::specs::Blake2b::G))]
fn mix(v: [u64; 16], a: usize, b: usize, c: usize, d: usize, x: u64, y: u64) -> [u64; 16]
    requires a { a < 16 }
    requires b { b < 16 }
    requires c { c < 16 }
    requires d { d < 16 }
    ensures { result ≡ G v a b c d x y }
{
    let mut v = v;
    v[a] = sum(v[a], v[b], x);
    v[d] = (v[d] ^ v[a]).rotate_right(32);
    v[c] = v[c].wrapping_add(v[d]);
    v[b] = (v[b] ^ v[c]).rotate_right(24);
    v[a] = sum(v[a], v[b], y);
    v[d] = (v[d] ^ v[a]).rotate_right(16);
    v[c] = v[c].wrapping_add(v[d]);
    v[b] = (v[b] ^ v[c]).rotate_right(63);
    v
}

#[inline(always)]
fn sum(a: u64, b: u64, x: u64) -> u64
    ensures { result ≡ (a + b + x) % 2 ^ 64 }
{
    a.wrapping_add(b).wrapping_add(x)
}
