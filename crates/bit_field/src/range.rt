//! Places of words that are set or unset.
ghost use Rattle.std.specs.Prelude.{◌≡◌, ℕ, ◌<◌, ◌≤◌, ◌+◌, ◌-◌, ◌*◌, ◌/◌, ◌^◌, length, if◌then◌else◌};
ghost use Rattle.bit_field.specs.Places.{is_in, SetsRange};
ghost use Rattle.bit_field.specs.Pages.{is_set};
ghost use Rattle.bit_field.specs.Words.{in_words};

/// Gives the places from..to a bit.
pub fn set_places(words: &mut [u64], from: u64, to: u64, bit: bool)
    requires ordered { from ≤ to }
    requires within { to ≤ 64 * length words.old }
    ensures { SetsRange bit from to (in_words words.old) (in_words words.new) }
{
    let first = from.div_ceil(64);
    let last = to / 64;
    if last < first {
        set_part(words, from, to, bit);
        return;
    }
    set_part(words, from, 64 * first, bit);
    set_words(words, first as usize, last as usize, bit);
    set_part(words, 64 * last, to, bit);
}

// The places are those of whole words.
fn set_words(words: &mut [u64], first: usize, last: usize, bit: bool)
    requires ordered { first ≤ last }
    requires within { last ≤ length words.old }
    ensures { SetsRange bit (64 * first) (64 * last) (in_words words.old) (in_words words.new) }
{
    words[first..last].fill(whole(bit));
}

// The word whose bits are all set, or all unset.
fn whole(bit: bool) -> u64
    ensures { (k : ℕ) → k < 64 → is_set result k ≡ bit }
{
    if bit { u64::MAX } else { 0 }
}

// The places are those of one word, or none.
fn set_part(words: &mut [u64], from: u64, to: u64, bit: bool)
    requires ordered { from ≤ to }
    requires one { to ≤ 64 * (from / 64 + 1) }
    requires within { to ≤ 64 * length words.old }
    ensures { SetsRange bit from to (in_words words.old) (in_words words.new) }
{
    if from == to {
        return;
    }
    let at = (from / 64) as usize;
    words[at] = set_bits(words[at], from % 64, to - from, bit);
}

// The word with so many bits from a first one on set or unset.
fn set_bits(word: u64, first: u64, count: u64, bit: bool) -> u64
    requires some { 0 < count }
    requires within { first + count ≤ 64 }
    ensures { (k : ℕ) → k < 64
        → is_set result k ≡ (if is_in first (first + count) k then bit else is_set word k) }
{
    let mask = mask(first, count);
    if bit { word | mask } else { word & !mask }
}

// So many ones from a first bit on.
fn mask(first: u64, count: u64) -> u64
    requires some { 0 < count }
    requires within { first + count ≤ 64 }
    ensures { result ≡ 2 ^ (first + count) - 2 ^ first }
{
    (u64::MAX >> (64 - count)) << first
}
