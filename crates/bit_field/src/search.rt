//! The next place of words that is set, or that isn't.
ghost use Rattle.std.specs.Prelude.{◌≡◌, ℕ, ◌<◌, ◌≤◌, ◌+◌, ◌-◌, ◌*◌, ◌/◌, ◌^◌, length, not, if◌then◌else◌};
ghost use Rattle.bit_field.specs.Places.{Finds};
ghost use Rattle.bit_field.specs.Pages.{is_set};
ghost use Rattle.bit_field.specs.Words.{in_words};

/// The least of the places from..to that has the bit.
pub fn next_place(words: &[u64], from: u64, to: u64, bit: bool) -> Option<u64>
    requires ordered { from ≤ to }
    requires within { to ≤ 64 * length words.now }
    requires fits { 64 * length words.now < 2 ^ 64 }
    ensures { Finds bit from to (in_words words.now) result }
{
    let Some(place) = next_from(words, from, to.div_ceil(64) as usize, bit) else {
        return None;
    };
    if place < to { Some(place) } else { None }
}

// Of the places from `from` on of the words below `end`.
fn next_from(words: &[u64], from: u64, end: usize, bit: bool) -> Option<u64>
    requires ordered { from ≤ 64 * end }
    requires within { end ≤ length words.now }
    requires fits { 64 * length words.now < 2 ^ 64 }
    ensures { Finds bit from (64 * end) (in_words words.now) result }
{
    let first = (from / 64) as usize;
    if first == end {
        return None;
    }
    let rest = turned(words[first], bit) >> (from % 64);
    if rest != 0 {
        return Some(from + rest.trailing_zeros() as u64);
    }
    next_in_words(words, first + 1, end, bit)
}

// Of the words first..end.
fn next_in_words(words: &[u64], first: usize, end: usize, bit: bool) -> Option<u64>
    requires ordered { first ≤ end }
    requires within { end ≤ length words.now }
    requires fits { 64 * length words.now < 2 ^ 64 }
    ensures { Finds bit (64 * first) (64 * end) (in_words words.now) result }
{
    for at in first..end {
        let word = turned(words[at], bit);
        if word != 0 {
            return Some(64 * at as u64 + word.trailing_zeros() as u64);
        }
    }
    None
}

// The word whose set bits are those that have the bit.
fn turned(word: u64, bit: bool) -> u64
    ensures { (k : ℕ) → k < 64
        → is_set result k ≡ (if bit then is_set word k else not (is_set word k)) }
{
    if bit { word } else { !word }
}
