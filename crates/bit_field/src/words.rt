//! Places in words.
ghost use Rattle.std.specs.Prelude.{◌≡◌, ℕ, ◌<◌, ◌≤◌, ◌+◌, ◌*◌, ◌^◌, length};
ghost use Rattle.bit_field.specs.Places.{count_below};
ghost use Rattle.bit_field.specs.Words.{in_words};

/// Whether the words have the place.
#[tactic(auto, unfolding(crate::specs::Words::in_words))]
pub fn bit(words: &[u64], at: u64) -> bool
    requires within { at < 64 * length words.now }
    ensures { result ≡ in_words words.now at }
{
    let word = words[(at / 64) as usize];
    (word >> (at % 64)) & 1 == 1
}

/// How many places the words have.
pub fn count_places(words: &[u64]) -> u64
    requires fits { 64 * length words.now < 2 ^ 64 }
    ensures { result ≡ count_below (in_words words.now) (64 * length words.now) }
{
    let mut count = 0;
    for word in words {
        count += word.count_ones() as u64;
    }
    count
}
