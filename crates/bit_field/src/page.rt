//! Places of words as bytes.
ghost use Rattle.std.specs.Prelude.{◌≡◌, ℕ, ◌<◌, ◌≤◌, ◌+◌, ◌*◌, ◌%◌, length, replicate};
ghost use Rattle.bit_field.specs.Pages.{bytes_from, page_of};
ghost use Rattle.bit_field.specs.Words.{in_words};

/// The bytes of a page.
pub const PAGE_BYTES: usize = 4_096;
/// The places of a page.
pub const PAGE_PLACES: u64 = 8 * PAGE_BYTES as u64;
/// The words of a page.
pub const PAGE_WORDS: usize = PAGE_BYTES / 8;

/// Writes the bytes of a page, which past the words are zeros.
pub fn put_page(words: &[u64], number: u64, out: &mut [u8])
    requires pages { length words.now % PAGE_WORDS ≡ 0 }
    requires whole { length out.old ≡ PAGE_BYTES }
    ensures { out.new ≡ page_of (in_words words.now) number }
{
    if number < (words.len() / PAGE_WORDS) as u64 {
        put_words(words, number as usize * PAGE_WORDS, PAGE_WORDS, out);
    } else {
        out.fill(0);
    }
}

// Writes the bytes of so many words from `first` on.
fn put_words(words: &[u64], first: usize, count: usize, out: &mut [u8])
    requires within { first + count ≤ length words.now }
    requires whole { length out.old ≡ 8 * count }
    ensures { out.new ≡ bytes_from (8 * count) (in_words words.now) (64 * first) }
{
    for at in 0..count {
        let bytes = words[first + at].to_le_bytes();
        out[8 * at..8 * at + 8].copy_from_slice(&bytes);
    }
}
