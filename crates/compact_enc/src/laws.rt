//! Laws of all spellings.
ghost use Rattle.std.specs.Prelude.{◌≡◌, ◌<◌, ◌^◌, ℕ, List, ◌++◌, length};
ghost use Rattle.compact_enc.specs.Spelling.{uint_spelling, buffer_spelling};

/// A number below 2^64 has one spelling, each spelling has one number, and no spelling begins another: whatever follows
/// two of them, equal bytes have equal numbers in front.
pub fn one_spelling_of_a_number()
    ensures { (m n : ℕ) → (x y : List ℕ) → m < 2 ^ 64 → n < 2 ^ 64
        → uint_spelling m ++ x ≡ uint_spelling n ++ y → (m ≡ n) × (x ≡ y) }
{}

/// The same of buffers of fewer than 2^64 bytes.
pub fn one_spelling_of_a_buffer()
    ensures { (a b x y : List ℕ) → length a < 2 ^ 64 → length b < 2 ^ 64
        → buffer_spelling a ++ x ≡ buffer_spelling b ++ y → (a ≡ b) × (x ≡ y) }
{}
