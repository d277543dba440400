//! Laws of all headers and entries.
ghost use Rattle.std.specs.Prelude.{◌≡◌, ◌≤◌, List, ℕ, ◌++◌, length};
ghost use Rattle.oplog_form.specs.declared.header.Header.{Header};
ghost use Rattle.oplog_form.specs.declared.header.TheConstants.{MAX_HEADER_BYTES};
ghost use Rattle.oplog_form.specs.declared.entry.Entry.{Entry};
ghost use Rattle.oplog_form.specs.declared.entry.TheConstants.{MAX_ENTRY_BYTES, MAX_ENTRY_NODES};
ghost use Rattle.oplog_form.specs.Headers.{HeaderFits, header_spelling};
ghost use Rattle.oplog_form.specs.Entries.{EntryFits, entry_spelling};

/// A header has one spelling, each spelling has one header, and no spelling begins another: whatever follows two of
/// them, equal bytes have equal headers in front.
pub fn one_spelling_of_a_header()
    ensures { (a b : Header) → (x y : List ℕ) → HeaderFits a → HeaderFits b
        → header_spelling a ++ x ≡ header_spelling b ++ y → (a ≡ b) × (x ≡ y) }
{}

/// The same of entries.
pub fn one_spelling_of_an_entry()
    ensures { (a b : Entry) → (x y : List ℕ) → EntryFits a → EntryFits b
        → entry_spelling a ++ x ≡ entry_spelling b ++ y → (a ≡ b) × (x ≡ y) }
{}

/// Each header finds room in its frame, and so does each entry that has no more records than a commit makes.
pub fn payloads_find_room()
    ensures header { (header : Header) → HeaderFits header
        → length (header_spelling header) ≤ MAX_HEADER_BYTES }
    ensures entry { (entry : Entry) → EntryFits entry
        → length entry.records ≤ MAX_ENTRY_NODES
        → length (entry_spelling entry) ≤ MAX_ENTRY_BYTES }
{}
