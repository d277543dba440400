//! Laws of the content that a core's disk has. Nothing runs: each holds for every area and all that was opened.
ghost use Rattle.std.specs.Prelude.{◌≡◌, ◌↔◌, ◌<◌, ℕ, Bool, true, List, Some};
ghost use Rattle.commit_book.specs.History.{entry_of, KeepsRoot};
ghost use Rattle.merkle_nodes.specs.Roots.{root_hash_of};
ghost use Rattle.oplog_form.specs.declared.entry.Entry.{Entry};
ghost use Rattle.node_set.specs.Contents.{Content};
ghost use Rattle.node_set.specs.Legal.{KeepsHistory};
ghost use Rattle.node_set.specs.Whole.{IsSound, KeepsLimits, IsWhole};
ghost use Rattle.core_disk.specs.Opened.{Opened, short_of, entry_after};
ghost use Rattle.core_disk.specs.Following.{follows};
ghost use Rattle.core_disk.specs.Standing.{IsOpenedAs, HasBlocks};
ghost use Rattle.core_disk.specs.Laid.{content_in, IsRooted};
ghost use Rattle.core_disk.specs.Testing.{IsBounded, is_kept, is_whole, has_blocks};

/// What was opened as a sound content, with the area where its held blocks stand, is this content. Where each root is among
/// the nodes, it was opened as the content that it has.
pub fn what_is_laid_is_the_content()
    ensures content { (area : List ℕ) → (o : Opened) → (m : Content) → IsOpenedAs o m → IsSound m
        → HasBlocks area m → content_in area o ≡ m }
    ensures opened { (area : List ℕ) → (o : Opened) → IsRooted o → IsOpenedAs o (content_in area o) }
{}

/// An entry that follows leaves each root among the nodes, where it was so before. It is a legal step from one content to the
/// next whatever the blocks area has, if a clearing or a fetched block keeps the root hash.
pub fn an_entry_that_follows_is_legal()
    ensures rooted { (o : Opened) → (e : Entry) → follows o e ≡ true → IsRooted o
        → IsRooted (entry_after o e) }
    ensures legal { (area now : List ℕ) → (o : Opened) → (e : Entry) → follows o e ≡ true → IsRooted o
        → KeepsRoot (entry_of e.commit (root_hash_of (entry_after o e).roots)) (short_of o)
        → KeepsHistory (content_in area o) (content_in now (entry_after o e)) (Some e.commit) }
{}

/// Whether a content within its bounds is whole, and whether an area has its held blocks, as tests and in words. What was
/// opened with no held block past its length has a content within its bounds.
pub fn wholeness_in_words()
    ensures kept { (m : Content) → IsBounded m → (is_kept m ≡ true) ↔ (IsSound m × KeepsLimits m) }
    ensures whole { (accepts : List ℕ → List ℕ → Bool) → (m : Content) → IsBounded m
        → (is_whole accepts m ≡ true) ↔ IsWhole accepts m }
    ensures blocks { (area : List ℕ) → (m : Content) → IsBounded m
        → (has_blocks area m ≡ true) ↔ HasBlocks area m }
    ensures bounded { (area : List ℕ) → (o : Opened)
        → ((index : ℕ) → o.held index ≡ true → index < o.head.length) → IsBounded (content_in area o) }
{}
