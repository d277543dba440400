//! Laws of what a core's disk stands for. Nothing runs: each holds for every disk and every content.
ghost use Rattle.std.specs.Prelude.{◌≡◌, ◌↔◌, ◌+◌, ◌≤◌, ℕ, Bool, true, false, not, is_some, ◌&&◌, List, Some, length};
ghost use Rattle.disk_trait.specs.declared.disk.Area.TheVariants.{Oplog, Blocks as BlocksArea};
ghost use Rattle.commit_book.specs.declared.commit.Commit.{Commit};
ghost use Rattle.merkle_nodes.specs.declared.node.Node.{Node};
ghost use Rattle.merkle_nodes.specs.declared.node.Twig.{Twig};
ghost use Rattle.merkle_nodes.specs.Joined.{Values};
ghost use Rattle.oplog_form.specs.declared.entry.Entry.{Entry};
ghost use Rattle.oplog_form.specs.Headers.{header_spelling};
ghost use Rattle.oplog_form.specs.Entries.{EntryFits, entry_spelling};
ghost use Rattle.oplog_form.specs.Nodes.{Rise};
ghost use Rattle.oplog_file.specs.Files.{File, IsFile};
ghost use Rattle.oplog_file.specs.Writers.{with_entry, new_file};
ghost use Rattle.node_set.specs.Contents.{Content, start};
ghost use Rattle.node_set.specs.Closure.{is_root, is_within};
ghost use Rattle.node_set.specs.Changes.{append_content, truncate_content, clear_content, upgrade_content, fetch_content};
ghost use Rattle.node_set.specs.Legal.{KeepsHistory};
ghost use Rattle.node_set.specs.Whole.{IsSound, IsWhole};
ghost use Rattle.core_disk.specs.Opened.{Opened, entry_after};
ghost use Rattle.core_disk.specs.Following.{Follows, follows};
ghost use Rattle.core_disk.specs.Areas.{Areas, new_header};
ghost use Rattle.core_disk.specs.Standing.{IsOpenedAs, HasBlocks, StandsFor, LeavesRest};
ghost use Rattle.core_disk.specs.Written.{is_new, AreNew, entry_with, IsEntryOf};

/// Whether an entry follows, as a test and in words.
pub fn following_in_words()
    ensures { (o : Opened) → (e : Entry) → (follows o e ≡ true) ↔ Follows o e }
{}

/// Where a sound content was opened, the entry of a legal change follows, and gives the content after it.
pub fn an_entry_gives_the_next_content()
    ensures follows { (o : Opened) → (m : Content) → (commit : Commit) → (after : Content)
        → (e : Entry) → IsOpenedAs o m → IsSound m → KeepsHistory m after (Some commit)
        → IsSound after → IsEntryOf m commit after e → Follows o e }
    ensures gives { (o : Opened) → (m : Content) → (commit : Commit) → (after : Content)
        → (e : Entry) → IsOpenedAs o m → IsSound m → KeepsHistory m after (Some commit)
        → IsSound after → IsEntryOf m commit after e → IsOpenedAs (entry_after o e) after }
{}

/// Whatever else its areas have, a disk with the file of a new store stands for the content that was never changed.
pub fn a_new_store_stands()
    ensures { (accepts : List ℕ → List ℕ → Bool) → (id : List ℕ) → (areas : Areas)
        → length id ≡ 32 → IsFile (areas Oplog) (new_file (header_spelling (new_header id)))
        → StandsFor accepts id areas start }
{}

/// Where the areas stand for a content, they stand for the next one once the entry of a legal change is behind the others
/// and the held blocks stand at their offsets.
pub fn areas_stand_behind_an_entry()
    ensures { (accepts : List ℕ → List ℕ → Bool) → (id : List ℕ) → (areas now : Areas)
        → (m after : Content) → (commit : Commit) → (e : Entry) → (file : File)
        → StandsFor accepts id areas m → IsFile (areas Oplog) file
        → KeepsHistory m after (Some commit) → IsWhole accepts after → IsEntryOf m commit after e
        → EntryFits e → LeavesRest areas now
        → IsFile (now Oplog) (with_entry (entry_spelling e) file) → HasBlocks (now BlocksArea) after
        → StandsFor accepts id now after }
{}

/// The nodes that have to be written, in rising order, make the entry of a change.
pub fn new_nodes_make_an_entry()
    ensures { (m : Content) → (commit : Commit) → (after : Content) → (nodes : List Node)
        → Rise 0 nodes → AreNew m after nodes
        → IsEntryOf m commit after (entry_with commit after nodes) }
{}

/// An append writes all nodes that become full, a truncation the roots that weren't roots, a clearing nothing, an upgrade and
/// a fetched block the nodes that weren't stored.
pub fn each_change_writes()
    ensures append { (m : Content) → (more : List (List ℕ)) → (signature : List ℕ)
        → (depth offset : ℕ) → IsSound m → IsSound (append_content more signature m)
        → is_new m (append_content more signature m) depth offset
        ≡ (is_within (m.length + length more) depth offset && not (is_within m.length depth offset)) }
    ensures truncate { (m : Content) → (to fork : ℕ) → (signature : List ℕ)
        → (depth offset : ℕ) → IsSound (truncate_content to fork signature m)
        → is_new m (truncate_content to fork signature m) depth offset
        ≡ (is_root to depth offset && not (is_root m.length depth offset)) }
    ensures clear { (m : Content) → (from to depth offset : ℕ) → IsSound (clear_content from to m)
        → is_new m (clear_content from to m) depth offset ≡ false }
    ensures upgrade { (m : Content) → (to : ℕ) → (parts : List Twig) → (signature : List ℕ)
        → (depth offset : ℕ) → m.length ≤ to → IsSound m
        → IsSound (upgrade_content to parts signature m)
        → is_new m (upgrade_content to parts signature m) depth offset
        ≡ (is_some ((upgrade_content to parts signature m).node depth offset)
        && not (is_some (m.node depth offset))) }
    ensures fetch { (m : Content) → (index : ℕ) → (bytes : List ℕ) → (path : Values)
        → (depth offset : ℕ) → IsSound (fetch_content index bytes path m)
        → is_new m (fetch_content index bytes path m) depth offset
        ≡ (is_some ((fetch_content index bytes path m).node depth offset)
        && not (is_some (m.node depth offset))) }
{}
