//! Laws of where held blocks stand in their area. Nothing runs: each holds for every area and every content.
ghost use Rattle.std.specs.Prelude.{◌≡◌, ◌+◌, ◌<◌, ◌≤◌, ℕ, true, false, List, Some, length, take};
ghost use Rattle.std.specs.List.{concat};
ghost use Rattle.disk_trait.specs.Disk.{overlay, Torn};
ghost use Rattle.merkle_nodes.specs.declared.node.Twig.{Twig};
ghost use Rattle.merkle_nodes.specs.Joined.{Values};
ghost use Rattle.node_set.specs.Contents.{Content, held, roots, roots_at, bytes_under};
ghost use Rattle.node_set.specs.Evidence.{bytes_of};
ghost use Rattle.node_set.specs.Offsets.{offset_of};
ghost use Rattle.node_set.specs.Changes.{append_content, truncate_content, clear_content, upgrade_content, fetch_content};
ghost use Rattle.node_set.specs.Whole.{IsSound};
ghost use Rattle.core_forks.specs.Reorganise.{reorganise_content};
ghost use Rattle.core_disk.specs.Standing.{HasBlocks};

/// Each block below the length has as its offset the bytes of the full roots of its index. Held blocks stand apart, in their
/// order, and none ends past the log's bytes.
pub fn held_blocks_stand_apart()
    ensures sum { (m : Content) → (index : ℕ) → index < m.length
        → offset_of m index ≡ bytes_under (roots_at m.node index) }
    ensures before { (m : Content) → (index later : ℕ) → (bytes : List ℕ) → IsSound m
        → m.block index ≡ Some bytes → index < later → later < m.length
        → offset_of m index + length bytes ≤ offset_of m later }
    ensures within { (m : Content) → (index : ℕ) → (bytes : List ℕ) → IsSound m
        → m.block index ≡ Some bytes → offset_of m index + length bytes ≤ bytes_under (roots m) }
{}

/// A block that is held before and after a change keeps its offset, and the blocks of an append stand one after the other
/// behind the log's bytes.
pub fn offsets_stay_under_each_change()
    ensures append { (m : Content) → (more : List (List ℕ)) → (signature : List ℕ) → (index : ℕ)
        → IsSound m → held m index ≡ true
        → offset_of (append_content more signature m) index ≡ offset_of m index }
    ensures appended { (m : Content) → (more : List (List ℕ)) → (signature : List ℕ) → (place : ℕ)
        → IsSound m → IsSound (append_content more signature m) → place < length more
        → offset_of (append_content more signature m) (m.length + place)
        ≡ bytes_under (roots m) + bytes_of (take place more) }
    ensures truncate { (m : Content) → (to fork : ℕ) → (signature : List ℕ) → (index : ℕ)
        → IsSound m → held (truncate_content to fork signature m) index ≡ true
        → offset_of (truncate_content to fork signature m) index ≡ offset_of m index }
    ensures clear { (m : Content) → (from to index : ℕ) → IsSound m
        → held (clear_content from to m) index ≡ true
        → offset_of (clear_content from to m) index ≡ offset_of m index }
    ensures upgrade { (m : Content) → (to : ℕ) → (parts : List Twig) → (signature : List ℕ)
        → (index : ℕ) → IsSound m → m.length ≤ to → held m index ≡ true
        → offset_of (upgrade_content to parts signature m) index ≡ offset_of m index }
    ensures fetch { (m : Content) → (index : ℕ) → (bytes : List ℕ) → (path : Values)
        → (other : ℕ) → IsSound m → held m other ≡ true
        → offset_of (fetch_content index bytes path m) other ≡ offset_of m other }
    ensures reorganise { (m : Content) → (fork to : ℕ) → (twigs : List Twig) → (signature : List ℕ)
        → (index : ℕ) → IsSound m → held (reorganise_content fork to twigs signature m) index ≡ true
        → offset_of (reorganise_content fork to twigs signature m) index ≡ offset_of m index }
{}

/// Where the held blocks stand at their offsets, those held after a change do: in the same area, or, after an append or a
/// fetched block, in the area with the blocks' bytes at their place.
pub fn blocks_stand_after_each_change()
    ensures append { (m : Content) → (more : List (List ℕ)) → (signature area : List ℕ)
        → IsSound m → IsSound (append_content more signature m) → HasBlocks area m
        → HasBlocks (overlay (bytes_under (roots m)) (concat more) area)
        (append_content more signature m) }
    ensures truncate { (m : Content) → (to fork : ℕ) → (signature area : List ℕ) → IsSound m
        → HasBlocks area m → HasBlocks area (truncate_content to fork signature m) }
    ensures clear { (m : Content) → (from to : ℕ) → (area : List ℕ) → IsSound m
        → HasBlocks area m → HasBlocks area (clear_content from to m) }
    ensures upgrade { (m : Content) → (to : ℕ) → (parts : List Twig) → (signature area : List ℕ)
        → IsSound m → m.length ≤ to → HasBlocks area m
        → HasBlocks area (upgrade_content to parts signature m) }
    ensures fetch { (m : Content) → (index : ℕ) → (bytes : List ℕ) → (path : Values)
        → (area : List ℕ) → IsSound m → IsSound (fetch_content index bytes path m)
        → HasBlocks area m
        → HasBlocks
        (overlay (offset_of (fetch_content index bytes path m) index) bytes area)
        (fetch_content index bytes path m) }
    ensures reorganise { (m : Content) → (fork to : ℕ) → (twigs : List Twig)
        → (signature area : List ℕ) → IsSound m → HasBlocks area m
        → HasBlocks area (reorganise_content fork to twigs signature m) }
{}

/// A write of new blocks' bytes that was cut short leaves the blocks that are held: behind the log's bytes stands none, nor
/// in the place of a block that isn't held.
pub fn a_torn_write_leaves_held_blocks()
    ensures append { (m : Content) → (n : ℕ) → (area now : List ℕ) → IsSound m → HasBlocks area m
        → Torn (bytes_under (roots m)) n area now → HasBlocks now m }
    ensures fetch { (m : Content) → (index : ℕ) → (bytes : List ℕ) → (path : Values)
        → (area now : List ℕ) → IsSound m → IsSound (fetch_content index bytes path m)
        → held m index ≡ false → HasBlocks area m
        → Torn (offset_of (fetch_content index bytes path m) index) (length bytes) area now
        → HasBlocks now m }
    ensures upgrade_fetch { (m : Content) → (to : ℕ) → (parts : List Twig) → (signature : List ℕ)
        → (index : ℕ) → (bytes : List ℕ) → (path : Values) → (area now : List ℕ) → IsSound m
        → m.length ≤ to → IsSound (upgrade_content to parts signature m)
        → IsSound (fetch_content index bytes path (upgrade_content to parts signature m))
        → held m index ≡ false → HasBlocks area m
        → Torn
        (offset_of (fetch_content index bytes path (upgrade_content to parts signature m)) index)
        (length bytes) area now
        → HasBlocks now m }
{}
