//! Laws of contents. Nothing runs: each holds for every log and every content.
ghost use Rattle.std.specs.Prelude.{◌≡◌, ◌↔◌, ◌<◌, ◌≤◌, ◌+◌, ℕ, Bool, true, List, length};
ghost use Rattle.std.specs.List.{AllByRecursion, Contains};
ghost use Rattle.flat_tree.specs.Subtrees.{Subtree, subtree};
ghost use Rattle.flat_tree.specs.Covers.{cover_of};
ghost use Rattle.flat_tree.specs.declared.limits.TheConstants.{MAX_FORK};
ghost use Rattle.merkle_nodes.specs.declared.node.Twig.{Twig};
ghost use Rattle.node_set.specs.Contents.{Content, held, roots};
ghost use Rattle.node_set.specs.Closure.{in_closure, IsInClosure, in_cover};
ghost use Rattle.node_set.specs.Whole.{IsSound, IsWhole};
ghost use Rattle.node_set.specs.Evidence.{IsOf, OrClash, NodesAreOf, BlocksAreOf, OffsetsAreOf};
ghost use Rattle.node_set.specs.Changes.{append_content, truncate_content, clear_content, upgrade_content, AppendFits, IsSigned, RootsStored, UpgradeFits};

/// The closure as a test is the closure in words.
pub fn closure_in_words()
    ensures { (n : ℕ) → (held : ℕ → Bool) → (depth offset : ℕ)
        → (in_closure n held depth offset ≡ true) ↔ IsInClosure n held depth offset }
{}

/// A subtree is in the cover of a range exactly where it is within the range and none over it is.
pub fn cover_as_test()
    ensures { (from to depth offset : ℕ) → from ≤ to
        → Contains (cover_of from to) (subtree depth offset) ↔ (in_cover from to depth offset ≡ true) }
{}

/// Each node of a sound content of a log has the log's size and hash, or two different inputs of equal hash are in hand.
pub fn nodes_are_of_the_log()
    ensures { (m : Content) → (log : List (List ℕ)) → IsSound m → IsOf m log
        → OrClash (NodesAreOf m log) m log }
{}

/// Each held block is the log's, or two different inputs of equal hash are in hand.
pub fn blocks_are_of_the_log()
    ensures { (m : Content) → (log : List (List ℕ)) → IsSound m → IsOf m log
        → OrClash (BlocksAreOf m log) m log }
{}

/// Each held block stands at the sum of the sizes before it, or two different inputs of equal hash are in hand.
pub fn offsets_are_of_the_log()
    ensures { (m : Content) → (log : List (List ℕ)) → IsSound m → IsOf m log
        → OrClash (OffsetsAreOf m log) m log }
{}

/// A whole content stays whole under an append within the limits whose new head is accepted.
pub fn append_stays_whole()
    ensures sound { (m : Content) → (more : List (List ℕ)) → (signature : List ℕ) → IsSound m
        → AppendFits more m → IsSound (append_content more signature m) }
    ensures whole { (accepts : List ℕ → List ℕ → Bool) → (m : Content) → (more : List (List ℕ))
        → (signature : List ℕ) → IsWhole accepts m → AppendFits more m
        → IsSigned accepts (append_content more signature m)
        → IsWhole accepts (append_content more signature m) }
{}

/// A whole content stays whole under a truncation to a length whose roots are stored and whose new head is accepted.
pub fn truncate_stays_whole()
    ensures sound { (m : Content) → (to fork : ℕ) → (signature : List ℕ) → IsSound m
        → to ≤ m.length → RootsStored to m → IsSound (truncate_content to fork signature m) }
    ensures whole { (accepts : List ℕ → List ℕ → Bool) → (m : Content) → (to fork : ℕ)
        → (signature : List ℕ) → IsWhole accepts m → to ≤ m.length → fork ≤ MAX_FORK
        → RootsStored to m → IsSigned accepts (truncate_content to fork signature m)
        → IsWhole accepts (truncate_content to fork signature m) }
{}

/// A whole content stays whole under a clearing, and its roots stay.
pub fn clear_stays_whole()
    ensures roots { (m : Content) → (from to : ℕ) → IsSound m
        → roots (clear_content from to m) ≡ roots m }
    ensures sound { (m : Content) → (from to : ℕ) → IsSound m → IsSound (clear_content from to m) }
    ensures whole { (accepts : List ℕ → List ℕ → Bool) → (m : Content) → (from to : ℕ)
        → IsWhole accepts m → IsWhole accepts (clear_content from to m) }
{}

/// A whole content stays whole under an upgrade to a longer log: a value for each subtree of the new
/// part's cover, within the limits, under a new head that is accepted.
pub fn upgrade_stays_whole()
    ensures sound { (m : Content) → (to : ℕ) → (parts : List Twig) → (signature : List ℕ)
        → IsSound m → UpgradeFits to parts m → IsSound (upgrade_content to parts signature m) }
    ensures whole { (accepts : List ℕ → List ℕ → Bool) → (m : Content) → (to : ℕ)
        → (parts : List Twig) → (signature : List ℕ) → IsWhole accepts m → UpgradeFits to parts m
        → IsSigned accepts (upgrade_content to parts signature m)
        → IsWhole accepts (upgrade_content to parts signature m) }
{}
