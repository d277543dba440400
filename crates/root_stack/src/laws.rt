//! Laws of what is made, and of values that are joined from twigs. Nothing runs.
ghost use Rattle.std.specs.Prelude.{◌≡◌, ◌↔◌, ◌≤◌, ◌++◌, ℕ, List, length};
ghost use Rattle.std.specs.List.{Contains};
ghost use Rattle.flat_tree.specs.Subtrees.{Subtree, subtree, Tile};
ghost use Rattle.flat_tree.specs.Roots.{full_roots_of};
ghost use Rattle.flat_tree.specs.Covers.{cover_of};
ghost use Rattle.flat_tree.specs.declared.limits.TheConstants.{MAX_BLOCKS};
ghost use Rattle.merkle_nodes.specs.declared.node.Node.{Node as NodeSeen};
ghost use Rattle.merkle_nodes.specs.declared.node.Twig.{Twig as TwigSeen};
ghost use Rattle.merkle_nodes.specs.Joined.{Values, joined, with_parts};
ghost use Rattle.merkle_nodes.specs.Nodes.{AreNodes};
ghost use Rattle.root_stack.specs.Made.{EndsWithOne, IsMade, made_by};
ghost use Rattle.root_stack.specs.Stack.{AreJoined};

/// Which subtrees become full with those that tile `from..to`: the ones that end with one of these and are no smaller.
/// Among them are all that end in `from..to` and whose parent isn't within it, as each full root of `to` blocks that
/// ends past `from`, and both halves of each subtree that begins before `from` where they end past it. With a cover
/// these are all.
pub fn what_becomes_full()
    ensures exact { (trees : List Subtree) → (from to depth offset : ℕ) → Tile trees from to
        → to ≤ MAX_BLOCKS → Contains (made_by trees) (subtree depth offset)
        ↔ EndsWithOne trees depth offset }
    ensures tiling { (trees : List Subtree) → (from to depth offset : ℕ) → Tile trees from to
        → to ≤ MAX_BLOCKS → IsMade from to depth offset
        → Contains (made_by trees) (subtree depth offset) }
    ensures cover { (from to depth offset : ℕ) → from ≤ to → to ≤ MAX_BLOCKS
        → Contains (made_by (cover_of from to)) (subtree depth offset)
        ↔ IsMade from to depth offset }
{}

/// Values that are joined behind a log of `from` blocks from the twigs of subtrees that tile `from..to`, as those of an
/// upgrade's cover or of two covers one behind the other: they are the twigs at these and join wherever a subtree becomes
/// full with them, and the log's roots keep theirs. What is so of two lists one behind the other is so of each.
pub fn twigs_are_joined()
    ensures joined { (known : Values) → (from to : ℕ) → (trees : List Subtree) → (twigs : List TwigSeen)
        → Tile trees from to → length twigs ≡ length trees
        → AreJoined (joined (with_parts from known trees twigs)) trees twigs }
    ensures roots { (known : Values) → (from to : ℕ) → (trees : List Subtree) → (twigs : List TwigSeen)
        → Tile trees from to → length twigs ≡ length trees → (roots : List NodeSeen)
        → AreNodes known (full_roots_of from) roots
        → AreNodes (joined (with_parts from known trees twigs)) (full_roots_of from) roots }
    ensures two { (values : Values) → (low high : List Subtree) → (low_twigs high_twigs : List TwigSeen)
        → length low_twigs ≡ length low → AreJoined values (low ++ high) (low_twigs ++ high_twigs)
        → AreJoined values low low_twigs × AreJoined values high high_twigs }
{}
