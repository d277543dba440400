//! Laws of changes. Nothing runs: each holds for every content.
ghost use Rattle.std.specs.Prelude.{◌≡◌, ◌<◌, ◌≤◌, ◌+◌, ℕ, true, false, List, [], length, Option, Some};
ghost use Rattle.std.specs.List.Sorted.{IsPermutation, IsNonDecreasingBy};
ghost use Rattle.flat_tree.specs.declared.limits.TheConstants.{MAX_BLOCKS, MAX_FORK};
ghost use Rattle.commit_book.specs.declared.commit.Commit.{Commit as CommitSeen};
ghost use Rattle.commit_book.specs.declared.commit.Commit.TheVariants.{Append, Truncate, Fetch, Upgrade, UpgradeFetch, Reorg, ReorgFetch};
ghost use Rattle.merkle_nodes.specs.declared.node.Node.{Node as NodeSeen};
ghost use Rattle.merkle_nodes.specs.declared.node.Twig.{Twig as TwigSeen};
ghost use Rattle.merkle_batch.specs.Batch.{BatchView, HasBlocks};
ghost use Rattle.node_set.specs.Contents.{Content, Values, held, roots};
ghost use Rattle.node_set.specs.Changes.{append_content, truncate_content, clear_content, upgrade_content, fetch_content};
ghost use Rattle.node_set.specs.Legal.{KeepsHistory};
ghost use Rattle.node_set.specs.Whole.{IsClosed, IsSound};
ghost use Rattle.core_forks.specs.Reorganise.{kept_of, reorganise_content};
ghost use Rattle.core_forks.specs.Truncations.{ClearsWhere};
ghost use Rattle.log_change.specs.declared.change.LogChange.{LogChange as LogChangeSeen};
ghost use Rattle.log_change.specs.LogChange.{AreFresh, Ascend, IsChange, content_after};

/// A content in which a node is stored exactly in the closure, and every node either stays or comes in with a change,
/// is what the change leads to.
pub fn a_change_leads_to_its_content()
    ensures { (m after : Content) → (commit : Option CommitSeen) → (come : List (List ℕ))
        → (fresh : List NodeSeen) → (change : LogChangeSeen)
        → IsClosed after.length after.block after.node → IsChange m after commit come fresh change
        → content_after change come fresh m ≡ after }
{}

/// The nodes of a batch, sorted by their numbers as an entry has them, ascend, and are those that come in with its append.
pub fn a_batch_in_order()
    ensures { (m : Content) → (more : List (List ℕ)) → (signature : List ℕ) → (batch : BatchView)
        → (records : List NodeSeen) → IsSound m → m.length + length more ≤ MAX_BLOCKS
        → batch.base ≡ m.length → HasBlocks m.node more batch → IsPermutation batch.nodes records
        → IsNonDecreasingBy (λ (node : NodeSeen). node.index) records
        → Ascend records × AreFresh m (append_content more signature m) records }
{}

/// An append of one block at least is a legal step of the history.
pub fn append_is_legal()
    ensures { (m : Content) → (more : List (List ℕ)) → (signature : List ℕ)
        → ((index : ℕ) → held m index ≡ true → index < m.length) → 1 ≤ length more
        → m.length + length more ≤ MAX_BLOCKS
        → KeepsHistory m (append_content more signature m) (Some (Append (length more))) }
{}

/// So is a truncation under a greater fork.
pub fn truncate_is_legal()
    ensures { (m : Content) → (to fork : ℕ) → (signature : List ℕ) → to ≤ m.length
        → m.fork < fork → fork ≤ MAX_FORK
        → KeepsHistory m (truncate_content to fork signature m) (Some (Truncate to fork)) }
{}

/// So is a clearing, of which there is a commit exactly where one of the blocks is held.
pub fn clear_is_legal()
    ensures { (m : Content) → (from to : ℕ) → (commit : Option CommitSeen) → from ≤ to
        → to ≤ m.length → ClearsWhere from to m commit
        → KeepsHistory m (clear_content from to m) commit }
{}

/// So is another log under a greater fork.
pub fn reorganise_is_legal()
    ensures { (m : Content) → (fork to : ℕ) → (nodes : List TwigSeen) → (signature : List ℕ)
        → IsClosed m.length m.block m.node → m.fork < fork → fork ≤ MAX_FORK → to ≤ MAX_BLOCKS
        → KeepsHistory m (reorganise_content fork to nodes signature m)
        (Some (Reorg fork to (kept_of m to nodes))) }
{}

/// So is an upgrade to a longer log.
pub fn upgrade_is_legal()
    ensures { (m : Content) → (to : ℕ) → (parts : List TwigSeen) → (signature : List ℕ)
        → m.length < to → to ≤ MAX_BLOCKS
        → KeepsHistory m (upgrade_content to parts signature m) (Some (Upgrade to)) }
{}

/// So is a block that comes in where it wasn't held: alone, where the roots stay, or after an upgrade or another log.
pub fn fetch_is_legal()
    ensures alone { (m : Content) → (index : ℕ) → (bytes : List ℕ) → (path : Values)
        → index < m.length → held m index ≡ false
        → roots (fetch_content index bytes path m) ≡ roots m
        → KeepsHistory m (fetch_content index bytes path m) (Some (Fetch index)) }
    ensures upgrade { (m : Content) → (to : ℕ) → (parts : List TwigSeen) → (signature : List ℕ)
        → (index : ℕ) → (bytes : List ℕ) → (path : Values) → m.length < to → to ≤ MAX_BLOCKS
        → index < to → held m index ≡ false
        → KeepsHistory m (fetch_content index bytes path (upgrade_content to parts signature m))
        (Some (UpgradeFetch to index)) }
    ensures reorganise { (m : Content) → (fork to : ℕ) → (nodes : List TwigSeen)
        → (signature : List ℕ) → (index : ℕ) → (bytes : List ℕ) → (path : Values)
        → IsClosed m.length m.block m.node → m.fork < fork → fork ≤ MAX_FORK → to ≤ MAX_BLOCKS
        → index < to → held (reorganise_content fork to nodes signature m) index ≡ false
        → KeepsHistory m
        (fetch_content index bytes path (reorganise_content fork to nodes signature m))
        (Some (ReorgFetch fork to (kept_of m to nodes) index)) }
{}
