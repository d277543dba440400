//! The law of what a change writes. Nothing runs: it holds for every content and every change.
ghost use Rattle.std.specs.Prelude.{◌≡◌, ◌≤◌, ℕ, Bool, List, [], Some, None, length};
ghost use Rattle.commit_book.specs.declared.commit.Commit.{Commit};
ghost use Rattle.commit_book.specs.declared.commit.Commit.TheVariants.{Append, Truncate, Clear};
ghost use Rattle.commit_book.specs.History.{HoldsSome};
ghost use Rattle.oplog_form.specs.declared.entry.Entry.{Entry};
ghost use Rattle.oplog_form.specs.Entries.{EntryFits};
ghost use Rattle.proof_form.specs.Proofs.{Proof, ProofFits};
ghost use Rattle.node_set.specs.Contents.{Content, summary_of};
ghost use Rattle.node_set.specs.Changes.{append_content, truncate_content, clear_content, AppendFits, IsSigned};
ghost use Rattle.node_set.specs.Whole.{IsWhole};
ghost use Rattle.core_forks.specs.Refusals.{truncate_refusal};
ghost use Rattle.proof_check.specs.Judge.{refusal_of, admitted, commit_of};
ghost use Rattle.core_disk.specs.Written.{entry_with, IsEntryOf};
ghost use Rattle.core_disk.specs.Plans.{Plans, behind, brought_by};

/// Each change of a whole content that isn't refused, and whose head is accepted, goes to the disk by any entry of it that
/// fits, with the bytes of the blocks that come in; so far an admission under the own fork.
pub fn each_change_is_planned()
    ensures append { (accepts : List ℕ → List ℕ → Bool) → (m : Content) → (more : List (List ℕ))
        → (signature : List ℕ) → (e : Entry) → IsWhole accepts m → 1 ≤ length more
        → AppendFits more m → IsSigned accepts (append_content more signature m)
        → IsEntryOf m (Append (length more)) (append_content more signature m) e → EntryFits e
        → Plans accepts m (Append (length more)) (append_content more signature m) e
        (Some (behind more m)) }
    ensures truncate { (accepts : List ℕ → List ℕ → Bool) → (m : Content) → (to fork : ℕ)
        → (signature : List ℕ) → (e : Entry) → IsWhole accepts m → truncate_refusal m to fork ≡ None
        → IsSigned accepts (truncate_content to fork signature m)
        → IsEntryOf m (Truncate to fork) (truncate_content to fork signature m) e → EntryFits e
        → Plans accepts m (Truncate to fork) (truncate_content to fork signature m) e None }
    ensures clear { (accepts : List ℕ → List ℕ → Bool) → (m : Content) → (from to : ℕ)
        → IsWhole accepts m → from ≤ to → to ≤ m.length → HoldsSome from to (summary_of m)
        → Plans accepts m (Clear from to) (clear_content from to m)
        (entry_with (Clear from to) (clear_content from to m) []) None }
    ensures admit { (accepts : List ℕ → List ℕ → Bool) → (p : Proof) → (m : Content)
        → (commit : Commit) → (e : Entry) → IsWhole accepts m → ProofFits p → p.fork ≤ m.fork
        → refusal_of accepts p m ≡ None → commit_of p m ≡ Some commit
        → IsEntryOf m commit (admitted p m) e → EntryFits e
        → Plans accepts m commit (admitted p m) e (brought_by p m) }
{}
