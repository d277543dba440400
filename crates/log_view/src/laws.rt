//! Laws of what is laid over a content. Nothing runs.
ghost use Rattle.std.specs.Prelude.{◌≡◌, ℕ, List, Some, true, false};
ghost use Rattle.std.specs.List.{Contains};
ghost use Rattle.flat_tree.specs.Subtrees.{number};
ghost use Rattle.merkle_nodes.specs.declared.node.Node.{Node as NodeSeen};
ghost use Rattle.merkle_nodes.specs.declared.roots.Head.{Head as HeadSeen};
ghost use Rattle.merkle_nodes.specs.Roots.{twig_of};
ghost use Rattle.node_set.specs.Contents.{Content, held};
ghost use Rattle.node_set.specs.Closure.{in_closure};
ghost use Rattle.log_view.specs.Views.{ViewState, Keeps};
ghost use Rattle.log_view.specs.Overlays.{IsLaid, has_number, laid_over, view_over};

/// Of each node that is to be stored under the new head: a laid one has its own size and hash, and each other one was
/// to be stored below and keeps what it had there.
pub fn what_is_laid()
    ensures laid { (m : Content) → (head : HeadSeen) → (roots laid : List NodeSeen) → (kept : ℕ)
        → IsLaid m head roots kept laid → (depth offset : ℕ) → (node : NodeSeen)
        → in_closure head.length (held (laid_over m head kept laid)) depth offset ≡ true
        → Contains laid node → node.index ≡ number depth offset
        → (laid_over m head kept laid).node depth offset ≡ Some (twig_of node) }
    ensures below { (m : Content) → (head : HeadSeen) → (roots laid : List NodeSeen) → (kept : ℕ)
        → IsLaid m head roots kept laid → (depth offset : ℕ)
        → in_closure head.length (held (laid_over m head kept laid)) depth offset ≡ true
        → has_number laid (number depth offset) ≡ false
        → (in_closure m.length (held m) depth offset ≡ true)
        × ((laid_over m head kept laid).node depth offset ≡ m.node depth offset) }
{}

/// While calls keep the source of a view that is laid over another, they keep that of the other one, and the overlay
/// still has the same reference to it.
pub fn overlay_keeps_its_view()
    ensures { (name after kept still : ℕ) → (old new : ViewState) → (head other : HeadSeen)
        → (laid over : List NodeSeen)
        → Keeps (view_over name old head kept laid) (view_over after new other still over)
        → Keeps old new × (after ≡ name) }
{}
