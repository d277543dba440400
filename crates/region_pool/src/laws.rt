//! What a legal history means.
ghost use Rattle.std.specs.Prelude.{ℕ, List, ◌++◌, ◌∷◌, []};
ghost use Rattle.region_pool.specs.declared.event.Event.{Event};
ghost use Rattle.region_pool.specs.declared.event.Event.TheVariants.{Took, Gave};
ghost use Rattle.region_pool.specs.History.{none_held, IsLegal, IsHeld, IsAmong};

/// No place is held twice: in a legal history a place that was taken is given before it is taken again, and a place
/// that is held is not taken.
pub fn held_once()
    ensures given { (before between : List Event) (place : ℕ)
        → IsLegal none_held (before ++ (Took place ∷ (between ++ Took place ∷ [])))
        → IsAmong (Gave place) between }
    ensures free { (before : List Event) (place : ℕ)
        → IsLegal none_held (before ++ Took place ∷ []) → ¬ IsHeld before place }
{}
