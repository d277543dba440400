//! What a whole fetch asks for.
ghost use Rattle.std.specs.Prelude.{◌≡◌, ◌≤◌, ◌++◌, ℕ, Bool, List, length};
ghost use Rattle.fetch_plan.specs.declared.in_flight.TheConstants.{MAX_IN_FLIGHT};
ghost use Rattle.fetch_plan.specs.declared.plan.Look.TheVariants.{Done};
ghost use Rattle.fetch_plan.specs.Plan.{plan_of, Looks};
ghost use Rattle.fetch_plan.specs.Runs.{Step, MayTakeAll, after_steps, asked_by, missing};

/// A fetch that passes over the indices that are held when they are looked at, and asks for the others, asks for those of
/// the range that weren't held, the least first and each once; at each moment few requests are in flight.
pub fn a_fetch_asks_for_what_is_missing()
    ensures asked { (held : ℕ → Bool) (from to : ℕ) (steps : List Step)
        → MayTakeAll held (plan_of from to) steps → asked_by (plan_of from to) steps
        ++ missing held (after_steps (plan_of from to) steps).next to ≡ missing held from to }
    ensures done { (held : ℕ → Bool) (from to : ℕ) (steps : List Step)
        → MayTakeAll held (plan_of from to) steps → Looks (after_steps (plan_of from to) steps) Done
        → asked_by (plan_of from to) steps ≡ missing held from to }
    ensures few { (held : ℕ → Bool) (from to : ℕ) (steps : List Step)
        → MayTakeAll held (plan_of from to) steps
        → length (after_steps (plan_of from to) steps).in_flight ≤ MAX_IN_FLIGHT }
{}
