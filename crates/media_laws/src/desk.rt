ghost use Rattle.media_laws.specs.Between.{IsBetween};
ghost use Rattle.spec_modes.specs.Desk.{DeskPlan, Event, IsDeskPlan, Step, desk, steps_in};
ghost use Rattle.spec_modes.specs.ModeSets.{has};
ghost use Rattle.std.specs.Prelude.{◌%◌, ◌++◌, ◌∷◌, ◌≡◌, ◌≢◌, List, [], true, ℕ};

/// The mode of a desk is always in its set, and so is the mode that it moves to.
pub fn a_desk_keeps_to_its_set()
    ensures mode { (plan : DeskPlan) (events : List Event) → IsDeskPlan plan
        → has plan.modes (desk plan events).mode ≡ true }
    ensures target { (plan : DeskPlan) (events : List Event) → IsDeskPlan plan
        → has plan.modes (desk plan events).target ≡ true }
{}

/// The mode of a desk changes only at a step before which a multiple of the period of steps was
/// made (RFC 4867, 8.1, mode-change-period).
pub fn a_desk_moves_at_its_period()
    ensures { (plan : DeskPlan) (events : List Event) (event : Event)
        → (desk plan (events ++ event ∷ [])).mode ≢ (desk plan events).mode
        → (event ≡ Step) × (steps_in events % plan.period ≡ 0) }
{}

/// A desk that moves to neighbours passes no mode of its set (RFC 4867, 8.1, mode-change-neighbor).
pub fn a_desk_moves_to_neighbours()
    ensures { (plan : DeskPlan) (events : List Event) (event : Event) (mode : ℕ)
        → plan.neighbor ≡ true → has plan.modes mode ≡ true
        → IsBetween (desk plan events).mode (desk plan (events ++ event ∷ [])).mode mode → ⊥ }
{}
