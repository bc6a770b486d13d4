//! What holds of all events.
ghost use Rattle.std.specs.Prelude.{◌≡◌, ◌<◌, ◌^◌, ℕ};
ghost use Rattle.world_events.specs.Events.{seed_text};

/// The seeds of two events are hashes of different texts, whether their places differ or the
/// numbers that made them.
pub fn seeds_have_their_own_inputs()
    ensures { (number other place second : ℕ) → number < 2 ^ 64 → other < 2 ^ 64
        → place < 2 ^ 64 → second < 2 ^ 64
        → seed_text number place ≡ seed_text other second
        → (number ≡ other) × (place ≡ second) }
{}
