//! Who is told how far a world has come.
ghost use Rattle.std.specs.Prelude.{◌≡◌, ◌∷◌, ◌++◌, [], ℕ, Bool, IsTrue, List};

/// Is told how far a world has come. Nothing else depends on it.
pub trait Watch {
    /// Whether it tells what it was told.
    ghost tells: { Bool };

    /// After how many events it was told, and of how many, each time, where it tells that.
    ghost told: { Self → List (ℕ × ℕ) };

    /// So many of all events have been played.
    fn played(&mut self, count: u64, all: u64)
        ensures { IsTrue tells → told self.new ≡ told self.old ++ (count, all) ∷ [] };
}

/// Is told, and does nothing.
#[derive(Drop)]
pub struct Unwatched;

impl Watch for Unwatched {
    ghost use Rattle.std.specs.Prelude.{[], false};

    ghost tells = { false };

    ghost told = { λ _. [] };

    fn played(&mut self, _count: u64, _all: u64) {}
}
