//! The time of a run.
ghost use Rattle.std.specs.Prelude.{◌≡◌};
ghost use Rattle.bug_run.specs.Moments.{seconds_of};

use bug_edits::Moment;

/// The moment of a run: `now` in seconds since 1970, where a negative one counts as 0; `seed` is 32
/// random bytes, from which a command makes its nonce.
pub fn moment_of(now: i64, seed: [u8; 32]) -> Moment
    ensures now { result.now ≡ seconds_of now }
    ensures seed { result.seed ≡ seed }
{
    Moment {
        now: u64::try_from(now).unwrap_or(0),
        seed,
    }
}
