//! Laws of the digits of two ids. No call of them does anything.
ghost use Rattle.std.specs.Prelude.{◌≡◌, ℕ, List, length, not, take};
ghost use Rattle.combined_id.specs.Combined.{combined_of, digits_at, is_second};

/// The digits at the places of either id are a prefix of it: 50 of the 64 places are the primary's,
/// 14 the secondary's.
pub fn each_has_the_digits_at_its_places()
    ensures first { (one two : List ℕ) → length one ≡ 64 → length two ≡ 64
        → digits_at (λ place. not (is_second place)) 0 (combined_of one two) ≡ take 50 one }
    ensures second { (one two : List ℕ) → length one ≡ 64 → length two ≡ 64
        → digits_at is_second 0 (combined_of one two) ≡ take 14 two }
{}
