//! Laws of clocks, each the contract of a function that does nothing.
ghost use Rattle.std.specs.Prelude.{◌≡◌, ◌≤◌, ◌<◌, ◌+◌, ◌++◌, ◌∷◌, ◌-◌, ◌^◌, [], ℕ, decimal, max, Some};
ghost use Rattle.lamport.specs.Clock.{clock_of, edit_time_of, merge_time_of, root_time_of, seen_by, time_of};

use crate::{CAP, JUMP};

/// The decimal of a clock reads back as the clock, with or without a line feed after it.
pub fn clocks_read_back()
    ensures plain { (n : ℕ) → n ≤ CAP → clock_of (decimal n) ≡ n }
    ensures line { (n : ℕ) → n ≤ CAP → clock_of (decimal n ++ 10 ∷ []) ≡ n }
{}

/// Each number of 1 to 2^63 - 1 is the time with that number, and no other number is a time.
pub fn times_are_within_bounds()
    ensures each { (n : ℕ) → 1 ≤ n → n ≤ 2 ^ 63 - 1 → time_of n ≡ Some n }
    ensures only { (n time : ℕ) → time_of n ≡ Some time
        → (time ≡ n) × (1 ≤ n) × (n ≤ 2 ^ 63 - 1) }
{}

/// The order in which clocks are seen makes no difference, nor how often.
pub fn seen_in_any_order()
    ensures order { (clock one two : ℕ)
        → seen_by (seen_by clock one) two ≡ seen_by (seen_by clock two) one }
    ensures again { (clock one : ℕ) → seen_by (seen_by clock one) one ≡ seen_by clock one }
{}

/// A new time is one above all that it comes after. Only a root at the cap, and an edit by a clock
/// that is far above its head, are not above the clock.
pub fn new_times_are_later()
    ensures root { (clock : ℕ) → clock < CAP → root_time_of clock ≡ clock + 1 }
    ensures root_at_cap { (clock : ℕ) → CAP ≤ clock → root_time_of clock ≡ CAP }
    ensures edit { (clock head : ℕ) → clock ≤ head → edit_time_of clock head ≡ head + 1 }
    ensures edit_by_clock { (clock head : ℕ) → head ≤ clock → clock < head + JUMP
        → edit_time_of clock head ≡ clock + 1 }
    ensures edit_by_jump { (clock head : ℕ) → head + JUMP ≤ clock
        → edit_time_of clock head ≡ head + JUMP }
    ensures join { (clock one two : ℕ) → merge_time_of clock one two ≡ max (max clock one) two + 1 }
{}

/// A clock that has seen a time up to the cap is the greater of both. A time above the cap counts
/// as the cap.
pub fn seen_times_count_up_to_the_cap()
    ensures below { (clock edit : ℕ) → edit ≤ CAP → seen_by clock edit ≡ max clock edit }
    ensures above { (clock edit : ℕ) → CAP ≤ edit → seen_by clock edit ≡ max clock CAP }
{}
