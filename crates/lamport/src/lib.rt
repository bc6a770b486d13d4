//! The clock rule: how edits are given clocks, and how clocks are seen.
#![tactic(auto)]

mod clock;
mod laws;
mod time;

pub use clock::{CAP, Clock, ClockFull, JUMP};
pub use laws::{
    clocks_read_back, new_times_are_later, seen_in_any_order, seen_times_count_up_to_the_cap,
    times_are_within_bounds,
};
pub use time::Time;
