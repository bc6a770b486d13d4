//! Worlds of folders in memory, in which events are run one after another.
#![tactic(auto)]

mod digest;
mod exchanges;
mod laws;
mod plays;
mod runs;
mod shown;
mod start;
mod summaries;
mod watch;
mod world;

pub use exchanges::exchange;
pub use laws::{events_are_runs, worlds_are_sound};
pub use plays::{play, play_watched};
pub use start::run_world;
pub use summaries::summary;
pub use watch::{Unwatched, Watch};
pub use world::World;
