//! The events of a world of folders: commands that a number makes, a full exchange, and the
//! arguments of each.
#![tactic(auto)]

mod act;
mod draws;
mod event;
mod exchange;
mod generator;
mod laws;
mod texts;
mod within;
mod words;

pub use act::Act;
pub use event::Event;
pub use exchange::exchange_events;
pub use generator::generate;
pub use laws::seeds_have_their_own_inputs;
pub use texts::folder_word;
pub use within::are_within;
pub use words::event_words;
