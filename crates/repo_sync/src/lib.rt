//! Exchanges with another folder, entity by entity.
#![tactic(auto)]

mod carry;
mod fetching;
mod listing;
mod pushing;

pub use fetching::fetch;
pub use pushing::push;
pub use sync_steps::{CopyCause, EntityWord, Exchange, Line, Outcome, lines_text};
