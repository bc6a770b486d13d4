//! Causes of refusals: what holds if a command is refused, and that the command is refused if it
//! holds. No call of a law does anything.
#![tactic(auto)]

mod edit_laws;
mod exchange_laws;
mod list_laws;
mod request_laws;

pub use edit_laws::edits_are_refused_for_their_bug;
pub use exchange_laws::{
    causes_refuse_exchanges, merges_are_refused_for_the_first_bad_ref,
    pulls_without_a_user_write_nothing, refused_exchanges_had_the_turns_before,
    refused_exchanges_have_their_cause,
};
pub use list_laws::lists_are_refused_for_damage;
pub use request_laws::{causes_refuse_requests, refused_requests_have_their_cause};
