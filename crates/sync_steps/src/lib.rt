//! What an exchange with another folder does with each entity, and how it says so in a line.
#![tactic(auto)]

mod kept_laws;
mod laws;
mod line;
mod text;

pub use kept_laws::{
    exchanges_end_at_bad_refs, fetches_keep_other_refs,
    heads_are_fetched_unless_a_copy_has_a_cause, heads_are_pushed_unless_a_copy_has_a_cause,
    nothing_new_is_quiet, pushes_keep_other_refs,
};
pub use laws::{
    bad_refs_are_told, bugs_are_held_for_damaged_identities, causes_are_refusals_of_copies,
    each_ref_has_its_line, exchanges_write_these, fetched_refs_have_the_peers_heads,
    lines_are_told_one_after_another, pushed_refs_have_the_local_heads,
    refs_are_set_behind_whole_copies, refs_are_set_over_older_heads, refusals_are_known,
    tracking_refs_stand_by_their_kind, turns_that_carry_nothing_write_nothing,
};
pub use line::{CopyCause, EntityWord, Exchange, Line, Outcome, count_refused};
pub use text::lines_text;
