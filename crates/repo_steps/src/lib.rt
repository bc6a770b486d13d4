//! The commands that edit a folder: what each does, and its laws.
#![tactic(auto)]

mod cause_laws;
mod env;
mod laws;
mod limits;
mod plan;
mod refusal;

pub use cause_laws::{
    causes_refuse, heads_are_old_or_set, refusals_have_their_causes,
    writes_are_what_their_command_makes,
};
pub use env::Env;
pub use laws::{
    create_clocks_are_written_first, done_edits_make_their_step, edited_comments_are_read_so,
    edits_write_by_kinds, edits_write_their_own, full_bugs_are_refused, refusals_are_determined,
    refusals_are_told_in_order, sound_folders_are_not_damaged, steps_are_determined,
    words_that_find_not_one_are_refused, written_bugs_are_read_so,
};
pub use limits::full_chains_are_refused;
pub use plan::{Addition, Plan};
pub use refusal::{Refusal, Stop};
