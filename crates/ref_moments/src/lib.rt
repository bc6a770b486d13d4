//! When refs change: the ref of an id has at each moment of a step its old head or the new one, and
//! one write at most changes it. No call of a law does anything.
#![tactic(auto)]

mod laws;
mod line_laws;
mod step_laws;

pub use laws::{
    only_puts_of_their_files_change_refs, refs_lead_on_at_each_moment,
    refs_that_change_once_are_old_or_new, rows_packs_and_folders_apart_change_no_ref,
};
pub use line_laws::{
    fetch_lines_say_what_was_set, merge_lines_say_what_was_set, push_lines_say_what_was_set,
};
pub use step_laws::{
    edits_set_one_ref_once, fetches_set_each_ref_once, merges_set_each_ref_once,
    pulls_set_each_ref_once, pushes_set_each_ref_once,
};
