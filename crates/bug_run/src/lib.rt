//! The top call: what the arguments ask, done over a store and printed to a sink.
#![tactic(auto)]

mod answer;
mod exchange;
mod exchange_laws;
mod headline;
mod laws;
mod list;
mod list_laws;
mod look;
mod merge_laws;
mod moment;
mod pack;
mod print;
mod refusal;
mod status;
mod top;
mod usage;

pub use exchange_laws::{
    exchanges_of_sound_folders_have_lines, exchanges_print_their_lines, failed_lines_are_cut_short,
};
pub use headline::{same_commits_are_printed_the_same, the_headline};
pub use laws::{
    answers_are_determined, answers_depend_on_what_words_find, edits_read_few_objects,
    edits_tell_what_they_made, packs_change_no_head, runs_from_nothing_are_sound,
    runs_keep_folders, show_prints_the_operations_in_order, sound_folders_are_served,
    words_decide_first,
};
pub use list_laws::{
    failed_lists_are_cut_short, lists_print_bugs_compiled_from_scratch, sound_folders_are_listed,
};
pub use merge_laws::{merge_lines_are_joins, refused_merges_have_their_fault};
pub use moment::moment_of;
pub use status::{Refused, Status};
pub use top::run;
pub use usage::{failed_output_is_cut_short, reads_are_bounded_by_factors};
