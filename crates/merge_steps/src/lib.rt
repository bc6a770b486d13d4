//! What a merge does with each tracked entity, and how it says so in a line.
#![tactic(auto)]

mod laws;
mod line;
mod line_laws;
mod stop;
mod text;

pub use laws::{
    done_merges_leave_both_sides, done_merges_refuse_for_a_cause, each_tracked_ref_has_its_line,
    lines_are_told_one_after_another, merged_lines_are_joins, merges_keep_other_refs,
    merges_write_of_their_kinds, refused_identities_have_a_cause, refused_merges_have_a_fault,
};
pub use line::{MergeLine, MergeOutcome, Pulled, count_refused};
pub use line_laws::{lines_of_bugs_are_joins, merges_of_sound_folders_leave_both_sides};
pub use stop::{MergeStop, TurnStop};
pub use text::lines_text;
