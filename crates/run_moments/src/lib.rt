//! Runs stopped anywhere: when refs change in a run, and what survives of what it acknowledged. No
//! call of a law does anything.
#![tactic(auto)]

mod kept_laws;
mod moment_laws;
mod refused_laws;

pub use kept_laws::{
    acknowledged_edits_survive, acknowledged_lines_survive, runs_keep_what_refs_lead_to,
};
pub use moment_laws::{
    each_ref_changes_at_most_once, lists_change_rows_alone, runs_that_read_write_nothing,
    stopped_runs_leave_each_ref_old_or_new,
};
pub use refused_laws::{refused_commands_write_nothing, refused_merges_have_their_cause};
