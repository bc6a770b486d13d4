//! Where the operation commits of bugs come from: edits alone make them. Each operation occurs
//! once, if none that a run makes has an id that was there. Then merges in sound folders refuse a
//! bug by a limit alone, if nothing is wrong with the tracked bugs and their authors are known.
#![tactic(auto)]

mod laws;
mod limit_laws;
mod limit_run_laws;

pub use laws::{
    bugs_last_seen_have_no_fault, each_operation_was_made_by_a_run, operations_stand_once,
    runs_make_operations_by_edits_alone,
};
pub use limit_laws::{joins_fail_by_a_limit_alone, merges_refuse_bugs_by_a_limit_alone};
pub use limit_run_laws::runs_refuse_bugs_by_a_limit_alone;
