//! Folders after runs of unlike seeds, in which no two texts have one hash: nothing but a limit
//! makes a pull refuse, and worlds of such folders with users, whose people are edited at home,
//! agree after a full exchange that meets no limit. No call of a law does anything.
#![tactic(auto)]

mod exchange_laws;
mod folder_laws;
mod home_laws;
mod run_laws;
mod world_laws;

pub use exchange_laws::{
    clean_folders_agree_after_a_full_exchange, clean_worlds_agree_after_a_full_exchange,
    events_are_one_pull, full_exchanges_of_clean_folders_are_done,
    told_worlds_are_equal_unless_a_limit_is_met,
};
pub use folder_laws::{
    clean_folders_refuse_no_bug_but_for_a_limit, clean_folders_refuse_no_copy,
    clean_pulls_without_a_limit_refuse_no_bug,
};
pub use home_laws::{
    new_users_alone_make_identities, people_of_clean_worlds_have_homes,
    told_worlds_have_clean_people,
};
pub use run_laws::{
    clean_runs_are_refused_for_no_taken_name, clean_runs_refuse_bugs_by_a_limit_alone,
    operations_of_unlike_seeds_stand_once, runs_of_unlike_seeds_are_fresh,
};
pub use world_laws::{
    clean_worlds_answer_pulls_with_lines, clean_worlds_refuse_no_bug_but_for_a_limit,
    clean_worlds_stay_clean, generated_events_have_distinct_seeds, told_worlds_are_clean,
    worlds_of_distinct_seeds_are_clean,
};
