//! Limits of copies: between sound folders that have no two texts under one name, nothing but a
//! limit keeps a head from being copied.
#![tactic(auto)]

mod exchange_laws;
mod flat_laws;
mod laws;

pub use exchange_laws::{
    causes_between_sound_folders_are_limits, fetches_of_sound_folders_refuse_by_a_limit_alone,
    pulls_of_sound_folders_fetch_but_for_a_limit,
    pushes_of_sound_folders_find_damage_by_a_limit_alone,
};
pub use flat_laws::{
    exchanges_of_flat_entities_refuse_no_copy, flat_entities_are_copied,
    flat_entities_had_no_cause, flat_trees_stay, made_commits_have_flat_trees, made_trees_are_flat,
};
pub use laws::{
    commits_are_named_by_commits_alone, copies_of_whole_folders_fail_by_a_limit_alone,
    entities_without_faults_have_few_commits, entities_without_faults_have_no_ring,
    heads_of_sound_folders_fail_by_a_limit_alone,
};
