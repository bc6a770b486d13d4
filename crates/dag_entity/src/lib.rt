//! Entities: the graph of commits below heads, what may be wrong with it, and its packs in order.
#![tactic(auto)]

mod agree_laws;
mod append_laws;
mod appending;
mod both;
mod entity;
mod fault;
mod folder_laws;
mod heads;
mod join_laws;
mod judge;
mod laws;
mod load;
mod order;
mod order_laws;
mod read;
mod report_laws;
mod since;
mod since_laws;

pub use agree_laws::{
    agreeing_stores_have_the_same_commits, agreeing_stores_have_the_same_faults,
    agreeing_stores_have_the_same_order, agreeing_stores_have_the_same_packs,
    more_authors_make_nothing_wrong, new_objects_change_nothing_of_a_valid_entity,
    other_faults_do_not_depend_on_the_authors, stores_agree_both_ways, what_is_needed_stays,
};
pub use append_laws::{
    appended_commits_come_after_their_needs, appended_commits_have_their_nodes,
    appended_parts_are_plain,
};
pub use appending::{CommitPlan, append, plan_append};
pub use both::{ReadBoth, read_both};
pub use entity::{Entity, Loaded, Placed};
pub use fault::EntityFault;
pub use folder_laws::folders_that_hold_what_is_needed_agree;
pub use join_laws::{
    a_commit_over_both_heads_is_valid, a_head_below_another_adds_nothing, faults_go_up,
    objects_of_merge_commits_are_short, two_valid_heads_fail_by_what_takes_both,
};
pub use laws::{
    a_first_commit_is_valid, a_later_commit_is_valid, commits_have_a_pack_or_a_fault,
    each_operation_stands_once, edit_clocks_of_entities_are_the_greatest,
    entities_give_their_operations, faults_tell_what_is_wrong, heads_are_apart_in_either_order,
    limits_of_entities_are_known, operations_are_determined, two_heads_are_valid_together,
    valid_entities_are_well_formed, valid_entities_keep_the_rules,
};
pub use order_laws::{
    a_later_pack_stands_at_the_end, orders_of_packs_are_determined, packs_stand_by_clock_then_id,
    parents_stand_before_children,
};
pub use read::{read_entity, read_walked};
pub use report_laws::{
    faults_of_operations_report_what_was_found, faults_of_packs_report_what_was_found,
};
pub use since::{Since, read_since};
pub use since_laws::{a_chain_adds_its_operations, a_chain_goes_down};
