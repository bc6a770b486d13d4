//! A store of files and a sink of bytes, each a trait with a written meaning, and the ones in
//! memory.
#![tactic(auto)]

mod call_laws;
mod fault;
mod frame_laws;
mod laws;
mod mem_index;
mod mem_sink;
mod mem_store;
mod object_path;
mod sink;
mod store;
mod turn_laws;
mod write_sink;
mod writes;

pub use call_laws::{
    CallRule, each_part_is_allowed_by, first_writes_are_allowed, kept_at_each_moment_by,
    wrote_by_composes, wrote_by_weakens, wrote_nothing_by, wrote_one_by,
};
pub use fault::{SinkFault, StoreFault};
pub use frame_laws::{
    names_have_their_own_paths, other_writes_leave_objects, writes_leave_folders_apart,
    writes_leave_other_places,
};
pub use laws::{
    Property, Rule, counts_rise_in_part, cuts_are_moments, each_part_is_allowed,
    failed_writes_are_made_if_listed_so, faults_compose, files_are_read_up_to_the_limit,
    kept_at_each_moment, listed_calls_fail, moments_compose, object_paths_by_form,
    objects_have_object_paths, reads_of_objects_are_counted, risen_counts_are_higher,
    sink_faults_compose, some_are_the_first, writes_change_their_path, wrote_composes,
    wrote_nothing, wrote_one, wrote_weakens,
};
pub use mem_sink::MemSink;
pub use mem_store::{Fail, MemStore};
pub use object_path::is_object_path;
pub use sink::{Sink, write_whole};
pub use store::{Change, Content, Store};
pub use turn_laws::{
    Turn, turns_are_moments, turns_keep_at_each_moment, turns_write_by_their_rule,
};
pub use write_sink::WriteSink;
pub use writes::write_all;
