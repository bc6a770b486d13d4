//! Objects held under their names, in the files of a store.
#![tactic(auto)]

mod fault;
mod laws;
mod object_text;
mod path;
mod read;
mod typed;
mod view;
mod write;

pub use fault::{KindFault, ObjFault, PutFault};
pub use laws::{
    a_name_holds_a_kind_or_fails, a_name_holds_an_object_or_fails, a_name_holds_one_object,
    additions_compose, an_object_has_at_most_4_mebibytes, distinct_names_have_distinct_paths,
    faults_of_kinds_are_those_of_objects, held_objects_are_read, what_a_file_gives,
    what_is_held_stays, what_is_too_long_to_be_put, writes_of_objects_only_add,
};
pub use object_text::ObjectText;
pub use path::path_of;
pub use read::{MOST_BYTES, Raw, get, get_raw, get_text, judge, judge_object};
pub use typed::{get_blob, get_commit, get_tree};
pub use view::{commit_in, tree_in};
pub use write::{put, put_text, stands};
