//! Objects as Git keeps them: the texts of blobs, trees and commits, and their names.
#![tactic(auto)]

mod commit;
mod commit_view;
mod cut;
mod entry;
mod frame;
mod laws;
mod object;
mod object_view;
mod tree;
mod tree_view;

pub use commit::Commit;
pub use commit_view::CommitView;
pub use entry::{Entry, Mode};
pub use frame::{Frame, Kind, frame_text, name_of, name_of_text};
pub use laws::{
    each_text_has_one_value, each_value_has_one_text, folders_alone_are_sorted_with_a_slash,
    frames_read_through, hashed_texts_have_names, modes_and_kinds_have_gits_texts,
    values_are_exact,
};
pub use object::Object;
pub use object_view::ObjectView;
pub use tree::Tree;
pub use tree_view::{EntryView, TreeView};
