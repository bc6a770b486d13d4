//! Small values that the crates above share: ids, object names, owned texts and lists, folders.
#![tactic(auto)]

mod decimal;
mod folder;
mod id;
mod laws;
mod line_end;
mod list;
mod memory;
mod owned;
mod prefix;
mod prefix_laws;
mod ruled;
mod rules;
mod writer;

pub use decimal::{GREATEST_TIME, limit_is_known, read_decimal};
pub use folder::{Folder, FolderFault};
pub use id::{Id, Name};
pub use laws::{
    ascending_lists_are_their_items, bad_folders_are_answered_so, controls_by_number,
    folders_apart_share_no_path, folders_overlap_each_other, folders_read_again,
    ids_are_in_order_of_their_texts, line_ends_are_one_line_feed,
    names_are_in_order_of_their_texts, paths_keep_their_rest, rooted_folders_are_apart,
    ruled_texts_by_their_characters, ruled_texts_read_back,
};
pub use line_end::without_line_end;
pub use list::List;
pub use memory::Memory;
pub use owned::{Bytes, Text};
pub use prefix::Prefix;
pub use prefix_laws::{shorter_prefixes_fit_more, whole_texts_fit_one_id};
pub use ruled::{Line, Message, Title};
pub use rules::{is_line, is_message, is_title};
pub use writer::{push_ascii, push_id, push_line_end, push_name, push_number};
