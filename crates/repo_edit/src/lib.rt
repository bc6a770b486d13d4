//! The commands that edit a folder: each is planned by reading, and then written.
#![tactic(auto)]

mod addition;
mod bugs;
mod calls;
mod carry;
mod command;
mod growing;
mod laws;
mod packing;
mod people;
mod plan_bug;
mod room;
mod writes;

pub use bugs::{edit_bug, edit_comment, new_bug};
pub use calls::{comment, label_add, label_rm, meta, noop, set_status, title};
pub use command::run_edit;
pub use laws::commands_read_what_they_need;
pub use packing::pack_refs;
pub use people::{user_edit, user_new, user_set};
