//! The commands that read a folder: a bug, its log, and the people.
#![tactic(auto)]

mod bug_log;
mod bug_text;
mod laws;
mod people_text;

pub use bug_log::log;
pub use bug_text::show;
pub use laws::{
    a_log_has_no_fault, a_shown_bug_has_no_fault, logs_are_determined,
    same_commits_are_shown_the_same, shown_people_are_not_damaged, shown_texts_are_determined,
    sound_folders_are_shown, sound_folders_have_logs, texts_tell_what_stands_there,
    the_first_damage_is_told,
};
pub use people_text::users;
