//! A folder as maps of heads, people and the user, and what a sound folder is.
#![tactic(auto)]

mod bugs;
mod clocks;
mod comment_laws;
mod comments;
mod finding;
mod fitting;
mod laws;
mod listing;
mod operations;
mod packed;
mod people;
mod refs;
mod seeking;
mod side;
mod stop;
mod user_file;

pub use bugs::{bug_among, bug_at, bug_since, read_bug};
pub use clocks::{ClockFile, clock, clock_changes, see};
pub use comment_laws::{
    comments_are_found_by_their_first_digits, longer_words_find_the_same_comment,
};
pub use comments::{CommentEntry, FoundComment, find_comment};
pub use finding::{find, find_head};
pub use laws::{
    an_empty_folder_is_sound, clocks_read_as_they_were_seen, finders_are_determined,
    heads_and_user_are_a_map, ids_are_those_of_the_heads, longer_words_find_the_same,
    objects_and_state_are_apart, sound_folders_hold_what_heads_lead_to, users_have_their_heads,
    words_find_ids_by_their_first_digits,
};
pub use listing::{all_refs, identity_refs};
pub use operations::ops_of;
pub use packed::check_packed;
pub use people::{names, people_among};
pub use refs::{
    EntityRef, damaged, entity, entries, head, head_change, head_of, heads, ids, set_head, stands,
    whole,
};
pub use side::{HeadEntry, Side};
pub use stop::{FindStop, Missed, ReadStop};
pub use user_file::{has_user_file, set_user, user, user_change, user_head};
