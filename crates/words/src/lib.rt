//! What arguments ask: a command in a folder, or one with a peer, or a merge, or a list of bugs, each
//! argument read into its type.
#![tactic(auto)]

mod arguments;
mod edit;
mod laws;
mod list;
mod merge;
mod pair;
mod peer;
mod verb;
mod words;

pub use edit::Edit;
pub use laws::{
    commands_ask_for_what_they_name, edits_of_bugs_ask_for_what_they_name,
    exchanges_are_read_in_order, first_bad_words_are_told, lists_are_read_in_order,
    lists_ask_for_what_they_name, merges_are_read_in_order, names_are_those_of_verbs,
    no_name_is_of_two_kinds, only_these_are_commands, only_these_arguments_are_taken,
    pairs_are_of_folders_apart, peer_commands_ask_for_what_they_name, requests_are_read_in_order,
};
pub use list::{BadQuery, Layout, ListRequest};
pub use pair::FolderPair;
pub use verb::{FIRST_VERBS, LAST_VERBS, Verb};
pub use words::{
    Asked, BadWord, Command, MergeRequest, PeerCommand, PeerRequest, Request, read_words,
};
