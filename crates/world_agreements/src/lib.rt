//! The folders of a world have the same bugs after a full exchange in which each pull was done,
//! whatever was played before.
#![tactic(auto)]

mod laws;

pub use laws::{
    events_take_from_each_other, told_worlds_are_equal_where_nothing_is_refused,
    worlds_agree_where_nothing_is_refused,
};
