//! The id of a comment: digits of its bug's id and of its own, mixed so that each prefix of two
//! digits or more has digits of both.
#![tactic(auto)]

mod laws;
mod lookup;
mod lookup_laws;
mod places;
mod split;

pub use laws::each_has_the_digits_at_its_places;
pub use lookup::{Lookup, find};
pub use lookup_laws::{
    ambiguous_ids_are_neighbours, longer_prefixes_find_the_same, order_of_ids_does_not_matter,
    parts_fit_if_the_whole_fits,
};
pub use places::combine;
pub use split::{Split, split_prefix};
