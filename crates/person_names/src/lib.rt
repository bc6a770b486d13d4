//! How a person is named in a text: by the name, or by the first digits of the id.
#![tactic(auto)]

mod laws;
mod named;

pub use laws::{the_first_person_with_an_id_names_it, unknown_persons_are_named_by_digits};
pub use named::{push_named, push_short};
