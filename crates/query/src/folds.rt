//! The texts of a query and the names of persons, each folded once.
ghost use Rattle.std.specs.Prelude.{◌≡◌, map, IfOk};
ghost use Rattle.query.specs.Folds.{folds_of, known_of, sought_of};

use crate::Query;
use crate::folding::fold;
use gb_text::{Id, List, Memory, Text};
use identity::Person;
use std::alloc::Global;

/// A text of a query, as it is and folded.
#[derive(Drop)]
pub(crate) struct Sought {
    pub text: Text,
    pub folded: Text,
}

/// The id of a person, and the folded name.
#[derive(Drop)]
pub(crate) struct Known {
    pub id: Id,
    pub name: Text,
}

/// What a query looks for without regard to case, and among which persons.
#[derive(Drop)]
pub(crate) struct Folds {
    pub persons: List<Known>,
    pub authors: List<Sought>,
    pub participants: List<Sought>,
    pub actors: List<Sought>,
    pub titles: List<Sought>,
}

impl Folds {
    /// Folds the texts of a query and the names of persons.
    pub(crate) fn new(alloc: Global, names: &[Person], query: &Query) -> Result<Folds, Memory>
        ensures { IfOk result (λ folds. folds ≡ folds_of names.now query.now) }
    {
        Ok(Folds {
            persons: fold_names(alloc, names)?,
            authors: fold_texts(alloc, query.authors.as_slice())?,
            participants: fold_texts(alloc, query.participants.as_slice())?,
            actors: fold_texts(alloc, query.actors.as_slice())?,
            titles: fold_texts(alloc, query.titles.as_slice())?,
        })
    }
}

// Folds the names of persons.
fn fold_names(alloc: Global, names: &[Person]) -> Result<List<Known>, Memory>
    ensures { IfOk result (λ known. known ≡ map known_of names.now) }
{
    let mut known = Vec::new(alloc);
    for person in names {
        known.push(Known {
            id: person.id,
            name: fold(alloc, person.name.as_str())?,
        })?;
    }
    Ok(List::from_vec(known))
}

// Folds texts.
fn fold_texts(alloc: Global, texts: &[Text]) -> Result<List<Sought>, Memory>
    ensures { IfOk result (λ sought. sought ≡ map sought_of texts.now) }
{
    let mut sought = Vec::new(alloc);
    for text in texts {
        sought.push(Sought {
            text: Text::from_str(alloc, text.as_str())?,
            folded: fold(alloc, text.as_str())?,
        })?;
    }
    Ok(List::from_vec(sought))
}
