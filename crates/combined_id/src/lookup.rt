//! Look-up of an id by a prefix.
ghost use Rattle.std.specs.Prelude.{◌<◌, ◌≡◌, ◌++◌, List, drop, filter, length, take};
ghost use Rattle.gb_text.specs.Prefix.{fits};
ghost use Rattle.gb_text.specs.declared.id.Id.{Id as IdValue};
ghost use Rattle.combined_id.specs.Lookup.{Answers, Finds, IsWithin, is_below};

use gb_text::{Id, Prefix};

/// The answer of a look-up: the position of the only id that the prefix fits, or the two least ids
/// of those that it fits, which are equal where the least id is listed twice.
#[derive(Clone, Copy, Debug, PartialEq, Eq)]
pub enum Lookup {
    One(usize),
    NotFound,
    Ambiguous(Id, Id),
}

/// Looks up a prefix among ids in any order. Takes no memory. Each argument for a bug or an identity that
/// is shorter than an id is looked up by it.
pub fn find(ids: &[Id], prefix: &Prefix) -> Lookup
    ensures { Finds prefix.now ids.now result }
{
    let mut found = Lookup::NotFound;
    for place in 0..ids.len() {
        if prefix.fits(&ids[place]) {
            found = with_more(found, ids, place);
        }
    }
    found
}

// What is found once the id at this position is also one that fits.
fn with_more(found: Lookup, ids: &[Id], place: usize) -> Lookup
    requires place { place < length ids.now }
    requires found { IsWithin ids.now found }
    ensures { (fitting : List IdValue) → Answers ids.now fitting found
        → Answers ids.now (fitting ++ take 1 (drop place ids.now)) result }
{
    let id = ids[place];
    match found {
        Lookup::NotFound => Lookup::One(place),
        Lookup::One(first) => {
            let other = ids[first];
            if is_below(&id, &other) {
                Lookup::Ambiguous(id, other)
            } else {
                Lookup::Ambiguous(other, id)
            }
        }
        Lookup::Ambiguous(least, next) => {
            if is_below(&id, &least) {
                Lookup::Ambiguous(id, least)
            } else if is_below(&id, &next) {
                Lookup::Ambiguous(least, id)
            } else {
                Lookup::Ambiguous(least, next)
            }
        }
    }
}

// Whether the first id is less than the second.
fn is_below(one: &Id, two: &Id) -> bool
    ensures { result ≡ is_below one.now two.now }
{
    one.cmp(two).is_lt()
}
