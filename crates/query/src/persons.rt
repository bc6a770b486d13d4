//! Whether persons match.
ghost use Rattle.std.specs.Prelude.{◌≡◌, nat_eq, IfOk};
ghost use Rattle.std.specs.List.{list_any, starts_with};
ghost use Rattle.hex.specs.Hex.{encode_lower};
ghost use Rattle.query.specs.Folds.{folded_among, is_sought, sought_match};
ghost use Rattle.query.specs.Matching.{occurs};

use crate::folding::{fold, occurs};
use crate::folds::{Known, Sought};
use gb_text::{Id, Memory};
use person_names::push_short;
use std::alloc::Global;

/// Whether one of these persons matches one of the texts, if there are texts.
pub(crate) fn persons_match(
    alloc: Global,
    names: &[Known],
    words: &[Sought],
    ids: &[Id],
) -> Result<bool, Memory>
    ensures { IfOk result (λ found. found ≡ sought_match names.now words.now ids.now) }
{
    if words.is_empty() {
        return Ok(true);
    }
    for word in words {
        if some_person(alloc, names, word, ids)? {
            return Ok(true);
        }
    }
    Ok(false)
}

// Whether one of these persons matches a text.
fn some_person(alloc: Global, names: &[Known], word: &Sought, ids: &[Id]) -> Result<bool, Memory>
    ensures { IfOk result (λ found. found ≡ list_any (is_sought names.now word.now) ids.now) }
{
    for id in ids {
        if is_person(alloc, names, word, id)? {
            return Ok(true);
        }
    }
    Ok(false)
}

// Whether a person matches a text: the name contains it, or the id's digits begin with it.
fn is_person(alloc: Global, names: &[Known], word: &Sought, id: &Id) -> Result<bool, Memory>
    ensures { IfOk result (λ found. found ≡ is_sought names.now word.now id.now) }
{
    if name_has(alloc, names, word.folded.as_str(), id)? {
        return Ok(true);
    }
    Ok(begins(id, word.text.as_str()))
}

// Whether the digits of an id begin with a text.
fn begins(id: &Id, text: &str) -> bool
    ensures { result ≡ starts_with nat_eq (encode_lower id.now.bytes) text.now }
{
    id.text().starts_with(text.as_bytes())
}

// Whether the folded name of a person contains a text.
fn name_has(alloc: Global, names: &[Known], word: &str, id: &Id) -> Result<bool, Memory>
    ensures { IfOk result (λ found. found ≡ occurs (folded_among names.now id.now) word.now) }
{
    for person in names {
        if person.id == *id {
            return Ok(occurs(person.name.as_str(), word));
        }
    }
    let mut short = String::new(alloc);
    push_short(&mut short, id)?;
    Ok(occurs(fold(alloc, short.as_str())?.as_str(), word))
}
