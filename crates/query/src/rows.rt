//! Which rows a query asks for, and in what order.
ghost use Rattle.std.specs.Prelude.{◌≡◌, IfOk};
ghost use Rattle.query.specs.Answers.{IsAnswer, clock_of, matching, matching_by};
ghost use Rattle.query.specs.Folds.{folded_matches, folded_who};
ghost use Rattle.query.specs.Matching.{fields_match};

use crate::fields::{has_labels, has_no_label, has_pairs, has_status, has_titles};
use crate::folds::Folds;
use crate::order::{Placed, places, sort};
use crate::persons::persons_match;
use crate::{Query, SortKey};
use bug_ops::Excerpt;
use gb_text::{List, Memory};
use identity::Person;
use std::alloc::Global;

/// The positions of the rows that match, each once, in the query's order. Equal ones go by ascending
/// id in both directions. A person is named as in `names`, or by the first seven digits of the id
/// if nobody there has it.
pub fn select(
    alloc: Global,
    rows: &[Excerpt],
    names: &[Person],
    query: &Query,
) -> Result<List<usize>, Memory>
    ensures { IfOk result (IsAnswer names.now query.now rows.now) }
{
    let mut placed = placed_rows(alloc, rows, names, query)?;
    sort(&mut placed, query.key, query.down);
    places(alloc, placed.as_slice())
}

// The rows that match, in their own order.
fn placed_rows(
    alloc: Global,
    rows: &[Excerpt],
    names: &[Person],
    query: &Query,
) -> Result<Vec<Placed>, Memory>
    ensures { IfOk result (λ placed. placed.items ≡ matching names.now query.now 0 rows.now) }
{
    let folds = Folds::new(alloc, names, query)?;
    let placed = all_matching(alloc, rows, query, &folds)?;
    Ok(placed)
}

// The same, by texts and names that are folded.
fn all_matching(
    alloc: Global,
    rows: &[Excerpt],
    query: &Query,
    folds: &Folds,
) -> Result<Vec<Placed>, Memory>
    ensures { IfOk result (λ placed. placed.items
        ≡ matching_by (folded_matches query.now folds.now) query.now.key 0 rows.now) }
{
    let mut placed = Vec::new(alloc);
    for (place, row) in rows.iter().enumerate() {
        if matches(alloc, row, query, folds)? {
            placed.push(Placed {
                clock: clock_of(query.key, row),
                id: row.id,
                place,
            })?;
        }
    }
    Ok(placed)
}

// The clock that the order looks at, none for that by id.
fn clock_of(key: SortKey, row: &Excerpt) -> u64
    ensures { result ≡ clock_of key row.now }
{
    match key {
        SortKey::ById => 0,
        SortKey::ByCreation => row.create,
        SortKey::ByEdit => row.edit,
    }
}

// Whether a row matches.
fn matches(alloc: Global, row: &Excerpt, query: &Query, folds: &Folds) -> Result<bool, Memory>
    ensures { IfOk result (λ found. found ≡ folded_matches query.now folds.now row.now) }
{
    if !fields_match(row, query) {
        return Ok(false);
    }
    if !has_titles(alloc, row.title.as_str(), folds.titles.as_slice())? {
        return Ok(false);
    }
    who_matches(alloc, row, folds)
}

// Whether the fields match that are compared byte by byte.
fn fields_match(row: &Excerpt, query: &Query) -> bool
    ensures { result ≡ fields_match query.now row.now }
{
    has_status(row.status, query.statuses.as_slice())
        && has_pairs(row.metadata.as_slice(), query.metadata.as_slice())
        && has_labels(row.labels.as_slice(), query.labels.as_slice())
        && has_no_label(query.no_label, row.labels.as_slice())
}

// Whether those who made the bug and took part match.
fn who_matches(alloc: Global, row: &Excerpt, folds: &Folds) -> Result<bool, Memory>
    ensures { IfOk result (λ found. found ≡ folded_who folds.now row.now) }
{
    let names = folds.persons.as_slice();
    let author = [row.author];
    if !persons_match(alloc, names, folds.authors.as_slice(), &author)? {
        return Ok(false);
    }
    let ids = row.participants.as_slice();
    if !persons_match(alloc, names, folds.participants.as_slice(), ids)? {
        return Ok(false);
    }
    persons_match(alloc, names, folds.actors.as_slice(), row.actors.as_slice())
}
