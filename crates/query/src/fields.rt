//! Whether the fields of a row match.
ghost use Rattle.std.specs.Prelude.{◌≡◌, IfOk};
ghost use Rattle.std.specs.List.{list_all, list_any};
ghost use Rattle.std.specs.Str.{bytes_eq};
ghost use Rattle.query.specs.Folds.{titles_match};
ghost use Rattle.query.specs.Matching.{any_of, labels_match, none_match, occurs, same_pair, same_status};

use crate::folding::{fold, occurs};
use crate::folds::Sought;
use bug_ops::BugStatus;
use gb_text::{Memory, Text};
use op_kind::Pair;
use std::alloc::Global;

/// Whether a status is one of those given, if some are.
pub(crate) fn has_status(status: BugStatus, statuses: &[BugStatus]) -> bool
    ensures { result ≡ any_of (same_status status) statuses.now }
{
    if statuses.is_empty() {
        return true;
    }
    for other in statuses {
        if same_status(status, *other) {
            return true;
        }
    }
    false
}

fn same_status(one: BugStatus, other: BugStatus) -> bool
    ensures { result ≡ same_status one other }
{
    match (one, other) {
        (BugStatus::Opened, BugStatus::Opened) => true,
        (BugStatus::Closed, BugStatus::Closed) => true,
        _ => false,
    }
}

/// Whether one of the pairs given is one of a row, if there are some.
pub(crate) fn has_pairs(pairs: &[Pair], given: &[Pair]) -> bool
    ensures { result ≡ any_of (λ pair. list_any (same_pair pair) pairs.now) given.now }
{
    if given.is_empty() {
        return true;
    }
    for pair in given {
        if has_pair(pairs, pair) {
            return true;
        }
    }
    false
}

fn has_pair(pairs: &[Pair], pair: &Pair) -> bool
    ensures { result ≡ list_any (same_pair pair.now) pairs.now }
{
    for other in pairs {
        if same_pair(pair, other) {
            return true;
        }
    }
    false
}

fn same_pair(one: &Pair, other: &Pair) -> bool
    ensures { result ≡ same_pair one.now other.now }
{
    one.key == other.key && one.value == other.value
}

/// Whether each label given is on.
pub(crate) fn has_labels(labels: &[Text], given: &[Text]) -> bool
    ensures { result ≡ labels_match given.now labels.now }
{
    for word in given {
        if !has_label(labels, word) {
            return false;
        }
    }
    true
}

fn has_label(labels: &[Text], word: &Text) -> bool
    ensures { result ≡ list_any (bytes_eq word.now) labels.now }
{
    for label in labels {
        if *word == *label {
            return true;
        }
    }
    false
}

/// Whether no label is on, if that is asked.
pub(crate) fn has_no_label(asked: bool, labels: &[Text]) -> bool
    ensures { result ≡ none_match asked labels.now }
{
    !asked || labels.is_empty()
}

/// Whether a title contains each of the texts given, without regard to case.
pub(crate) fn has_titles(alloc: Global, title: &str, given: &[Sought]) -> Result<bool, Memory>
    ensures { IfOk result (λ found. found ≡ titles_match title.now given.now) }
{
    if given.is_empty() {
        return Ok(true);
    }
    let title = fold(alloc, title)?;
    Ok(contains_each(title.as_str(), given))
}

// Whether a folded text contains each of the texts given.
fn contains_each(text: &str, given: &[Sought]) -> bool
    ensures { result ≡ list_all (λ word. occurs text.now word.folded) given.now }
{
    for word in given {
        if !occurs(text, word.folded.as_str()) {
            return false;
        }
    }
    true
}
