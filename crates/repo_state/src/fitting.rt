//! Which comments an argument fits, one after the other.
ghost use Rattle.std.specs.Prelude.{◌≡◌, [], ◌∷◌};
ghost use Rattle.gb_text.specs.Prefix.{digits_of};
ghost use Rattle.combined_id.specs.Lookup.{is_below};
ghost use Rattle.repo_state.specs.Seeking.{FitsAfter, entries_of, fitting_of, more};

use crate::comments::CommentEntry;
use crate::side::HeadEntry;
use combined_id::combine;
use gb_text::{Id, Prefix};

/// What an argument fits of the comments so far: none, only one, with its id, or several, of which these
/// are the two least ids.
#[derive(Clone, Copy, Debug)]
pub(crate) enum Fitting {
    Nothing,
    One(CommentEntry, Id),
    Several(Id, Id),
}

// What fits once the comments of a bug with these ids are looked at too. Takes no memory.
pub(crate) fn with_comments(
    before: Fitting,
    prefix: &Prefix,
    bug: &HeadEntry,
    comments: &[Id],
) -> Fitting
    ensures { FitsAfter before (fitting_of (digits_of prefix.now) (entries_of bug.now comments.now))
        result }
{
    let mut fitting = before;
    for comment in comments {
        fitting = with_comment(fitting, prefix, bug, comment);
    }
    fitting
}

// What fits once this comment is looked at too.
fn with_comment(before: Fitting, prefix: &Prefix, bug: &HeadEntry, comment: &Id) -> Fitting
    ensures { FitsAfter before (fitting_of (digits_of prefix.now)
        (entries_of bug.now (comment.now ∷ []))) result }
{
    let id = combine(&bug.id, comment);
    if prefix.fits(&id) {
        let entry = CommentEntry {
            bug: *bug,
            comment: *comment,
        };
        with_more(before, &entry, &id)
    } else {
        before
    }
}

// What fits once a comment with this id fits too.
fn with_more(before: Fitting, entry: &CommentEntry, id: &Id) -> Fitting
    ensures { result ≡ more before entry.now id.now }
{
    match before {
        Fitting::Nothing => Fitting::One(*entry, *id),
        Fitting::One(_, first) => {
            if is_below(id, &first) {
                Fitting::Several(*id, first)
            } else {
                Fitting::Several(first, *id)
            }
        }
        Fitting::Several(least, next) => {
            if is_below(id, &least) {
                Fitting::Several(*id, least)
            } else if is_below(id, &next) {
                Fitting::Several(least, *id)
            } else {
                Fitting::Several(least, next)
            }
        }
    }
}

// Whether the first id is less than the second.
fn is_below(one: &Id, two: &Id) -> bool
    ensures { result ≡ is_below one.now two.now }
{
    one.cmp(two).is_lt()
}
