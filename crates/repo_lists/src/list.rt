//! A list of bugs, from their rows.
ghost use Rattle.std.specs.Prelude.{◌≡◌, IsTrue, IsErrOf, IfOk};
ghost use Rattle.gb_store.specs.Faults.{KeepsFaults};
ghost use Rattle.gb_store.specs.Files.{files_of};
ghost use Rattle.gb_store.specs.Moments.{Wrote, WroteIf};
ghost use Rattle.repo_lists.specs.Lists.{IsListText, ListAnswers, ReadsList, text_in};
ghost use Rattle.repo_state.specs.Listed.{AreIdentityRefs};
ghost use Rattle.repo_writes.specs.Kinds.{IsRowWrite};

use bug_ops::Excerpt;
use gb_store::Store;
use gb_text::{Folder, Memory, Text};
use identity::Person;
use list_texts::{board_text, list_text};
use query::{Query, select};
use ref_store::RefEntry;
use repo_rows::rows_among;
use repo_state::{ReadStop, identity_refs, people_among};
use std::alloc::Global;
use words::Layout;

/// The local bugs that a query asks for, in its order, with the names of the folder's people. Rows that
/// are missing or out of date are stored. `Damaged`, with the path of the ref, of an identity that is no
/// person, or of a bug that has to be read and with which something is wrong. Rows that were stored
/// before that stay.
pub fn list_bugs<S: Store>(
    alloc: Global,
    disk: &mut S,
    folder: &Folder,
    layout: Layout,
    query: &Query,
) -> Result<Text, ReadStop>
    ensures answers { IsTrue S.tells → ListAnswers folder.now layout query.now
        (S.history disk.old) (S.history disk.new) result }
    ensures wrote { WroteIf S.tells (IsRowWrite folder.now)
        (S.history disk.old) (S.history disk.new) }
    ensures reads { IsTrue S.tells → ReadsList (files_of (S.history disk.old)) folder.now
        (S.object_reads disk.old) (S.object_reads disk.new) }
    ensures caused { KeepsFaults S.never_fails S.faults (IsErrOf result ReadStop.Disk)
        disk.old disk.new }
{
    let identities = identity_refs(alloc, disk, folder)?;
    list_among(alloc, disk, folder, identities.as_slice(), layout, query)
}

// The same, where these are the refs of the local identities.
fn list_among<S: Store>(
    alloc: Global,
    disk: &mut S,
    folder: &Folder,
    identities: &[RefEntry],
    layout: Layout,
    query: &Query,
) -> Result<Text, ReadStop>
    ensures answers { IsTrue S.tells
        → AreIdentityRefs (files_of (S.history disk.old)) folder.now identities.now
        → ListAnswers folder.now layout query.now
        (S.history disk.old) (S.history disk.new) result }
    ensures wrote { IsTrue S.tells
        → AreIdentityRefs (files_of (S.history disk.old)) folder.now identities.now
        → Wrote (IsRowWrite folder.now) (S.history disk.old) (S.history disk.new) }
    ensures reads { IsTrue S.tells
        → AreIdentityRefs (files_of (S.history disk.old)) folder.now identities.now
        → ReadsList (files_of (S.history disk.old)) folder.now
        (S.object_reads disk.old) (S.object_reads disk.new) }
    ensures caused { KeepsFaults S.never_fails S.faults (IsErrOf result ReadStop.Disk)
        disk.old disk.new }
{
    let people = people_among(alloc, disk, folder, identities)?;
    let rows = rows_among(alloc, disk, folder, identities)?;
    Ok(text_of(alloc, layout, query, rows.as_slice(), people.as_slice())?)
}

// The text of the rows that a query asks for.
fn text_of(
    alloc: Global,
    layout: Layout,
    query: &Query,
    rows: &[Excerpt],
    people: &[Person],
) -> Result<Text, Memory>
    ensures { IfOk result (IsListText layout query.now people.now rows.now) }
{
    let order = select(alloc, rows, people, query)?;
    laid_out(alloc, layout, rows, order.as_slice(), people)
}

// The text of the rows at these places.
fn laid_out(
    alloc: Global,
    layout: Layout,
    rows: &[Excerpt],
    order: &[usize],
    people: &[Person],
) -> Result<Text, Memory>
    ensures { IfOk result (λ text. text ≡ text_in layout people.now rows.now order.now) }
{
    match layout {
        Layout::Lines => list_text(alloc, rows, order, people),
        Layout::Board => board_text(alloc, rows, order, people),
    }
}
