//! A bug as text.
ghost use Rattle.std.specs.Prelude.{◌≡◌, IsTrue, IfOk, IsErrOf};
ghost use Rattle.bug_ops.specs.Kind.{bug_kind};
ghost use Rattle.dag_entity.specs.Entities.{ops_in};
ghost use Rattle.gb_store.specs.Faults.{KeepsFaults};
ghost use Rattle.gb_store.specs.Files.{files_of};
ghost use Rattle.render.specs.Show.{show_text_of};
ghost use Rattle.repo_view.specs.Shown.{ReadsShow, ShowAnswers};
ghost use Rattle.snapshot.specs.LastMention.{IsBugList, snapshot_of};

use bug_ops::BugOp;
use dag_entity::Placed;
use gb_store::Store;
use gb_text::{Folder, List, Memory, Text};
use identity::Person;
use render::show_text;
use repo_state::{FindStop, Side, bug_among, find_head, identity_refs, ops_of, people_among};
use snapshot::compile;
use std::alloc::Global;

/// The bug that the word finds as text: the fields that the operations of all commits below its head
/// give, in the order of edit clock, pack id and name, with the names of the folder's people.
/// `NotFound` exactly where the word finds none. `Damaged` with the path of the bug's ref exactly where
/// that is no ref text or something is wrong with the bug; else with the path of an identity's ref,
/// where some is no ref text or has no version.
pub fn show<S: Store>(
    alloc: Global,
    disk: &mut S,
    folder: &Folder,
    word: &str,
) -> Result<Text, FindStop>
    ensures answers { IsTrue S.tells
        → ShowAnswers (files_of (S.history disk.old)) folder.now word.now result }
    ensures unwritten { IsTrue S.tells → S.history disk.new ≡ S.history disk.old }
    ensures reads { IsTrue S.tells → ReadsShow (files_of (S.history disk.old)) folder.now word.now
        (S.object_reads disk.old) (S.object_reads disk.new) }
    ensures caused { KeepsFaults S.never_fails S.faults (IsErrOf result FindStop.Disk)
        disk.old disk.new }
{
    let bug = find_head(alloc, disk, folder, &Side::Bugs, word)?;
    let identities = identity_refs(alloc, disk, folder)?;
    let entity = bug_among(alloc, disk, folder, &bug, identities.as_slice())?;
    let people = people_among(alloc, disk, folder, identities.as_slice())?;
    Ok(text_of(alloc, entity.packs, people.as_slice())?)
}

// The text of a bug with these packs.
fn text_of(alloc: Global, packs: List<Placed<BugOp>>, people: &[Person]) -> Result<Text, Memory>
    ensures { IsBugList (ops_in bug_kind packs) → IfOk result (λ text. text
        ≡ show_text_of (snapshot_of (ops_in bug_kind packs)) people.now) }
{
    let ops = ops_of(alloc, packs)?;
    let bug = compile(alloc, ops.as_slice())?;
    show_text(alloc, &bug, people)
}
