//! Edits of the people of a folder, and of who its user is.
ghost use Rattle.std.specs.Prelude.{◌≡◌, ◌≤◌, ◌+◌, IsTrue, IsErrOf, IsOk};
ghost use Rattle.gb_store.specs.Faults.{KeepsFaults};
ghost use Rattle.gb_store.specs.Files.{files_of};
ghost use Rattle.identity.specs.Making.{PlanAnswers};
ghost use Rattle.repo_steps.specs.Answers.{DoingAnswers, Plans};
ghost use Rattle.repo_steps.specs.Doings.{EditAnswers};
ghost use Rattle.repo_steps.specs.PeopleDoings.{edited_user, new_text, new_user};
ghost use Rattle.words.specs.declared.edit.Edit.TheVariants.{UserSet};
ghost use Rattle.repo_edit.specs.Growing.{SetPlans};
ghost use Rattle.repo_edit.specs.Reads.{ReadsVersions};

use crate::carry::carry_out;
use crate::room::check_room;
use crate::writes::{head_writes, with_first_user};
use gb_store::Store;
use gb_text::{Id, Line, List, Name, Title};
use identity::{VersionPlan, plan_version};
use object_store::PutFault;
use repo_state::{Side, find, stands, user, user_change, user_head};
use repo_steps::{Env, Plan, Refusal, Stop};
use std::alloc::Global;

/// Makes an identity with this name and email, and makes it the user where no user file stands.
/// Answers its id. Refuses in this order: a user file that names no local identity (`Damaged`),
/// sizes (`TooLarge`), an identity that has the id (`EntityExists`), names of objects
/// (`NameTaken`). The objects are written first, then the ref, then the user file.
pub fn user_new<S: Store>(
    alloc: Global,
    disk: &mut S,
    env: &Env,
    name: &Title,
    email: &Line,
) -> Result<Id, Stop>
    ensures answers { IsTrue S.tells
        → DoingAnswers (new_user env.entry.now name.now email.now (S.history disk.old))
        (S.history disk.old) (S.history disk.new) result }
    ensures reads { S.object_reads disk.new ≤ S.object_reads disk.old + 3 }
    ensures caused { KeepsFaults S.never_fails S.faults (IsErrOf result Stop.Disk)
        disk.old disk.new }
{
    let plan = plan_new_user(alloc, disk, env, name, email)?;
    carry_out(alloc, disk, &plan)
}

// What `user_new` is to write.
fn plan_new_user<S: Store>(
    alloc: Global,
    disk: &mut S,
    env: &Env,
    name: &Title,
    email: &Line,
) -> Result<Plan, Stop>
    ensures answers { IsTrue S.tells
        → Plans (new_user env.entry.now name.now email.now (S.history disk.old)) result }
    ensures unwritten { IsTrue S.tells → S.history disk.new ≡ S.history disk.old }
    ensures reads { S.object_reads disk.new ≤ S.object_reads disk.old + 3 }
    ensures caused { KeepsFaults S.never_fails S.faults (IsErrOf result Stop.Disk)
        disk.old disk.new }
{
    let found = user(alloc, disk, &env.folder)?;
    let version = plan_new_version(alloc, env, None, name, email)?;
    let id = version.made.id;
    if stands(alloc, disk, &env.folder, &Side::Identities, &id)? {
        return Err(Stop::Refused(Refusal::EntityExists(id)));
    }
    let added = head_writes(
        alloc,
        disk,
        &env.folder,
        &Side::Identities,
        &id,
        &version.made.head,
        &version.objects,
    )?;
    let writes = with_first_user(alloc, &env.folder, found, &id, added)?;
    Ok(Plan {
        writes: List::from_vec(writes),
        id,
    })
}

// The version of a name and an email that a command makes, behind a parent.
fn plan_new_version(
    alloc: Global,
    env: &Env,
    parent: Option<Name>,
    name: &Title,
    email: &Line,
) -> Result<VersionPlan, PutFault>
    ensures { PlanAnswers (new_text env.entry.now name.now email.now) parent
        env.entry.now.moment.now result }
{
    let nonce = env.moment.nonce();
    plan_version(alloc, parent, name, email, &nonce, env.moment.now)
}

/// Gives the user a new version, with this name and email, behind the others. Answers the user's
/// id. Refuses in this order: a damaged user file, no user file (`NoUser`), a damaged ref or chain
/// of the user, sizes (`TooLarge`, of 65,536 versions that stand already or of an object), names of
/// objects (`NameTaken`). The objects are written first, then the ref.
pub fn user_edit<S: Store>(
    alloc: Global,
    disk: &mut S,
    env: &Env,
    name: &Title,
    email: &Line,
) -> Result<Id, Stop>
    ensures answers { IsTrue S.tells
        → DoingAnswers (edited_user env.entry.now name.now email.now (S.history disk.old))
        (S.history disk.old) (S.history disk.new) result }
    ensures reads { IsTrue S.tells
        → ReadsVersions (files_of (S.history disk.old)) env.entry.now.folder (IsOk result)
        (S.object_reads disk.old) (S.object_reads disk.new) }
    ensures caused { KeepsFaults S.never_fails S.faults (IsErrOf result Stop.Disk)
        disk.old disk.new }
{
    let plan = plan_edited_user(alloc, disk, env, name, email)?;
    carry_out(alloc, disk, &plan)
}

// What `user_edit` is to write.
fn plan_edited_user<S: Store>(
    alloc: Global,
    disk: &mut S,
    env: &Env,
    name: &Title,
    email: &Line,
) -> Result<Plan, Stop>
    ensures answers { IsTrue S.tells
        → Plans (edited_user env.entry.now name.now email.now (S.history disk.old)) result }
    ensures unwritten { IsTrue S.tells → S.history disk.new ≡ S.history disk.old }
    ensures reads { IsTrue S.tells
        → ReadsVersions (files_of (S.history disk.old)) env.entry.now.folder (IsOk result)
        (S.object_reads disk.old) (S.object_reads disk.new) }
    ensures caused { KeepsFaults S.never_fails S.faults (IsErrOf result Stop.Disk)
        disk.old disk.new }
{
    let Some(user) = user_head(alloc, disk, &env.folder)? else {
        return Err(Stop::Refused(Refusal::NoUser));
    };
    check_room(alloc, disk, &env.folder, &user)?;
    let version = plan_new_version(alloc, env, Some(user.name), name, email)?;
    let writes = head_writes(
        alloc,
        disk,
        &env.folder,
        &Side::Identities,
        &user.id,
        &version.made.head,
        &version.objects,
    )?;
    Ok(Plan {
        writes: List::from_vec(writes),
        id: user.id,
    })
}

/// Makes the identity that the word names the user, by one write. Answers its id. `NotFound`
/// exactly where the word finds none. The user file isn't read.
pub fn user_set<S: Store>(alloc: Global, disk: &mut S, env: &Env, word: &str) -> Result<Id, Stop>
    ensures answers { IsTrue S.tells
        → EditAnswers env.entry.now (UserSet word.now) (S.history disk.old)
        (S.history disk.new) result }
    ensures reads { S.object_reads disk.new ≡ S.object_reads disk.old }
    ensures caused { KeepsFaults S.never_fails S.faults (IsErrOf result Stop.Disk)
        disk.old disk.new }
{
    let plan = plan_set_user(alloc, disk, env, word)?;
    carry_out(alloc, disk, &plan)
}

// What `user_set` is to write.
fn plan_set_user<S: Store>(alloc: Global, disk: &mut S, env: &Env, word: &str) -> Result<Plan, Stop>
    ensures answers { IsTrue S.tells
        → SetPlans env.entry.now word.now (S.history disk.old) result }
    ensures unwritten { IsTrue S.tells → S.history disk.new ≡ S.history disk.old }
    ensures reads { S.object_reads disk.new ≡ S.object_reads disk.old }
    ensures caused { KeepsFaults S.never_fails S.faults (IsErrOf result Stop.Disk)
        disk.old disk.new }
{
    let id = find(alloc, disk, &env.folder, &Side::Identities, word)?;
    let mut writes = Vec::new(alloc);
    writes.push(user_change(alloc, &env.folder, &id)?)?;
    Ok(Plan {
        writes: List::from_vec(writes),
        id,
    })
}
