//! A commit that a command adds to a bug, and the clocks that see it.
ghost use Rattle.std.specs.Prelude.{◌≡◌, ◌++◌, ◌∷◌, [], length, IfOk};
ghost use Rattle.gb_text.specs.declared.id.Id.{Id as IdValue};
ghost use Rattle.lamport.specs.Clock.{root_time_of};
ghost use Rattle.bug_edits.specs.NewOps.{op_id};
ghost use Rattle.bug_ops.specs.Kind.{bug_kind};
ghost use Rattle.dag_entity.specs.Appending.{AppendPlanAnswers};
ghost use Rattle.repo_state.specs.Clocks.{see_writes};
ghost use Rattle.repo_state.specs.declared.clocks.ClockFile.TheVariants as file;
ghost use Rattle.repo_steps.specs.BugDoings.{one_op_pack};

use bug_edits::NewOp;
use bug_ops::BugOp;
use dag_entity::{CommitPlan, plan_append};
use gb_store::Change;
use gb_text::{Folder, Id, List, Memory, Name};
use lamport::{Clock, Time};
use object_store::PutFault;
use op_kind::VERSION;
use op_pack::Pack;
use repo_state::{ClockFile, clock_changes};
use std::alloc::Global;

// A pack of one operation by an author, with these clocks. Its id and the operation's place follow
// from what is written, and stand for nothing here.
fn one_op_pack(
    alloc: Global,
    author: &Id,
    edit: Time,
    create: Option<Time>,
    op: BugOp,
) -> Result<Pack<BugOp>, Memory>
    ensures { IfOk result (λ pack. pack ≡ one_op_pack author.now edit create op) }
{
    let mut ops = Vec::new(alloc);
    ops.push(op)?;
    Ok(Pack {
        id: Id::from_bytes([0; 32]),
        version: VERSION,
        edit,
        create,
        author: *author,
        ops: List::from_vec(ops),
    })
}

/// The commit of one operation by an author, with these clocks, behind these parents; and its id, which
/// is the only one of the plan.
pub fn plan_commit(
    alloc: Global,
    parents: &[Name],
    author: &Id,
    edit: Time,
    create: Option<Time>,
    new: NewOp,
    now: u64,
) -> Result<CommitPlan, PutFault>
    ensures plan { AppendPlanAnswers bug_kind parents.now
        (one_op_pack author.now edit create new.op) now result }
    ensures id { IfOk result (λ plan. plan.ids ≡ op_id new.op ∷ []) }
{
    let pack = one_op_pack(alloc, author, edit, create, new.op)?;
    plan_append(alloc, parents, &pack, now)
}

/// The id of the only operation of a planned commit.
pub fn only_id(plan: &CommitPlan) -> Id
    requires { length plan.now.ids ≡ 1 }
    ensures { (id : IdValue) → plan.now.ids ≡ id ∷ [] → result ≡ id }
{
    plan.ids.as_slice()[0]
}

/// These writes, and that of a clock that sees a number, where the clock changes.
pub fn with_clock(
    alloc: Global,
    folder: &Folder,
    which: ClockFile,
    clock: Clock,
    number: u64,
    writes: Vec<Change>,
) -> Result<Vec<Change>, Memory>
    ensures { IfOk result (λ all. all.items
        ≡ writes.items ++ see_writes folder.now which clock number) }
{
    let mut writes = writes;
    let changes = clock_changes(alloc, folder, which, clock, number)?;
    for change in changes.into_vec() {
        writes.push(change)?;
    }
    Ok(writes)
}

/// These writes, and those of both clocks where they see the clocks of a new root.
pub fn with_root_clocks(
    alloc: Global,
    folder: &Folder,
    create: Clock,
    edit: Clock,
    writes: Vec<Change>,
) -> Result<Vec<Change>, Memory>
    ensures { IfOk result (λ all. all.items ≡ writes.items
        ++ see_writes folder.now file.BugsCreate create (root_time_of create)
        ++ see_writes folder.now file.BugsEdit edit (root_time_of edit)) }
{
    let opened = create.root_time().number();
    let writes = with_clock(alloc, folder, ClockFile::BugsCreate, create, opened, writes)?;
    with_clock(
        alloc,
        folder,
        ClockFile::BugsEdit,
        edit,
        edit.root_time().number(),
        writes,
    )
}
