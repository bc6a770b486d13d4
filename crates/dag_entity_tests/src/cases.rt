//! Small graphs of commits, and what is read of them.
use crate::bugs::{ANA_DIGITS, BOB_DIGITS, Told, read_one, read_two, told_of};
use bug_ops::BugOp;
use dag_entity::{Entity, EntityFault};
use fixtures::{Disk, EMPTY, joined, pack_text, push_entry, put_commit, put_object, put_under};
use gb_store::Store;
use gb_text::Name;
use git_object::Kind;
use object_store::path_of;
use op_kind::OpKind;
use std::alloc::Global;
use std::test::Fail;

// In the tables these stand for the names of commits, of their trees and of their packs.
pub const C0: Name = Name { bytes: [0; 20] };

pub const C1: Name = Name { bytes: [1; 20] };

pub const C2: Name = Name { bytes: [2; 20] };

pub const C3: Name = Name { bytes: [3; 20] };

pub const C4: Name = Name { bytes: [4; 20] };

pub const C5: Name = Name { bytes: [5; 20] };

pub const C6: Name = Name { bytes: [6; 20] };

pub const C7: Name = Name { bytes: [7; 20] };

pub const C8: Name = Name { bytes: [8; 20] };

pub const C9: Name = Name { bytes: [9; 20] };

pub const T0: Name = Name { bytes: [16; 20] };

pub const T1: Name = Name { bytes: [17; 20] };

pub const P0: Name = Name { bytes: [32; 20] };

pub const P1: Name = Name { bytes: [33; 20] };

pub const P2: Name = Name { bytes: [34; 20] };

const NUMBERS: &[u8] = &[0, 1, 2, 3, 4, 5, 6, 7, 8, 9];

/// A name under which nothing stands.
pub const ABSENT: Name = Name { bytes: [99; 20] };

/// What a commit holds.
#[derive(Clone, Copy)]
pub enum Body {
    /// These operations of the known author.
    Ops(&'static [&'static [u8]]),
    /// These operations of an unknown author.
    Unknown(&'static [&'static [u8]]),
    /// This text in the place of a pack.
    Text(&'static [u8]),
    /// The tree's `ops` names this object.
    Names(Name),
    /// The commit names this object as its tree.
    Tree(Name),
}

/// A commit: its parents, the entries of its tree, and what it holds.
#[derive(Clone, Copy)]
pub struct Commit(pub &'static [Name], pub &'static [&'static str], pub Body);

/// What happens to the files before the reading.
#[derive(Clone, Copy)]
pub enum Change {
    Nothing,
    /// The file of this object is removed.
    Gone(Name),
    /// The file of this object holds another text.
    Damaged(Name),
}

#[derive(Clone, Copy)]
pub enum Heads {
    One(Name),
    Two(Name, Name),
}

/// What the reading answers.
#[derive(Clone, Copy)]
pub enum Answer {
    /// An entity with these commits in order, this edit clock and this create clock.
    Entity(&'static [Name], u64, u64),
    Fault(EntityFault),
}

/// A graph, its heads, and what is read of it by how many object reads.
#[derive(Clone, Copy)]
pub struct Case(pub &'static [Commit], pub Heads, pub Answer, pub u64);

/// What stands for a name in the tables.
#[derive(Clone, Copy)]
pub struct Mark {
    pub mark: Name,
    pub name: Name,
}

/// The name that a mark stands for.
pub fn name_of(marks: &[Mark], mark: &Name) -> Name {
    for known in marks {
        if known.mark == *mark {
            return known.name;
        }
    }
    *mark
}

// The mark that stands for a name.
fn mark_of(marks: &[Mark], name: &Name) -> Name {
    for known in marks {
        if known.name == *name {
            return known.mark;
        }
    }
    *name
}

// Puts a tree with these entries, all of the empty file but for `ops`.
fn put_entries(disk: &mut Disk, entries: &[&str], ops: &Name) -> Result<Name, Fail> {
    let mut content = Vec::new(disk.alloc);
    for entry in entries {
        let object = if *entry == "ops" { ops } else { &EMPTY };
        push_entry(&mut content, "100644", entry, object)?;
    }
    put_object(disk, Kind::Tree, &content)
}

// Puts a pack, and answers its name or the one that stands for it.
fn put_body(disk: &mut Disk, marks: &[Mark], body: Body) -> Result<Name, Fail> {
    let text = match body {
        Body::Ops(ops) => pack_text(disk.alloc, ANA_DIGITS, ops)?,
        Body::Unknown(ops) => pack_text(disk.alloc, BOB_DIGITS, ops)?,
        Body::Text(text) => joined(disk.alloc, &[text])?,
        Body::Names(name) => return Ok(name_of(marks, &name)),
        Body::Tree(name) => return Ok(name_of(marks, &name)),
    };
    put_object(disk, Kind::Blob, &text)
}

// The names that marks stand for.
fn names_of(alloc: Global, marks: &[Mark], of: &[Name]) -> Result<Vec<Name>, Fail> {
    let mut names = Vec::new(alloc);
    for mark in of {
        names.push(name_of(marks, mark))?;
    }
    Ok(names)
}

// Puts a commit, its tree and its pack, which have the marks of this number.
fn put_one(disk: &mut Disk, marks: &mut Vec<Mark>, number: u8, commit: Commit) -> Result<(), Fail> {
    let Commit(parents, entries, body) = commit;
    let ops = put_body(disk, marks, body)?;
    let tree = match body {
        Body::Tree(_) => ops,
        _ => put_entries(disk, entries, &ops)?,
    };
    let parents = names_of(disk.alloc, marks, parents)?;
    let name = put_commit(disk, &tree, &parents)?;
    add_mark(marks, number, name)?;
    add_mark(marks, number.wrapping_add(16), tree)?;
    add_mark(marks, number.wrapping_add(32), ops)
}

fn add_mark(marks: &mut Vec<Mark>, number: u8, name: Name) -> Result<(), Fail> {
    let mark = Name {
        bytes: [number; 20],
    };
    marks.push(Mark { mark, name })?;
    Ok(())
}

/// Puts commits, and answers what stands for their names.
pub fn put_all(disk: &mut Disk, commits: &[Commit]) -> Result<Vec<Mark>, Fail> {
    let mut marks = Vec::new(disk.alloc);
    for (commit, number) in commits.iter().zip(NUMBERS) {
        put_one(disk, &mut marks, *number, *commit)?;
    }
    Ok(marks)
}

/// Puts commits.
pub fn put_commits(disk: &mut Disk, commits: &[Commit]) -> Result<(), Fail> {
    put_all(disk, commits)?;
    Ok(())
}

/// Makes a change to the files.
pub fn make(disk: &mut Disk, marks: &[Mark], change: Change) -> Result<(), Fail> {
    match change {
        Change::Nothing => Ok(()),
        Change::Gone(mark) => {
            let path = path_of(disk.alloc, &disk.folder, &name_of(marks, &mark))?;
            disk.store.remove(disk.alloc, path.as_str())?;
            Ok(())
        }
        Change::Damaged(mark) => put_under(disk, &name_of(marks, &mark), b"blob 1\0x"),
    }
}

fn read<K: OpKind>(
    disk: &mut Disk,
    marks: &[Mark],
    heads: Heads,
) -> Result<Entity<K>, EntityFault> {
    match heads {
        Heads::One(head) => read_one(disk, &name_of(marks, &head)),
        Heads::Two(one, two) => read_two(disk, &name_of(marks, &one), &name_of(marks, &two)),
    }
}

/// The fault with marks for names.
pub fn marked(marks: &[Mark], fault: EntityFault) -> EntityFault {
    match fault {
        EntityFault::Missing(name) => EntityFault::Missing(mark_of(marks, &name)),
        EntityFault::Damaged(name) => EntityFault::Damaged(mark_of(marks, &name)),
        EntityFault::NotCommit(name) => EntityFault::NotCommit(mark_of(marks, &name)),
        EntityFault::BadTree(name) => EntityFault::BadTree(mark_of(marks, &name)),
        EntityFault::UnknownVersion(name, number) => {
            EntityFault::UnknownVersion(mark_of(marks, &name), number)
        }
        EntityFault::NoOps(name) => EntityFault::NoOps(mark_of(marks, &name)),
        EntityFault::BadClock(name) => EntityFault::BadClock(mark_of(marks, &name)),
        EntityFault::BadPack(name) => EntityFault::BadPack(mark_of(marks, &name)),
        EntityFault::BadOperation(name, place, fault) => {
            EntityFault::BadOperation(mark_of(marks, &name), place, fault)
        }
        EntityFault::NoCreateClock(name) => EntityFault::NoCreateClock(mark_of(marks, &name)),
        EntityFault::ClockFull(name) => EntityFault::ClockFull(mark_of(marks, &name)),
        fault => marked_graph_fault(marks, fault),
    }
}

fn marked_graph_fault(marks: &[Mark], fault: EntityFault) -> EntityFault {
    match fault {
        EntityFault::SecondRoot(name) => EntityFault::SecondRoot(mark_of(marks, &name)),
        EntityFault::ClockOrder(high, low) => {
            EntityFault::ClockOrder(mark_of(marks, &high), mark_of(marks, &low))
        }
        EntityFault::ClockJump(high, low) => {
            EntityFault::ClockJump(mark_of(marks, &high), mark_of(marks, &low))
        }
        EntityFault::MergeHasOperations(name) => {
            EntityFault::MergeHasOperations(mark_of(marks, &name))
        }
        fault => fault,
    }
}

// Whether these are the names that the marks stand for.
fn is_order(marks: &[Mark], order: &[Name], wanted: &[Name]) -> bool {
    for (name, mark) in order.iter().zip(wanted) {
        if mark_of(marks, name) != *mark {
            return false;
        }
    }
    order.len() == wanted.len()
}

fn is_answer(marks: &[Mark], told: &Result<Told, EntityFault>, answer: Answer) -> bool {
    match (told, answer) {
        (Ok(told), Answer::Entity(order, edit, create)) => {
            is_order(marks, &told.order, order)
                && told.commits == order.len() as u64
                && told.edit == edit
                && told.create == create
        }
        (Err(fault), Answer::Fault(wanted)) => marked(marks, *fault) == wanted,
        _ => false,
    }
}

// Whether a graph is read so, by so many object reads.
fn is_read(
    alloc: Global,
    commits: &[Commit],
    heads: Heads,
    change: Change,
    answer: Answer,
    reads: u64,
) -> Result<bool, Fail> {
    let mut disk = Disk::new(alloc)?;
    let marks = put_all(&mut disk, commits)?;
    make(&mut disk, &marks, change)?;
    let entity = read::<BugOp>(&mut disk, &marks, heads);
    let told = told_of(&disk, entity)?;
    Ok(is_answer(&marks, &told, answer) && disk.store.reads() == reads)
}

/// The place of the first case that is not read as it says.
pub fn first_other(alloc: Global, cases: &[Case]) -> Result<Option<usize>, Fail> {
    for (place, case) in cases.iter().enumerate() {
        let Case(commits, heads, answer, reads) = *case;
        if !is_read(alloc, commits, heads, Change::Nothing, answer, reads)? {
            return Ok(Some(place));
        }
    }
    Ok(None)
}

/// The place of the first of these commits whose graph, of it above the root, has not this fault.
pub fn first_other_above(
    alloc: Global,
    root: Commit,
    rows: &[(Commit, EntityFault, u64)],
) -> Result<Option<usize>, Fail> {
    for (place, row) in rows.iter().enumerate() {
        let (commit, fault, reads) = *row;
        let commits = [root, commit];
        let answer = Answer::Fault(fault);
        if !is_read(
            alloc,
            &commits,
            Heads::One(C1),
            Change::Nothing,
            answer,
            reads,
        )? {
            return Ok(Some(place));
        }
    }
    Ok(None)
}

/// The place of the first of these changes by which the graph, below C1, has not this fault.
pub fn first_other_change(
    alloc: Global,
    commits: &[Commit],
    rows: &[(Change, EntityFault, u64)],
) -> Result<Option<usize>, Fail> {
    for (place, row) in rows.iter().enumerate() {
        let (change, fault, reads) = *row;
        if !is_read(
            alloc,
            commits,
            Heads::One(C1),
            change,
            Answer::Fault(fault),
            reads,
        )? {
            return Ok(Some(place));
        }
    }
    Ok(None)
}
