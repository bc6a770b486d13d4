//! Which versions of a chain were judged already.
ghost use Rattle.std.specs.Prelude.{◌≡◌, ◌≤◌, ◌+◌, ◌*◌, true, IsTrue, IsErrOf, OnOk, length};
ghost use Rattle.std.specs.BTreeSet.{contains, IsEmpty, Updates};
ghost use Rattle.gb_text.specs.declared.id.Name.{Name as NameValue};
ghost use Rattle.gb_store.specs.Faults.{KeepsFaults};
ghost use Rattle.object_store.specs.Held.{Objects, objects_after};
ghost use Rattle.identity.specs.Commits.{NamesVersion};
ghost use Rattle.identity.specs.Knowing.{AreKnown, EachAnswers, IsVersion, KnowingAnswers, LearnsEach, LearnsOne, ObjectAnswers, StaysKnown};

use crate::commit::{judge, version_name};
use crate::fault::IdentityFault;
use commit_walk::Link;
use gb_store::Store;
use gb_text::{Folder, Memory, Name};
use std::alloc::Global;
use std::collections::BTreeSet;

/// What was judged: trees that name a version without keys, and objects that are one.
#[derive(Drop)]
pub struct Known {
    pub trees: BTreeSet<Name>,
    pub objects: BTreeSet<Name>,
}

impl Known {
    /// Nothing yet.
    pub fn none(alloc: Global) -> Known
        ensures are { (objects : Objects) → AreKnown objects result }
        ensures trees { IsEmpty result.trees }
        ensures objects { IsEmpty result.objects }
    {
        Known {
            trees: BTreeSet::new(alloc),
            objects: BTreeSet::new(alloc),
        }
    }

    /// A tree that names a version, and the object that it is.
    pub fn add(&mut self, tree: Name, object: Name) -> Result<(), Memory>
        ensures are { OnOk result ((objects : Objects) → AreKnown objects self.old
            → NamesVersion objects tree object → IsVersion objects object
            → AreKnown objects self.new) }
        ensures trees { OnOk result
            (Updates ⟦<Name as Ord>⟧.cmp self.old.trees self.new.trees tree true) }
        ensures objects { OnOk result
            (Updates ⟦<Name as Ord>⟧.cmp self.old.objects self.new.objects object true) }
    {
        self.trees.insert(tree)?;
        self.objects.insert(object)?;
        Ok(())
    }

    /// Judges the version of a commit. Nothing is read where its tree is known, and the tree alone
    /// where that names a known object. What was judged is known from then on, so each tree and each
    /// version of a chain is read once.
    pub fn judge<S: Store>(
        &mut self,
        alloc: Global,
        disk: &mut S,
        folder: &Folder,
        link: &Link,
    ) -> Result<(), IdentityFault>
        ensures answers { IsTrue S.tells
            → AreKnown (objects_after (S.history disk.old) folder.now) self.old
            → KnowingAnswers (objects_after (S.history disk.old) folder.now) link.now self.new
            result }
        ensures unwritten { IsTrue S.tells → S.history disk.new ≡ S.history disk.old }
        ensures reads { S.object_reads disk.new ≤ S.object_reads disk.old + 2 }
        ensures same_tree { IsTrue (contains ⟦<Name as Ord>⟧.cmp self.old.trees link.now.tree)
            → S.object_reads disk.new ≡ S.object_reads disk.old }
        ensures same_object { (object : NameValue) → IsTrue S.tells
            → NamesVersion (objects_after (S.history disk.old) folder.now) link.now.tree object
            → IsTrue (contains ⟦<Name as Ord>⟧.cmp self.old.objects object)
            → S.object_reads disk.new ≤ S.object_reads disk.old + 1 }
        ensures known { OnOk result
            (IsTrue (contains ⟦<Name as Ord>⟧.cmp self.new.trees link.now.tree)) }
        ensures kept { OnOk result (StaysKnown self.old self.new) }
        ensures once { IsTrue S.tells
            → OnOk result (LearnsOne (objects_after (S.history disk.old) folder.now) link.now
            self.old self.new (S.object_reads disk.old) (S.object_reads disk.new)) }
        ensures caused { KeepsFaults S.never_fails S.faults (IsErrOf result IdentityFault.Disk)
            disk.old disk.new }
    {
        if self.trees.contains(&link.tree) {
            return Ok(());
        }
        let object = version_name(alloc, disk, folder, link)?;
        self.judge_object(alloc, disk, folder, link, object)?;
        self.add(link.tree, object)?;
        Ok(())
    }

    // Judges the object that the tree of a commit names, unless it is known.
    fn judge_object<S: Store>(
        &self,
        alloc: Global,
        disk: &mut S,
        folder: &Folder,
        link: &Link,
        object: Name,
    ) -> Result<(), IdentityFault>
        ensures answers { IsTrue S.tells
            → AreKnown (objects_after (S.history disk.old) folder.now) self.now
            → NamesVersion (objects_after (S.history disk.old) folder.now) link.now.tree object
            → ObjectAnswers (objects_after (S.history disk.old) folder.now) link.now object
            result }
        ensures unwritten { IsTrue S.tells → S.history disk.new ≡ S.history disk.old }
        ensures reads { S.object_reads disk.new ≤ S.object_reads disk.old + 1 }
        ensures known { IsTrue (contains ⟦<Name as Ord>⟧.cmp self.now.objects object)
            → S.object_reads disk.new ≡ S.object_reads disk.old }
        ensures caused { KeepsFaults S.never_fails S.faults (IsErrOf result IdentityFault.Disk)
            disk.old disk.new }
    {
        if self.objects.contains(&object) {
            return Ok(());
        }
        judge(alloc, disk, folder, link, object)?;
        Ok(())
    }

    /// The same of each of these commits.
    pub fn judge_each<S: Store>(
        &mut self,
        alloc: Global,
        disk: &mut S,
        folder: &Folder,
        links: &[Link],
    ) -> Result<(), IdentityFault>
        ensures answers { IsTrue S.tells
            → AreKnown (objects_after (S.history disk.old) folder.now) self.old
            → EachAnswers (objects_after (S.history disk.old) folder.now) links.now result }
        ensures unwritten { IsTrue S.tells → S.history disk.new ≡ S.history disk.old }
        ensures reads { S.object_reads disk.new ≤ S.object_reads disk.old + 2 * length links.now }
        ensures once { IsTrue S.tells
            → OnOk result (LearnsEach (objects_after (S.history disk.old) folder.now) links.now
            self.old self.new (S.object_reads disk.old) (S.object_reads disk.new)) }
        ensures caused { KeepsFaults S.never_fails S.faults (IsErrOf result IdentityFault.Disk)
            disk.old disk.new }
    {
        for link in links {
            self.judge(alloc, disk, folder, link)?;
        }
        Ok(())
    }
}
