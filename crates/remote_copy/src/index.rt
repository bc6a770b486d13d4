//! What a copy has met.
ghost use Rattle.std.specs.Prelude.{◌≡◌, OnOk, None};
ghost use Rattle.std.specs.BTreeSet.{contains};
ghost use Rattle.gb_text.specs.declared.id.Name.{Name as NameValue};
ghost use Rattle.git_object.specs.declared.frame.Kind.{Kind as KindValue};
ghost use Rattle.remote_copy.specs.Index.{IsHeight, Notes, Sets, WasOpened, by_bytes, level_of, mark_of};

use crate::need::Need;
use gb_text::{Memory, Name};
use git_object::Kind;
use std::alloc::Global;
use std::collections::{BTreeMap, BTreeSet};

/// How far an object has come.
#[derive(Clone, Copy, Debug, PartialEq, Eq)]
pub enum Mark {
    /// What it names is not done yet.
    Open,
    /// It stands, and all that it leads to. So many trees lie below it, one below the other, if it
    /// is a tree.
    Done(usize),
}

/// The objects that were met, each by its name as one of a kind, in sets that are in order: no
/// names that a peer chose can make a look-up slow.
#[derive(Drop)]
pub struct Index {
    pub blobs: BTreeMap<Name, Mark>,
    pub trees: BTreeMap<Name, Mark>,
    pub commits: BTreeMap<Name, Mark>,
    /// The names of those that were opened, of whatever kind.
    pub opened: BTreeSet<Name>,
}

impl Index {
    /// Nothing was met.
    pub fn new(alloc: Global) -> Index
        ensures marks { (kind : KindValue) (name : NameValue) → mark_of result kind name ≡ None }
        ensures names { (name : NameValue) → WasOpened result name → ⊥ }
    {
        Index {
            blobs: BTreeMap::new(alloc),
            trees: BTreeMap::new(alloc),
            commits: BTreeMap::new(alloc),
            opened: BTreeSet::new(alloc),
        }
    }

    /// How far an object has come, if it was met.
    pub fn get(&self, need: &Need) -> Option<Mark>
        ensures { result ≡ mark_of self.now need.now.kind need.now.name }
    {
        match need.kind {
            Kind::Blob => self.blobs.get(&need.name).copied(),
            Kind::Tree => self.trees.get(&need.name).copied(),
            Kind::Commit => self.commits.get(&need.name).copied(),
        }
    }

    /// Whether the object of a name was opened, as one of any kind.
    pub fn was_opened(&self, name: &Name) -> bool
        ensures { result ≡ contains by_bytes self.now.opened name.now }
    {
        self.opened.contains(name)
    }

    /// Says how far an object has come. From then on one that is open was opened.
    pub fn set(&mut self, need: &Need, mark: Mark) -> Result<(), Memory>
        ensures { OnOk result (Sets self.old self.new need.now mark) }
    {
        self.note(need, mark)?;
        match need.kind {
            Kind::Blob => {
                self.blobs.insert(need.name, mark)?;
            }
            Kind::Tree => {
                self.trees.insert(need.name, mark)?;
            }
            Kind::Commit => {
                self.commits.insert(need.name, mark)?;
            }
        }
        Ok(())
    }

    // Keeps the name of an object that is open.
    fn note(&mut self, need: &Need, mark: Mark) -> Result<(), Memory>
        ensures { OnOk result (Notes self.old self.new need.now mark) }
    {
        if mark == Mark::Open {
            self.opened.insert(need.name)?;
        }
        Ok(())
    }

    /// How many trees lie below one that names these, one below the other, where all are done.
    pub fn height(&self, needs: &[Need]) -> usize
        ensures { IsHeight self.now needs.now result }
    {
        let mut height = 0;
        for need in needs {
            let level = self.level(need);
            if level > height {
                height = level;
            }
        }
        height
    }

    // How many trees there are from this object down, one below the other, if it is a tree.
    fn level(&self, need: &Need) -> usize
        ensures { result ≡ level_of self.now need.now }
    {
        match (need.kind, self.get(need)) {
            (Kind::Tree, Some(Mark::Done(height))) => height.saturating_add(1),
            _ => 0,
        }
    }
}
