//! A source and a target in one store in memory.
use fixtures::{Disk, push_entry, put_commit, put_object};
use gb_text::{Folder, Name};
use git_object::Kind;
use remote_copy::{CopyFault, copy};
use std::alloc::Global;
use std::test::Fail;

/// A source `a` and a target `b`.
#[derive(Drop)]
pub struct Sides {
    pub disk: Disk,
    target: Folder,
}

impl Sides {
    /// Both with nothing in them.
    pub fn new(alloc: Global) -> Result<Sides, Fail> {
        let disk = Disk::at(alloc, "a", &[])?;
        let target = Folder::read(alloc, "b")?;
        Ok(Sides { disk, target })
    }

    /// Copies a head, and answers how many objects are put.
    pub fn copy(&mut self, head: &Name, closed: bool) -> Result<u64, CopyFault> {
        let disk = &mut self.disk;
        let (source, target) = (&disk.folder, &self.target);
        if source.overlaps(target) {
            return Err(CopyFault::Disk);
        }
        copy(disk.alloc, &mut disk.store, source, target, head, closed)
    }

    /// Puts a tree with these entries: mode, name, object.
    pub fn tree(&mut self, entries: &[(&str, &str, Name)]) -> Result<Name, Fail> {
        let mut content = Vec::new(self.disk.alloc);
        for (mode, name, object) in entries {
            push_entry(&mut content, mode, name, object)?;
        }
        put_object(&mut self.disk, Kind::Tree, &content)
    }

    /// Puts a commit of such a tree, with these parents.
    pub fn commit(
        &mut self,
        entries: &[(&str, &str, Name)],
        parents: &[Name],
    ) -> Result<Name, Fail> {
        let tree = self.tree(entries)?;
        put_commit(&mut self.disk, &tree, parents)
    }
}
