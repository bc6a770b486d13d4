//! The folders whose entries may not have reached the disk yet.
use crate::claim::Claim;
use crate::disk;
use crate::failure::{Call, Failure, at};
use std::alloc::{AllocError, Global};
use std::collections::BTreeSet;
use std::io::ErrorKind;
use std::rt::Files;

/// The folders in which files were put, or folders made or found, since each was last synced.
#[derive(Drop)]
pub struct Unsynced {
    folders: BTreeSet<String>,
}

impl Unsynced {
    /// No folder. Takes no memory.
    pub fn new(alloc: Global) -> Unsynced {
        Unsynced {
            folders: BTreeSet::new(alloc),
        }
    }

    /// Adds a folder.
    pub fn add(&mut self, alloc: Global, folder: &str) -> Result<(), AllocError> {
        if !self.folders.contains(folder) {
            self.folders.insert(String::from_str(alloc, folder)?)?;
        }
        Ok(())
    }

    /// Syncs each of the folders. Where one cannot be synced, it stays, and so do those after it.
    pub fn sync<R: Files>(
        &mut self,
        rt: &R,
        alloc: Global,
        claims: &[Claim],
    ) -> Result<(), Failure> {
        for _ in 0..self.folders.len() {
            let Some(folder) = self.folders.first() else {
                break;
            };
            sync_one(rt, alloc, claims, folder.as_str())?;
            let _ = self.folders.pop_first();
        }
        Ok(())
    }
}

// Syncs a folder, if it stands. One outside of the folders that the words name is passed over where it may not be opened.
fn sync_one<R: Files>(
    rt: &R,
    alloc: Global,
    claims: &[Claim],
    folder: &str,
) -> Result<(), Failure> {
    match disk::open_folder(rt, alloc, folder) {
        Ok(Some(open)) => at(alloc, Call::Sync, folder, disk::sync_folder(&open)),
        Ok(None) => Ok(()),
        Err(e) if e.kind() == ErrorKind::PermissionDenied && !is_claimed(claims, folder) => Ok(()),
        Err(e) => Err(Failure::new(alloc, Call::Enter, folder, e)),
    }
}

fn is_claimed(claims: &[Claim], folder: &str) -> bool {
    claims.iter().any(|claim| claim.holds(folder))
}
