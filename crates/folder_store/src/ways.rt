//! The folders on the way to a path.
use crate::claim::Claim;
use crate::disk;
use crate::failure::{Call, Failure, at};
use crate::place::folder_of;
use crate::unsynced::Unsynced;
use std::alloc::{AllocError, Global};
use std::collections::BTreeSet;
use std::io;
use std::io::ErrorKind;
use std::rt::Files;

/// What is known of the folders on the ways to paths. Below the folder that the words name none of them is a link.
#[derive(Drop)]
pub struct Ways {
    seen: BTreeSet<String>,
    entered: BTreeSet<String>,
}

impl Ways {
    /// Nothing is known. Takes no memory.
    pub fn new(alloc: Global) -> Ways {
        Ways {
            seen: BTreeSet::new(alloc),
            entered: BTreeSet::new(alloc),
        }
    }

    /// Whether a folder stands, with all above it. A link in the way is an error.
    pub fn stands<R: Files>(
        &mut self,
        rt: &R,
        alloc: Global,
        claim: &Claim,
        folder: &str,
    ) -> Result<bool, Failure> {
        if self.seen.contains(folder) {
            return Ok(true);
        }
        if !self.seen.contains(folder_of(folder)) {
            for end in 0..folder.len() {
                if let Some(front) = front_at(folder, end) {
                    if !self.is_folder(rt, alloc, claim, front)? {
                        return Ok(false);
                    }
                }
            }
        }
        self.look(rt, alloc, claim, folder)
    }

    /// Makes a folder with those above it, as far as they are missing, and adds each folder above it to those that are to be
    /// synced, since nobody knows whether what was found there has reached the disk.
    pub fn enter<R: Files>(
        &mut self,
        rt: &R,
        alloc: Global,
        claim: &Claim,
        folder: &str,
        unsynced: &mut Unsynced,
    ) -> Result<(), Failure> {
        if self.entered.contains(folder) {
            return Ok(());
        }
        for end in 0..folder.len() {
            if let Some(front) = front_at(folder, end) {
                self.enter_one(rt, alloc, claim, front, unsynced)?;
            }
        }
        self.enter_one(rt, alloc, claim, folder, unsynced)
    }

    // The same for a folder whose folders above stand.
    fn enter_one<R: Files>(
        &mut self,
        rt: &R,
        alloc: Global,
        claim: &Claim,
        folder: &str,
        unsynced: &mut Unsynced,
    ) -> Result<(), Failure> {
        if self.entered.contains(folder) {
            return Ok(());
        }
        unsynced.add(alloc, folder_of(folder))?;
        if !self.is_folder(rt, alloc, claim, folder)? {
            at(alloc, Call::Make, folder, disk::make_folder(rt, folder))?;
            if !self.is_folder(rt, alloc, claim, folder)? {
                return Err(refused(alloc, folder, "a file has its name"));
            }
        }
        add(alloc, &mut self.entered, folder)?;
        Ok(())
    }

    // Whether a folder stands, where those above it do.
    fn is_folder<R: Files>(
        &mut self,
        rt: &R,
        alloc: Global,
        claim: &Claim,
        folder: &str,
    ) -> Result<bool, Failure> {
        if self.seen.contains(folder) {
            return Ok(true);
        }
        self.look(rt, alloc, claim, folder)
    }

    // The same for a folder that was not seen before.
    fn look<R: Files>(
        &mut self,
        rt: &R,
        alloc: Global,
        claim: &Claim,
        folder: &str,
    ) -> Result<bool, Failure> {
        let looked = if claim.covers(folder) {
            disk::entry_at(rt, folder)
        } else {
            disk::target_at(rt, folder)
        };
        match at(alloc, Call::Look, folder, looked)? {
            Some(entry) if entry.is_dir() => {
                add(alloc, &mut self.seen, folder)?;
                Ok(true)
            }
            Some(entry) if entry.is_symlink() => {
                Err(refused(alloc, folder, "it is a link, and links are not followed"))
            }
            _ => Ok(false),
        }
    }
}

/// The front of a folder that ends before a slash.
pub fn front_at(folder: &str, end: usize) -> Option<&str> {
    match folder.split_at_checked(end) {
        Some((front, rest)) if !front.is_empty() && rest.starts_with('/') => Some(front),
        _ => None,
    }
}

// A folder that is not entered, and why.
fn refused(alloc: Global, folder: &str, why: &str) -> Failure {
    let said = io::Error::new(ErrorKind::NotADirectory, why);
    Failure::new(alloc, Call::Enter, folder, said)
}

fn add(alloc: Global, folders: &mut BTreeSet<String>, folder: &str) -> Result<(), AllocError> {
    folders.insert(String::from_str(alloc, folder)?)?;
    Ok(())
}
