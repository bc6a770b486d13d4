//! The locks of a run on the folders that its words name.
use crate::claim::{Claim, Purpose};
use crate::disk;
use crate::failure::{Call, Failure, at};
use crate::signals::again;
use crate::ways::front_at;
use std::alloc::Global;
use std::fs::{File, Metadata, TryLockError};
use std::io::ErrorKind;
use std::random::RandomSource;
use std::rt::{Clock, Files};
use std::time::Duration;
use std::{fs, io, thread};

// How often the locks are tried, and what is waited between two tries at least and at most. It is half a minute in all.
const TRIES: u32 = 3_000;

// What is said where all tries failed.
const HELD: &str = "another program has held its lock for half a minute";

const PAUSE_MICROS: u64 = 5_000;

const MORE_PAUSE_MICROS: u64 = 10_000;

/// What the locks of a run need of the system.
pub trait Locking: Files<File = File> + Clock + RandomSource {}

impl<R: Files<File = File> + Clock + RandomSource> Locking for R {}

/// The open folders on which a run holds a lock, until it ends in whatever way.
#[derive(Drop)]
pub struct Locks {
    held: Vec<Held>,
    made: Vec<String>,
    // Whether all folders in which the run writes are held, and those that stood when they were locked.
    is_begun: bool,
    // Whether no folder was missing.
    is_complete: bool,
    // Whether no file system lacks locks.
    is_locked: bool,
}

// An open folder, and which one it is.
#[derive(Drop)]
struct Held {
    entry: Metadata,
    _folder: File,
}

impl Locks {
    /// No lock. Takes no memory.
    pub fn none(alloc: Global) -> Locks {
        Locks {
            held: Vec::new(alloc),
            made: Vec::new(alloc),
            is_begun: false,
            is_complete: false,
            is_locked: false,
        }
    }

    /// Whether no other run is at work in the folders in which this one writes.
    pub fn are_alone(&self) -> bool {
        self.is_begun && self.is_locked
    }

    /// Takes the lock of each folder that stands, and makes the folders in which the run writes. All locks are taken at once
    /// or none, so that two runs over the same two folders don't wait for each other. Once all are held nothing is done. A
    /// folder that is only read and was missing is looked for again by each later call; meanwhile the other locks are kept.
    pub fn take<R: Locking>(
        &mut self,
        rt: &R,
        alloc: Global,
        claims: &[Claim],
    ) -> Result<(), Failure> {
        if self.is_complete {
            return Ok(());
        }
        let mut waited_for = ".";
        for _ in 0..TRIES {
            match self.try_all(rt, alloc, claims)? {
                None => return Ok(()),
                Some(claim) => waited_for = claim.path(),
            }
            at(alloc, Call::Lock, waited_for, pause(rt))?;
        }
        let said = io::Error::new(ErrorKind::WouldBlock, HELD);
        Err(Failure::new(alloc, Call::Lock, waited_for, said))
    }

    /// Removes the folders that were made for a lock and are empty still.
    pub fn leave<R: Files>(&mut self, rt: &R) {
        for _ in 0..self.made.len() {
            if let Some(folder) = self.made.pop() {
                let _ = fs::remove_dir(rt, folder.as_str());
            }
        }
    }

    // Takes all locks, or none where another run holds one, and gives the folder of that. Once it has begun only folders that
    // are read can be lacking: two runs that both hold one and lack the other cannot be, since each makes its own first.
    fn try_all<'a, R: Locking>(
        &mut self,
        rt: &R,
        alloc: Global,
        claims: &'a [Claim],
    ) -> Result<Option<&'a Claim>, Failure> {
        self.is_complete = true;
        if self.is_begun {
            return self.try_those(rt, alloc, claims, Purpose::Read);
        }
        self.is_locked = true;
        self.held.clear();
        let mut waited_for = self.try_those(rt, alloc, claims, Purpose::Write)?;
        let are_written_held = self.is_complete;
        if waited_for.is_none() {
            waited_for = self.try_those(rt, alloc, claims, Purpose::Read)?;
        }
        if waited_for.is_some() {
            self.held.clear();
        }
        self.is_begun = are_written_held && waited_for.is_none();
        Ok(waited_for)
    }

    // Takes the locks of the folders that the run claims for this. If another run holds one, it gives the folder of that.
    fn try_those<'a, R: Locking>(
        &mut self,
        rt: &R,
        alloc: Global,
        claims: &'a [Claim],
        purpose: Purpose,
    ) -> Result<Option<&'a Claim>, Failure> {
        for claim in claims {
            if claim.purpose == purpose && !self.try_one(rt, alloc, claim)? {
                self.is_complete = false;
                return Ok(Some(claim));
            }
        }
        Ok(None)
    }

    // Takes the lock of a folder, and says whether no other run holds it.
    fn try_one<R: Locking>(
        &mut self,
        rt: &R,
        alloc: Global,
        claim: &Claim,
    ) -> Result<bool, Failure> {
        let Some(folder) = self.open(rt, alloc, claim)? else {
            self.is_complete = false;
            return Ok(true);
        };
        let entry = at(alloc, Call::Look, claim.path(), again(|| folder.metadata()))?;
        if self
            .held
            .iter()
            .any(|held| disk::is_same(&held.entry, &entry))
        {
            return Ok(true);
        }
        match try_lock(&folder, claim.purpose) {
            Ok(()) => {}
            Err(TryLockError::WouldBlock) => return Ok(false),
            // The file system has no locks.
            Err(TryLockError::Error(_)) => self.is_locked = false,
        }
        let still = at(
            alloc,
            Call::Look,
            claim.path(),
            disk::target_at(rt, claim.path()),
        )?;
        if !still.is_some_and(|still| disk::is_same(&still, &entry)) {
            return Ok(false);
        }
        self.held.push(Held {
            entry,
            _folder: folder,
        })?;
        Ok(true)
    }

    // Opens a folder. Where it is to be written and is missing, it is made.
    fn open<R: Files<File = File>>(
        &mut self,
        rt: &R,
        alloc: Global,
        claim: &Claim,
    ) -> Result<Option<File>, Failure> {
        let folder = claim.path();
        let found = at(
            alloc,
            Call::Enter,
            folder,
            disk::open_folder(rt, alloc, folder),
        )?;
        if found.is_some() || claim.purpose == Purpose::Read {
            return Ok(found);
        }
        match self.make(rt, alloc, folder) {
            Err(e) if e.kind() == ErrorKind::OutOfMemory => {
                Err(Failure::new(alloc, Call::Make, folder, e))
            }
            Err(_) => Ok(None),
            Ok(()) => at(
                alloc,
                Call::Enter,
                folder,
                disk::open_folder(rt, alloc, folder),
            ),
        }
    }

    // Makes a folder with those above it.
    fn make<R: Files>(&mut self, rt: &R, alloc: Global, folder: &str) -> io::Result<()> {
        for end in 0..folder.len() {
            if let Some(front) = front_at(folder, end) {
                self.make_one(rt, alloc, front)?;
            }
        }
        self.make_one(rt, alloc, folder)
    }

    fn make_one<R: Files>(&mut self, rt: &R, alloc: Global, folder: &str) -> io::Result<()> {
        if disk::target_at(rt, folder)?.is_some() {
            return Ok(());
        }
        let name = String::from_str(alloc, folder)?;
        if disk::make_folder(rt, folder)? {
            self.made.push(name)?;
        }
        Ok(())
    }
}

fn try_lock(folder: &File, purpose: Purpose) -> Result<(), TryLockError> {
    match purpose {
        Purpose::Read => folder.try_lock_shared(),
        Purpose::Write => folder.try_lock(),
    }
}

// Waits a little, for another time each time.
fn pause<R: Locking>(rt: &R) -> io::Result<()> {
    let mut bytes = [0u8; 8];
    again(|| rt.fill_bytes(&mut bytes))?;
    let more = u64::from_le_bytes(bytes) % MORE_PAUSE_MICROS;
    thread::sleep(rt, Duration::from_micros(PAUSE_MICROS + more));
    Ok(())
}
