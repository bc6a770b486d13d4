//! What a run has read of packed refs. A command may ask for them once for each ref that it looks up; the file is read
//! again only where it has changed since.
ghost use Rattle.std.specs.Prelude.{◌≡◌, IfOk};
ghost use Rattle.gb_store.specs.Files.{IsWithin};

use crate::disk;
use crate::lock::Locking;
use gb_store::Content;
use gb_text::Bytes;
use std::alloc::Global;
use std::fs::{File, Metadata};
use std::io;
use std::os::unix::fs::MetadataExt;

/// The files of packed refs that were read whole, each by its path.
#[derive(Drop)]
pub struct PackedFiles {
    kept: Vec<Kept>,
}

// A file as it was read. It stays open, so that the system gives its number to no other file.
#[derive(Drop)]
struct Kept {
    path: String,
    entry: Metadata,
    text: Bytes,
    _file: File,
}

impl PackedFiles {
    /// None. Takes no memory.
    pub fn none(alloc: Global) -> PackedFiles {
        PackedFiles {
            kept: Vec::new(alloc),
        }
    }

    /// What stands at a path, as `disk::read` answers it. A file that is the same as when it was read, by what a look at its
    /// path shows, is not opened again.
    pub fn read<R: Locking>(
        &mut self,
        rt: &R,
        alloc: Global,
        path: &str,
        limit: u64,
    ) -> io::Result<Content>
        ensures within { IfOk result (IsWithin limit) }
    {
        let Some(entry) = disk::file_at(rt, path)? else {
            return Ok(Content::Absent);
        };
        for kept in &self.kept {
            if kept.path.as_str() == path && is_unchanged(&kept.entry, &entry) {
                return copy_of(alloc, kept.text.as_slice(), limit);
            }
        }
        let Some(file) = disk::open_plain(rt, path)? else {
            return Ok(Content::Absent);
        };
        let content = disk::read_from(alloc, &file, entry.len(), limit)?;
        self.keep(alloc, path, entry, &content, file)?;
        Ok(content)
    }

    // Keeps what was read of an open file, if it is whole and the file is still as it was before it was read.
    fn keep(
        &mut self,
        alloc: Global,
        path: &str,
        entry: Metadata,
        content: &Content,
        file: File,
    ) -> io::Result<()> {
        self.kept.retain(|kept| kept.path.as_str() != path);
        let (Content::Whole(text), Ok(now)) = (content, file.metadata()) else {
            return Ok(());
        };
        if is_unchanged(&entry, &now) {
            self.kept.push(Kept {
                path: String::from_str(alloc, path)?,
                entry,
                text: copied(alloc, text.as_slice())?,
                _file: file,
            })?;
        }
        Ok(())
    }
}

// Whether two looks saw one file that nobody wrote between them.
fn is_unchanged(one: &Metadata, two: &Metadata) -> bool {
    disk::is_same(one, two)
        && one.len() == two.len()
        && one.mtime() == two.mtime()
        && one.mtime_nsec() == two.mtime_nsec()
        && one.ctime() == two.ctime()
        && one.ctime_nsec() == two.ctime_nsec()
}

// The same as if it had been read now.
fn copy_of(alloc: Global, text: &[u8], limit: u64) -> io::Result<Content>
    ensures within { IfOk result (IsWithin limit) }
{
    if text.len() as u64 > limit {
        return Ok(Content::Long);
    }
    Ok(Content::Whole(copied(alloc, text)?))
}

fn copied(alloc: Global, text: &[u8]) -> io::Result<Bytes>
    ensures { IfOk result (λ copy. copy ≡ text.now) }
{
    Bytes::from_slice(alloc, text).map_err(|_| disk::want_of_memory())
}
