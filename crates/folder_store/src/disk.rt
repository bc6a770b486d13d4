//! The calls of the system on files and folders.
ghost use Rattle.std.specs.Prelude.{◌↔◌, ℕ, List, Contains, IfOk};
ghost use Rattle.std.specs.Cmp.Lexicographic.{slice_cmp};
ghost use Rattle.std.specs.List.Sorted.{IsStrictlySortedBy};
ghost use Rattle.std.specs.Ordering.{nat_cmp};
ghost use Rattle.gb_store.specs.Files.{IsWithin};

use crate::signals::{MOST_SIGNALS, again};
use crate::temporary::{is_temporary, temporary_path};
use gb_store::Content;
use gb_text::{Bytes, Text};
use std::alloc::Global;
use std::fs::{Metadata, OpenFile, OpenOptions, Permissions, ReadDir};
use std::io::{ErrorKind, Read, Write};
use std::os::unix::fs::{MetadataExt, OpenOptionsExt, PermissionsExt};
use std::random::RandomSource;
use std::rt::Files;
use std::{fs, io};

// How many names of temporary files are tried.
const NAMES: u32 = 16;

// The mode of a new file, which the system narrows.
const NEW_MODE: u32 = 0o666;

/// What stands at a path: a plain file of at most `limit` bytes, or one that has more, of which no more than one byte
/// past the limit is read. All else is no file, a link too.
pub fn read<R: Files>(rt: &R, alloc: Global, path: &str, limit: u64) -> io::Result<Content>
    ensures within { IfOk result (IsWithin limit) }
{
    match open_file(rt, path)? {
        Some((file, size)) => read_from(alloc, file, size, limit),
        None => Ok(Content::Absent),
    }
}

/// The same, after the file has reached the disk.
pub fn read_synced<R: Files>(rt: &R, alloc: Global, path: &str, limit: u64) -> io::Result<Content>
    ensures within { IfOk result (IsWithin limit) }
{
    let Some((file, size)) = open_file(rt, path)? else {
        return Ok(Content::Absent);
    };
    file.sync_all()?;
    read_from(alloc, file, size, limit)
}

/// What an open file holds, which had so many bytes when it was looked at: at most `limit` bytes, or that it has more.
pub fn read_from<F: Read + Drop>(
    alloc: Global,
    file: F,
    size: u64,
    limit: u64,
) -> io::Result<Content>
    ensures within { IfOk result (IsWithin limit) }
{
    let mut file = file;
    let mut bytes = Vec::new(alloc);
    let most = limit.saturating_add(1);
    if !is_read_at_once(&mut file, &mut bytes, size, most)? {
        let left = most.saturating_sub(bytes.len() as u64);
        file.take(left).read_to_end(&mut bytes)?;
    }
    if bytes.len() as u64 > limit {
        return Ok(Content::Long);
    }
    Ok(Content::Whole(Bytes::from_vec(bytes)))
}

// Reads the start of a file with one call, which asks for one byte more than the file had when it was looked at, but for no
// more than `most`. Whether that was the whole file: it was if the file has neither grown nor shrunk since.
fn is_read_at_once<F: Read>(
    file: &mut F,
    bytes: &mut Vec<u8>,
    size: u64,
    most: u64,
) -> io::Result<bool> {
    bytes.resize(size.saturating_add(1).min(most) as usize, 0)?;
    match file.read(bytes.as_mut_slice()) {
        Ok(count) => {
            bytes.truncate(count);
            Ok(count as u64 == size)
        }
        Err(e) if e.kind() == ErrorKind::Interrupted => {
            bytes.clear();
            Ok(false)
        }
        Err(e) => Err(e),
    }
}

// Opens the plain file at a path, and says how many bytes it had. A pipe there would make the call wait, so the path is
// looked at first.
fn open_file<R: Files>(rt: &R, path: &str) -> io::Result<Option<(R::File, u64)>> {
    let Some(entry) = file_at(rt, path)? else {
        return Ok(None);
    };
    Ok(open_plain(rt, path)?.map(|file| (file, entry.len())))
}

/// Opens what stands at a path, which was looked at. None where nothing stands there any more.
pub fn open_plain<R: Files>(rt: &R, path: &str) -> io::Result<Option<R::File>> {
    match fs::open(rt, path) {
        Ok(file) => Ok(Some(file)),
        Err(e) if is_absence(&e) => Ok(None),
        Err(e) => Err(e),
    }
}

/// Opens the folder at a path, where links are followed. None where no folder stands there; a pipe is not waited for.
pub fn open_folder<R: Files>(rt: &R, alloc: Global, path: &str) -> io::Result<Option<R::File>> {
    let inside = format!(in alloc; "{path}/.")?;
    open_plain(rt, inside.as_str())
}

/// The names of the plain files right in a folder but the temporary ones, each once, in byte order. Where a signal
/// interrupts the listing it is made again from the start.
pub fn list<R: Files + AllocGlobal + Clone + Drop>(
    rt: &R,
    alloc: Global,
    dir: &str,
) -> io::Result<Vec<Text>>
    ensures { IfOk result (λ names. IsStrictlySortedBy (slice_cmp nat_cmp) names.items) }
{
    Ok(in_order(again(|| names_in(rt, alloc, dir))?))
}

// The names of the plain files right in a folder but the temporary ones, in any order.
fn names_in<R: Files + AllocGlobal + Clone + Drop>(
    rt: &R,
    alloc: Global,
    dir: &str,
) -> io::Result<Vec<Text>> {
    let mut names = Vec::new(alloc);
    for entry in entries_of(rt, dir)? {
        let entry = entry?;
        let name = entry.file_name();
        if !is_temporary(name) && file_at(rt, entry.path().as_str())?.is_some() {
            names.push(Text::from_str(alloc, name).map_err(|_| want_of_memory())?)?;
        }
    }
    Ok(names)
}

// All that stands right in a folder.
fn entries_of<R: Files + AllocGlobal + Clone + Drop>(
    rt: &R,
    folder: &str,
) -> io::Result<ReadDir<R, Global>> {
    for _ in 0..MOST_SIGNALS {
        match fs::read_dir(rt, folder) {
            Err(e) if e.kind() == ErrorKind::Interrupted => {}
            done => return done,
        }
    }
    Err(io::Error::from(ErrorKind::Interrupted))
}

// The same names in byte order, each once.
fn in_order(names: Vec<Text>) -> Vec<Text>
    ensures rising { IsStrictlySortedBy (slice_cmp nat_cmp) result.items }
    ensures members { (name : List ℕ) → Contains result.items name ↔ Contains names.items name }
{
    let mut names = names;
    names.sort_unstable();
    names.dedup();
    names
}

/// Puts a whole file at a path of a folder, by way of a new file in the same folder: at each moment what stands at the path
/// is what stood there before, or all of the bytes, which have reached the disk. A file that stood there keeps its mode, if one
/// may have stood there; a link that stood there is replaced and not followed.
pub fn put<R: Files + RandomSource>(
    rt: &R,
    alloc: Global,
    folder: &str,
    path: &str,
    bytes: &[u8],
    may_stand: bool,
) -> io::Result<()> {
    let mode = match may_stand {
        true => file_at(rt, path)?.map(|entry| entry.mode() & 0o777),
        false => None,
    };
    for _ in 0..NAMES {
        let temporary = temporary_path(rt, alloc, folder)?;
        match create_new(rt, temporary.as_str(), mode) {
            Ok(file) => return finish_put(rt, file, temporary.as_str(), path, bytes),
            Err(e) if e.kind() == ErrorKind::AlreadyExists => {}
            Err(e) => return Err(e),
        }
    }
    Err(io::Error::from(ErrorKind::AlreadyExists))
}

// Makes a file where nothing stands, not even a link.
fn create_new<R: Files>(rt: &R, path: &str, mode: Option<u32>) -> io::Result<R::File> {
    let mut options = OpenOptions::new();
    options.write(true).create_new(true);
    options.mode(mode.unwrap_or(NEW_MODE));
    let file = options.open(rt, path)?;
    if let Some(mode) = mode {
        let _ = file.set_permissions(Permissions::from_mode(mode));
    }
    Ok(file)
}

// Writes a new file, has it reach the disk, and moves it to its path. Where that fails it is removed, if it can be.
fn finish_put<R: Files>(
    rt: &R,
    file: R::File,
    temporary: &str,
    path: &str,
    bytes: &[u8],
) -> io::Result<()> {
    let done = write_synced::<R>(file, bytes).and_then(|_| again(|| fs::rename(
        rt, temporary, path,
    )));
    if done.is_err() {
        let _ = again(|| fs::remove_file(rt, temporary));
    }
    done
}

// Writes a file whose bytes have reached the disk when it is closed.
fn write_synced<R: Files>(mut file: R::File, bytes: &[u8]) -> io::Result<()> {
    file.write_all(bytes)?;
    file.sync_all()
}

/// Removes the file at a path, if one stands there.
pub fn remove<R: Files>(rt: &R, path: &str) -> io::Result<()> {
    if file_at(rt, path)?.is_some() {
        again(|| fs::remove_file(rt, path))?;
    }
    Ok(())
}

/// Removes the temporary files right in a folder, as far as they can be.
pub fn remove_temporaries<R: Files + AllocGlobal + Clone + Drop>(
    rt: &R,
    folder: &str,
) -> io::Result<()> {
    for entry in entries_of(rt, folder)? {
        if let Ok(entry) = entry {
            if is_temporary(entry.file_name()) {
                let _ = again(|| fs::remove_file(rt, entry.path()));
            }
        }
    }
    Ok(())
}

/// Makes a folder, and says whether this call made it.
pub fn make_folder<R: Files>(rt: &R, folder: &str) -> io::Result<bool> {
    match again(|| fs::create_dir(rt, folder)) {
        Ok(()) => Ok(true),
        Err(e) if e.kind() == ErrorKind::AlreadyExists => Ok(false),
        Err(e) => Err(e),
    }
}

/// Has the entries of an open folder reach the disk. A file system that cannot do so for folders says that the call is
/// invalid, which is no fault.
pub fn sync_folder<F: OpenFile>(folder: &F) -> io::Result<()> {
    match folder.sync_all() {
        Err(e) if e.kind() == ErrorKind::InvalidInput => Ok(()),
        done => done,
    }
}

/// What stands at a path, itself, where a link is not followed. Nothing stands below a plain file.
pub fn entry_at<R: Files>(rt: &R, path: &str) -> io::Result<Option<Metadata>> {
    found(again(|| fs::symlink_metadata(rt, path)))
}

/// What a path names, where links are followed.
pub fn target_at<R: Files>(rt: &R, path: &str) -> io::Result<Option<Metadata>> {
    found(again(|| fs::metadata(rt, path)))
}

/// The plain file at a path.
pub fn file_at<R: Files>(rt: &R, path: &str) -> io::Result<Option<Metadata>> {
    Ok(entry_at(rt, path)?.filter(|entry| entry.is_file()))
}

/// Whether two looks saw one file.
pub fn is_same(one: &Metadata, two: &Metadata) -> bool {
    one.dev() == two.dev() && one.ino() == two.ino()
}

fn found(entry: io::Result<Metadata>) -> io::Result<Option<Metadata>> {
    match entry {
        Ok(entry) => Ok(Some(entry)),
        Err(e) if is_absence(&e) => Ok(None),
        Err(e) => Err(e),
    }
}

fn is_absence(error: &io::Error) -> bool {
    matches!(error.kind(), ErrorKind::NotFound | ErrorKind::NotADirectory)
}

/// The error that says that memory ran out.
pub fn want_of_memory() -> io::Error {
    io::Error::from(ErrorKind::OutOfMemory)
}
