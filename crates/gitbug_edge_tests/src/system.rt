//! Single calls on the system and on a store over real folders, so that a test sees of each no more than whether it succeeded.
use folder_store::{Claim, FolderStore, Locking, Purpose};
use gb_store::{Content, Store, StoreFault};
use gb_text::Folder;
use std::fs;
use std::os::unix::fs::symlink;
use std::process::Abort;
use std::rt::Runtime;
use std::test::Fail;

/// What the tests need of the system.
pub trait Testing: Runtime + AllocGlobal + Locking + Abort {}

impl<R: Runtime + AllocGlobal + Locking + Abort> Testing for R {}

/// A store over folders in which a command writes, as words name them.
pub fn store_over<R: Testing>(rt: &R, words: &[&str]) -> Result<FolderStore<R>, Fail> {
    let mut claims = Vec::new(rt.alloc());
    for word in words {
        claims.push(Claim {
            folder: Folder::read(rt.alloc(), word)?,
            purpose: Purpose::Write,
        })?;
    }
    Ok(FolderStore::new(rt.clone()?, claims))
}

/// Puts a file by the store.
pub fn put<R: Testing>(
    rt: &R,
    store: &mut FolderStore<R>,
    path: &str,
    bytes: &[u8],
) -> Result<(), Fail> {
    Ok(store.put(rt.alloc(), path, bytes)?)
}

/// Whether the store fails to put a file.
pub fn put_fails<R: Testing>(rt: &R, store: &mut FolderStore<R>, path: &str) -> bool {
    put_text_fails(rt, store, path, b"new")
}

/// Whether the store fails to put a file of these bytes.
pub fn put_text_fails<R: Testing>(
    rt: &R,
    store: &mut FolderStore<R>,
    path: &str,
    bytes: &[u8],
) -> bool {
    matches!(store.put(rt.alloc(), path, bytes), Err(StoreFault::Failed))
}

/// Removes a file by the store.
pub fn remove<R: Testing>(rt: &R, store: &mut FolderStore<R>, path: &str) -> Result<(), Fail> {
    Ok(store.remove(rt.alloc(), path)?)
}

/// Whether no file stands at a path.
pub fn is_absent<R: Testing>(rt: &R, store: &mut FolderStore<R>, path: &str) -> bool {
    matches!(store.read(rt.alloc(), path, 9), Ok(Content::Absent))
}

/// Whether the store fails to read a file.
pub fn read_fails<R: Testing>(rt: &R, store: &mut FolderStore<R>, path: &str) -> bool {
    matches!(store.read(rt.alloc(), path, 9), Err(StoreFault::Failed))
}

/// Whether a file has more bytes than this.
pub fn is_long<R: Testing>(rt: &R, store: &mut FolderStore<R>, path: &str, limit: u64) -> bool {
    matches!(store.read(rt.alloc(), path, limit), Ok(Content::Long))
}

/// Whether a file has just these bytes.
pub fn holds<R: Testing>(rt: &R, store: &mut FolderStore<R>, path: &str, bytes: &[u8]) -> bool {
    match store.read(rt.alloc(), path, bytes.len() as u64) {
        Ok(Content::Whole(found)) => found.as_slice() == bytes,
        _ => false,
    }
}

/// Whether just these names are listed in a folder.
pub fn lists<R: Testing>(rt: &R, store: &mut FolderStore<R>, dir: &str, names: &[&str]) -> bool {
    match store.list(rt.alloc(), dir) {
        Ok(found) => {
            found.len() == names.len()
                && found
                    .as_slice()
                    .iter()
                    .zip(names)
                    .all(|(name, expected)| name.as_str() == *expected)
        }
        Err(_) => false,
    }
}

/// Whether the store fails to list a folder.
pub fn list_fails<R: Testing>(rt: &R, store: &mut FolderStore<R>, dir: &str) -> bool {
    matches!(store.list(rt.alloc(), dir), Err(StoreFault::Failed))
}

/// Whether no file of the system stands at a path.
pub fn is_free<R: Testing>(rt: &R, path: &str) -> bool {
    matches!(fs::exists(rt, path), Ok(false))
}

/// Whether a file of the system has just these bytes.
pub fn has_bytes<R: Testing>(rt: &R, path: &str, bytes: &[u8]) -> bool {
    match fs::read(rt, path) {
        Ok(found) => found.as_slice() == bytes,
        Err(_) => false,
    }
}

/// How many names stand in a folder of the system.
pub fn count<R: Testing>(rt: &R, dir: &str) -> Result<usize, Fail> {
    Ok(fs::read_dir(rt, dir)?.count())
}

/// Writes a file of the system.
pub fn write<R: Testing>(rt: &R, path: &str, text: &str) -> Result<(), Fail> {
    Ok(fs::write(rt, path, text)?)
}

/// Makes a folder of the system.
pub fn make_dir<R: Testing>(rt: &R, path: &str) -> Result<(), Fail> {
    Ok(fs::create_dir(rt, path)?)
}

/// Makes a link of the system.
pub fn link<R: Testing>(rt: &R, to: &str, path: &str) -> Result<(), Fail> {
    Ok(symlink(rt, to, path)?)
}
