//! What strangers and neighbours leave at the places of files.
use crate::system::{
    Testing, count, has_bytes, holds, is_absent, is_free, link, list_fails, make_dir, put,
    put_fails, read_fails, write,
};
use folder_store::FolderStore;
use std::fs;
use std::io::Read;
use std::os::unix::fs::PermissionsExt;
use std::test::Fail;

/// Tries each.
pub fn try_all<R: Testing>(rt: &R, store: &mut FolderStore<R>) -> Result<(), Fail> {
    open_readers_keep_their_bytes(rt, store)?;
    long_files_read_back(rt, store)?;
    links_to_files_are_replaced(rt, store)?;
    links_to_folders_are_refused(rt, store)?;
    modes_are_kept(rt, store)?;
    what_killed_runs_left_goes(rt, store)?;
    other_folders_are_left_alone(rt, store)?;
    the_folder_is_locked(rt)?;
    Ok(())
}

fn open_readers_keep_their_bytes<R: Testing>(
    rt: &R,
    store: &mut FolderStore<R>,
) -> Result<(), Fail> {
    put(rt, store, "f/refs/k", b"old")?;
    let mut reader = fs::open(rt, "f/refs/k")?;
    put(rt, store, "f/refs/k", b"newer")?;
    let mut bytes = Vec::new(rt.alloc());
    reader.read_to_end(&mut bytes)?;
    assert_eq!(rt; bytes.as_slice(), b"old".as_slice());
    assert!(rt; holds(rt, store, "f/refs/k", b"newer"));
    Ok(())
}

fn long_files_read_back<R: Testing>(rt: &R, store: &mut FolderStore<R>) -> Result<(), Fail> {
    let mut bytes = Vec::new(rt.alloc());
    bytes.resize(10_000, 7)?;
    put(rt, store, "f/refs/long", &bytes)?;
    assert!(rt; holds(rt, store, "f/refs/long", &bytes));
    Ok(())
}

fn links_to_files_are_replaced<R: Testing>(rt: &R, store: &mut FolderStore<R>) -> Result<(), Fail> {
    write(rt, "victim", "kept")?;
    link(rt, "../../victim", "f/refs/link")?;
    assert!(rt; is_absent(rt, store, "f/refs/link"));
    put(rt, store, "f/refs/link", b"new")?;
    assert!(rt; holds(rt, store, "f/refs/link", b"new"));
    assert!(rt; has_bytes(rt, "victim", b"kept"));
    Ok(())
}

fn links_to_folders_are_refused<R: Testing>(
    rt: &R,
    store: &mut FolderStore<R>,
) -> Result<(), Fail> {
    make_dir(rt, "outside")?;
    write(rt, "outside/x", "kept")?;
    link(rt, "../../outside", "f/refs/way")?;
    assert!(rt; put_fails(rt, store, "f/refs/way/x"));
    assert!(rt; read_fails(rt, store, "f/refs/way/x"));
    assert!(rt; list_fails(rt, store, "f/refs/way"));
    assert!(rt; has_bytes(rt, "outside/x", b"kept"));
    Ok(())
}

// Lets the owner alone read and write a file.
fn keep_for_owner<R: Testing>(rt: &R, path: &str) -> Result<(), Fail> {
    Ok(fs::set_permissions(rt, path, fs::Permissions::from_mode(0o600))?)
}

// Whether the owner alone may read and write a file.
fn is_for_owner<R: Testing>(rt: &R, path: &str) -> Result<bool, Fail> {
    Ok(fs::metadata(rt, path)?.permissions().mode() & 0o777 == 0o600)
}

fn modes_are_kept<R: Testing>(rt: &R, store: &mut FolderStore<R>) -> Result<(), Fail> {
    write(rt, "f/refs/own", "1")?;
    keep_for_owner(rt, "f/refs/own")?;
    put(rt, store, "f/refs/own", b"2")?;
    assert!(rt; is_for_owner(rt, "f/refs/own")?);
    Ok(())
}

fn what_killed_runs_left_goes<R: Testing>(rt: &R, store: &mut FolderStore<R>) -> Result<(), Fail> {
    make_dir(rt, "f/left")?;
    make_dir(rt, "f/left/.gitbug-2")?;
    write(rt, "f/left/.gitbug-1", "left behind")?;
    write(rt, "f/left/.gitignore", "of another")?;
    put(rt, store, "f/left/a", b"1")?;
    assert_eq!(rt; count(rt, "f/left")?, 3);
    assert!(rt; is_free(rt, "f/left/.gitbug-1"));
    Ok(())
}

fn other_folders_are_left_alone<R: Testing>(
    rt: &R,
    store: &mut FolderStore<R>,
) -> Result<(), Fail> {
    assert!(rt; put_fails(rt, store, "top"));
    assert!(rt; is_free(rt, "top"));
    Ok(())
}

// While the store of the test is at work.
fn the_folder_is_locked<R: Testing>(rt: &R) -> Result<(), Fail> {
    let folder = fs::open(rt, "f")?;
    assert!(rt; matches!(folder.try_lock_shared(), Err(fs::TryLockError::WouldBlock)));
    Ok(())
}
