//! What a real disk holds, and what is planted in it.
use crate::system::{
    Testing, count, holds, is_absent, is_free, is_long, lists, put, put_fails, put_text_fails,
    remove, store_over, write,
};
use crate::{explained, planted};
use folder_store::FolderStore;
use std::test::Fail;
use std::{env, fs, process};

// A test of real folders: all of them run in one process, whose folder they share, so they are one test.
#[test]
fn files_are_kept_in_real_folders(rt: HostRuntime) -> Result<(), Fail> {
    let root = enter_new_folder(&rt)?;
    a_missing_object_is_not_named(&rt)?;
    let mut store = store_over(&rt, &["f"])?;
    absent_files(&rt, &mut store)?;
    put_files(&rt, &mut store)?;
    listed_files(&rt, &mut store)?;
    object_reads(&rt, &mut store)?;
    refused_puts(&rt, &mut store)?;
    removed_files(&rt, &mut store)?;
    planted::try_all(&rt, &mut store)?;
    explained::try_all(&rt)?;
    fs::remove_dir_all(&rt, root.as_str())?;
    Ok(())
}

// Makes an empty folder, and runs in it from now on.
fn enter_new_folder(rt: &HostRuntime) -> Result<String, Fail> {
    let above = env::temp_dir(rt)?;
    let above = above.as_str();
    let number = process::id(rt.process());
    let root = format!(in rt.alloc(); "{above}/gitbug-test-{number}")?;
    fs::create_dir(rt, root.as_str())?;
    env::set_current_dir(rt, root.as_str())?;
    Ok(root)
}

// A ref is put once the object that it names is there.
fn a_missing_object_is_not_named<R: Testing>(rt: &R) -> Result<(), Fail> {
    let mut store = store_over(rt, &["m"])?;
    let head = b"e69de29bb2d1d6434b8b29ae775ad8c2e48c5391\n";
    assert!(rt; put_text_fails(rt, &mut store, "m/refs/bugs/a", head));
    assert!(rt; is_free(rt, "m/refs/bugs/a"));
    let object = "m/objects/e6/9de29bb2d1d6434b8b29ae775ad8c2e48c5391";
    put(rt, &mut store, object, b"blob 0\0")?;
    put(rt, &mut store, "m/refs/bugs/a", head)
}

fn absent_files<R: Testing>(rt: &R, store: &mut FolderStore<R>) -> Result<(), Fail> {
    assert!(rt; is_absent(rt, store, "f/refs/a"));
    assert!(rt; lists(rt, store, "f/refs", &[]));
    remove(rt, store, "f/refs/a")?;
    assert_eq!(rt; faults(store), 0);
    Ok(())
}

// How often the store has failed.
fn faults<R: Testing>(store: &FolderStore<R>) -> u64 {
    store.faults()
}

fn put_files<R: Testing>(rt: &R, store: &mut FolderStore<R>) -> Result<(), Fail> {
    put(rt, store, "f/refs/b", b"1")?;
    put(rt, store, "f/refs/B", b"")?;
    put(rt, store, "f/refs/a/x", b"x")?;
    put(rt, store, "f/refs/b", b"22")?;
    assert!(rt; holds(rt, store, "f/refs/b", b"22"));
    assert!(rt; holds(rt, store, "f/refs/B", b""));
    assert!(rt; is_long(rt, store, "f/refs/b", 1));
    assert!(rt; is_absent(rt, store, "f/refs/a"));
    assert!(rt; is_absent(rt, store, "f/refs/b/x"));
    Ok(())
}

fn listed_files<R: Testing>(rt: &R, store: &mut FolderStore<R>) -> Result<(), Fail> {
    write(rt, "f/refs/.gitbug-7", "left behind")?;
    assert!(rt; lists(rt, store, "f/refs", &["B", "b"]));
    fs::remove_file(rt, "f/refs/.gitbug-7")?;
    assert_eq!(rt; count(rt, "f/refs")?, 3);
    Ok(())
}

// How often an object was read.
fn reads<R: Testing>(store: &FolderStore<R>) -> u64 {
    store.reads()
}

fn object_reads<R: Testing>(rt: &R, store: &mut FolderStore<R>) -> Result<(), Fail> {
    let path = "f/objects/e6/9de29bb2d1d6434b8b29ae775ad8c2e48c5391";
    assert_eq!(rt; reads(store), 0);
    assert!(rt; is_absent(rt, store, path));
    put(rt, store, path, b"blob 0\0")?;
    assert!(rt; holds(rt, store, path, b"blob 0\0"));
    assert_eq!(rt; reads(store), 2);
    Ok(())
}

fn refused_puts<R: Testing>(rt: &R, store: &mut FolderStore<R>) -> Result<(), Fail> {
    assert_eq!(rt; faults(store), 0);
    assert!(rt; put_fails(rt, store, "f/refs/a"));
    assert!(rt; put_fails(rt, store, "f/refs/b/x"));
    assert_eq!(rt; faults(store), 2);
    assert_eq!(rt; count(rt, "f/refs")?, 3);
    assert!(rt; holds(rt, store, "f/refs/b", b"22"));
    Ok(())
}

fn removed_files<R: Testing>(rt: &R, store: &mut FolderStore<R>) -> Result<(), Fail> {
    remove(rt, store, "f/refs/b")?;
    remove(rt, store, "f/refs/b")?;
    remove(rt, store, "f/refs/a")?;
    assert!(rt; is_absent(rt, store, "f/refs/b"));
    assert!(rt; lists(rt, store, "f/refs", &["B"]));
    assert_eq!(rt; faults(store), 2);
    Ok(())
}
