//! Rows of a folder in memory.
use crate::Marked;
use excerpt_cache::{CacheFault, read_row, write_row};
use gb_store::{Content, Fail as Listed, MemStore, Store};
use gb_text::{Bytes, Folder, Id, List};
use std::alloc::Global;
use std::test::Fail;

const ONE: Id = Id { bytes: [1; 32] };

const OTHER: Id = Id { bytes: [2; 32] };

const PATH: &str =
    "f/git-bug/cache/bugs/0101010101010101010101010101010101010101010101010101010101010101";

// A folder `f` in a store whose calls with these numbers fail, before their write or after it.
fn disk(alloc: Global, calls: &[(u64, bool)]) -> Result<(MemStore, Folder), Fail> {
    let mut fails = List::new(alloc);
    for &(call, after) in calls {
        fails.push(Listed { call, after })?;
    }
    Ok((MemStore::new(alloc, fails), Folder::read(alloc, "f")?))
}

fn row(alloc: Global, bytes: &[u8]) -> Result<Marked, Fail> {
    Ok(Marked {
        bytes: Bytes::from_slice(alloc, bytes)?,
    })
}

fn read(
    alloc: Global,
    store: &mut MemStore,
    folder: &Folder,
    id: &Id,
) -> Result<Option<Marked>, CacheFault> {
    read_row(alloc, store, folder, id)
}

// How many bytes the row of an id has, if it has a row.
fn size(
    alloc: Global,
    store: &mut MemStore,
    folder: &Folder,
    id: &Id,
) -> Result<Option<usize>, CacheFault> {
    let found = read(alloc, store, folder, id)?;
    Ok(found.map(|row| row.bytes.as_slice().len()))
}

#[test]
fn a_row_is_read_where_one_was_written(rt: HostRuntime) -> Result<(), Fail> {
    let alloc = rt.alloc();
    let (mut store, folder) = disk(alloc, &[])?;
    assert!(rt; matches!(size(alloc, &mut store, &folder, &ONE), Ok(None)));
    store.put(alloc, PATH, b"{}")?;
    assert!(rt; matches!(size(alloc, &mut store, &folder, &ONE), Ok(None)));
    let new = row(alloc, b"abc")?;
    assert!(rt; write_row(alloc, &mut store, &folder, &ONE, &new).is_ok());
    assert!(rt; matches!(size(alloc, &mut store, &folder, &ONE), Ok(Some(3))));
    assert!(rt; matches!(size(alloc, &mut store, &folder, &OTHER), Ok(None)));
    assert_eq!(rt; store.writes(), 2);
    assert_eq!(rt; store.reads(), 0);
    Ok(())
}

#[test]
fn a_row_is_the_codecs_text_at_its_place(rt: HostRuntime) -> Result<(), Fail> {
    let alloc = rt.alloc();
    let (mut store, folder) = disk(alloc, &[])?;
    let new = row(alloc, b"abc")?;
    assert!(rt; write_row(alloc, &mut store, &folder, &ONE, &new).is_ok());
    let is_there = match store.read(alloc, PATH, 9)? {
        Content::Whole(text) => text.as_slice() == b"!abc".as_slice(),
        _ => false,
    };
    assert!(rt; is_there);
    Ok(())
}

#[test]
fn a_failing_store_is_a_fault(rt: HostRuntime) -> Result<(), Fail> {
    let alloc = rt.alloc();
    let (mut store, folder) = disk(alloc, &[(0, false), (1, false), (2, true)])?;
    let new = row(alloc, b"abc")?;
    assert!(rt;
        matches!(
            size(alloc, &mut store, &folder, &ONE),
            Err(CacheFault::Disk)
        )
    );
    let failed = write_row(alloc, &mut store, &folder, &ONE, &new);
    assert!(rt; matches!(failed, Err(CacheFault::Disk)));
    assert_eq!(rt; store.writes(), 0);
    let failed = write_row(alloc, &mut store, &folder, &ONE, &new);
    assert!(rt; matches!(failed, Err(CacheFault::Disk)));
    assert_eq!(rt; store.writes(), 1);
    assert!(rt; matches!(size(alloc, &mut store, &folder, &ONE), Ok(Some(3))));
    Ok(())
}
