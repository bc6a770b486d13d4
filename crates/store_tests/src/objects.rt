//! Objects by the names that Git gives them, one and several at once, and the limit of their texts.
use fixtures::{Disk, filled, name, put_under};
use gb_text::{Folder, Memory, Name, Text};
use git_object::Kind;
use object_batch::{check_sizes, put_all};
use object_store::{
    ObjFault, ObjectText, PutFault, commit_in, get, get_raw, get_text, path_of, put, tree_in,
};
use std::alloc::Global;
use std::test::Fail;

const NAME: &str = "d670460b4b4aece5915caf5c68d12f560a9fe3e4";

const TEXT: &[u8] = b"blob 13\0test content\n";

fn put_blob(disk: &mut Disk, content: &[u8]) -> Result<Name, PutFault> {
    let (store, folder) = (&mut disk.store, &disk.folder);
    put(disk.alloc, store, folder, Kind::Blob, content)
}

// Whether the blob is read under a name, as a text.
fn has_text(disk: &mut Disk, name: &Name) -> bool {
    match get_text(disk.alloc, &mut disk.store, &disk.folder, name) {
        Ok(found) => found.as_slice() == TEXT,
        Err(_) => false,
    }
}

// Whether the blob is read under a name, as an object that is not judged.
fn has_raw(disk: &mut Disk, name: &Name) -> bool {
    match get_raw(disk.alloc, &mut disk.store, &disk.folder, name) {
        Ok(raw) => raw.content.as_slice() == b"test content\n".as_slice(),
        Err(_) => false,
    }
}

// Why no object is read under a name, if none is.
fn refused(disk: &mut Disk, name: &Name) -> Option<ObjFault> {
    get(disk.alloc, &mut disk.store, &disk.folder, name).err()
}

// Whether the blob is put under its name, and read there.
fn is_kept(disk: &mut Disk) -> Result<bool, Fail> {
    let name = name(NAME)?;
    let is_put = put_blob(disk, b"test content\n") == Ok(name);
    Ok(is_put && has_text(disk, &name) && has_raw(disk, &name) && refused(disk, &name).is_none())
}

#[test]
fn what_is_put_has_the_name_that_git_gives_it(rt: HostRuntime) -> Result<(), Fail> {
    let is_kept = is_kept(&mut Disk::new(rt.alloc())?);
    assert!(rt; is_kept?);
    Ok(())
}

// The path of the blob from a folder.
fn path_from(alloc: Global, folder: &str) -> Result<Text, Fail> {
    let folder = Folder::read(alloc, folder)?;
    let name = name(NAME)?;
    Ok(path_of(alloc, &folder, &name)?)
}

#[test]
fn an_object_has_the_path_that_git_gives_it(rt: HostRuntime) -> Result<(), Fail> {
    let path = path_from(rt.alloc(), ".")?;
    assert_eq!(rt;
        path.as_str(),
        "objects/d6/70460b4b4aece5915caf5c68d12f560a9fe3e4"
    );
    Ok(())
}

const SEVEN: Name = Name { bytes: [7; 20] };

const COMMIT: &[u8] =
    b"commit 69\0tree 4b825dc642cb6eb9a060e54bf8d69288fbee4904\nauthor a\ncommitter c\n\nm";

#[test]
fn a_text_is_read_as_its_kind(rt: HostRuntime) -> Result<(), Fail> {
    assert!(rt; commit_in(rt.alloc(), &SEVEN, COMMIT).is_ok());
    assert!(rt; tree_in(rt.alloc(), &SEVEN, b"tree 0\0").is_ok());
    Ok(())
}

const LARGE: PutFault = PutFault::Large(4_194_305);

// Whether a blob is put and read with so many bytes, and not with one more.
fn is_longest(disk: &mut Disk, count: usize) -> Result<bool, Fail> {
    let mut content = filled(disk.alloc, b'x', count)?;
    let name = put_blob(disk, &content)?;
    content.push(b'x')?;
    Ok(refused(disk, &name).is_none() && put_blob(disk, &content) == Err(LARGE))
}

// Whether a file with so many bytes is too large to be read.
fn is_large(disk: &mut Disk, count: usize) -> Result<bool, Fail> {
    let text = filled(disk.alloc, b'x', count)?;
    put_under(disk, &SEVEN, &text)?;
    Ok(refused(disk, &SEVEN) == Some(ObjFault::Large(SEVEN)))
}

#[test]
fn an_object_text_has_at_most_4194304_bytes(rt: HostRuntime) -> Result<(), Fail> {
    let is_longest = is_longest(&mut Disk::new(rt.alloc())?, 4_194_291);
    assert!(rt; is_longest?);
    let is_large = is_large(&mut Disk::new(rt.alloc())?, 4_194_305);
    assert!(rt; is_large?);
    Ok(())
}

// The text of a blob.
fn blob(alloc: Global, content: &[u8]) -> Result<ObjectText, Memory> {
    ObjectText::new(alloc, Kind::Blob, content)
}

// The texts of a short blob and of one with so many bytes.
fn two_blobs(alloc: Global, count: usize) -> Result<Vec<ObjectText>, Fail> {
    let long = filled(alloc, b'x', count)?;
    let mut texts = Vec::new(alloc);
    texts.push(blob(alloc, b"a\n")?)?;
    texts.push(blob(alloc, &long)?)?;
    Ok(texts)
}

// Whether both are judged so by their sizes, and put so.
fn are_put(disk: &mut Disk, count: usize, wanted: Result<(), PutFault>) -> Result<bool, Fail> {
    let texts = two_blobs(disk.alloc, count)?;
    let put = put_all(disk.alloc, &mut disk.store, &disk.folder, &texts);
    Ok(check_sizes(&texts) == wanted && put == wanted)
}

// Whether both are put where the second has so many bytes, and none where it has one more.
fn are_longest(disk: &mut Disk, count: usize) -> Result<bool, Fail> {
    let short = name("78981922613b2afb6025042ff6bd878ac1994e85")?;
    let is_none = are_put(disk, count.saturating_add(1), Err(LARGE))? && disk.store.writes() == 0;
    Ok(is_none && are_put(disk, count, Ok(()))? && refused(disk, &short).is_none())
}

#[test]
fn a_long_text_stops_all(rt: HostRuntime) -> Result<(), Fail> {
    let are_longest = are_longest(&mut Disk::new(rt.alloc())?, 4_194_291);
    assert!(rt; are_longest?);
    Ok(())
}
