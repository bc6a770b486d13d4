//! Refs: what a text of one is, and what is read of the packed refs that Git wrote.
use fixtures::Disk;
use gb_text::{Id, Name};
use ref_store::{RefEntry, RefFault, RefFound, get, ids, list, packed_refs_read, place_of, set};
use std::test::Fail;

const TEN: Id = Id { bytes: [10; 32] };

const ELEVEN: Id = Id { bytes: [11; 32] };

const EMPTY: Name = fixtures::EMPTY;

// 563a35609259a1da261543e8e91b9cd7d343133d
const COMMIT: Name = Name {
    bytes: *b"\x56\x3a\x35\x60\x92\x59\xa1\xda\x26\x15\x43\xe8\xe9\x1b\x9c\xd7\xd3\x43\x13\x3d",
};

// f71e4dbf0271cd010d4acaf00d7f9f076b141937
const TAG: Name = Name {
    bytes: *b"\xf7\x1e\x4d\xbf\x02\x71\xcd\x01\x0d\x4a\xca\xf0\x0d\x7f\x9f\x07\x6b\x14\x19\x37",
};

// What Git wrote of two bugs, a branch and an annotated tag.
const PACKED: &[u8] = b"# pack-refs with: peeled fully-peeled sorted \n\
    563a35609259a1da261543e8e91b9cd7d343133d refs/bugs/0a0a0a0a0a0a0a0a0a0a0a0a0a0a0a0a0a0a0a0a0a0a0a0a0a0a0a0a0a0a0a0a\n\
    563a35609259a1da261543e8e91b9cd7d343133d refs/bugs/0b0b0b0b0b0b0b0b0b0b0b0b0b0b0b0b0b0b0b0b0b0b0b0b0b0b0b0b0b0b0b0b\n\
    563a35609259a1da261543e8e91b9cd7d343133d refs/heads/main\n\
    f71e4dbf0271cd010d4acaf00d7f9f076b141937 refs/tags/v1\n\
    ^563a35609259a1da261543e8e91b9cd7d343133d\n";

const SPOILT: &[u8] = b"563a35609259a1da261543e8e91b9cd7d343133d refs/heads/main\nx\n";

// The head of a ref, if it is read.
fn head(disk: &mut Disk, path: &str) -> Option<Name> {
    match get(disk.alloc, &mut disk.store, &disk.folder, path) {
        Ok(head) => head,
        Err(_) => None,
    }
}

// Whether just these refs of bugs are listed.
fn lists(disk: &mut Disk, expected: &[RefEntry]) -> bool {
    match list(disk.alloc, &mut disk.store, &disk.folder, "refs/bugs") {
        Ok(entries) => entries.as_slice() == expected,
        Err(_) => false,
    }
}

// Whether just these ids of bugs are listed.
fn has_ids(disk: &mut Disk, expected: &[Id]) -> bool {
    match ids(disk.alloc, &mut disk.store, &disk.folder, "refs/bugs") {
        Ok(ids) => ids.as_slice() == expected,
        Err(_) => false,
    }
}

// Sets the ref of a bug.
fn set_bug(disk: &mut Disk, id: &Id, head: &Name) -> Result<(), RefFault> {
    let place = place_of(disk.alloc, "refs/bugs", id)?;
    set(
        disk.alloc,
        &mut disk.store,
        &disk.folder,
        place.as_str(),
        head,
    )
}

// Whether packed refs of Git give their heads.
fn are_packed(disk: &mut Disk) -> Result<bool, Fail> {
    disk.put("f/packed-refs", PACKED)?;
    let is_branch = head(disk, "refs/heads/main") == Some(COMMIT);
    let is_tag = head(disk, "refs/tags/v1") == Some(TAG);
    Ok(is_branch && is_tag && head(disk, "refs/tags").is_none())
}

#[test]
fn packed_refs_are_read(rt: HostRuntime) -> Result<(), Fail> {
    let are_packed = are_packed(&mut Disk::new(rt.alloc())?);
    assert!(rt; are_packed?);
    Ok(())
}

// The bugs where the second has a ref of its own.
const BUGS: &[RefEntry] = &[
    RefEntry {
        id: TEN,
        found: RefFound::Head(COMMIT),
    },
    RefEntry {
        id: ELEVEN,
        found: RefFound::Head(EMPTY),
    },
];

// Whether packed refs of Git are listed with a ref that was set.
fn are_listed(disk: &mut Disk) -> Result<bool, Fail> {
    disk.put("f/packed-refs", PACKED)?;
    set_bug(disk, &ELEVEN, &EMPTY)?;
    Ok(lists(disk, BUGS) && has_ids(disk, &[TEN, ELEVEN]))
}

#[test]
fn packed_refs_are_listed_with_others(rt: HostRuntime) -> Result<(), Fail> {
    let are_listed = are_listed(&mut Disk::new(rt.alloc())?);
    assert!(rt; are_listed?);
    Ok(())
}

// Texts of a ref, and whether each is one of the empty blob. All others are bad.
const TEXTS: &[(&[u8], bool)] = &[
    (b"e69de29bb2d1d6434b8b29ae775ad8c2e48c5391", true),
    (b"e69de29bb2d1d6434b8b29ae775ad8c2e48c5391\n", true),
    (b"e69de29bb2d1d6434b8b29ae775ad8c2e48c5391\n\n", false),
    (b"69de29bb2d1d6434b8b29ae775ad8c2e48c5391", false),
    (b"", false),
    (b"x", false),
    (&[b'0'; 5000], false),
];

// Whether each text is a ref or a bad one, as the table says.
fn are_refs(disk: &mut Disk) -> Result<bool, Fail> {
    for (text, is_ref) in TEXTS {
        disk.put("f/refs/x", text)?;
        if (head(disk, "refs/x") == Some(EMPTY)) != *is_ref {
            return Ok(false);
        }
    }
    Ok(true)
}

#[test]
fn a_ref_is_forty_digits_and_at_most_one_line_end(rt: HostRuntime) -> Result<(), Fail> {
    let are_refs = are_refs(&mut Disk::new(rt.alloc())?);
    assert!(rt; are_refs?);
    Ok(())
}

// Whether a text of packed refs is one. The branch is read if and only if it is.
fn is_packed(disk: &mut Disk, text: &[u8]) -> Result<bool, Fail> {
    disk.put("f/packed-refs", text)?;
    let reads = packed_refs_read(disk.alloc, &mut disk.store, &disk.folder)?;
    if head(disk, "refs/heads/main").is_some() == reads {
        return Ok(reads);
    }
    Err(Fail::from("the branch"))
}

// Whether packed refs may have so many bytes, and not one more.
fn is_longest(disk: &mut Disk, count: usize) -> Result<bool, Fail> {
    let mut text = PACKED.to_vec(disk.alloc)?;
    text.resize(count, b'#')?;
    let is_longest = is_packed(disk, &text)?;
    text.push(b'#')?;
    Ok(is_longest && !is_packed(disk, &text)?)
}

#[test]
fn packed_refs_have_at_most_16_777_216_bytes(rt: HostRuntime) -> Result<(), Fail> {
    let is_longest = is_longest(&mut Disk::new(rt.alloc())?, 16_777_216);
    assert!(rt; is_longest?);
    Ok(())
}

#[test]
fn one_bad_line_leaves_no_packed_refs(rt: HostRuntime) -> Result<(), Fail> {
    let is_packed = is_packed(&mut Disk::new(rt.alloc())?, SPOILT);
    assert!(rt; !is_packed?);
    Ok(())
}
