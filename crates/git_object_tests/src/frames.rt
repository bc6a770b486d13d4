//! The texts and the names of objects that the program `git` wrote, and texts that are no objects.
use crate::commits::{CHILD, MERGE, ROOT, SIGNED};
use fixtures::name;
use git_object::{Frame, Kind, Object, frame_text, name_of, name_of_text};
use std::alloc::Global;
use std::test::Fail;

// Contents, and the names that Git gives them.
const NAMED: &[(Kind, &str, &str)] = &[
    (Kind::Blob, "", "e69de29bb2d1d6434b8b29ae775ad8c2e48c5391"),
    (
        Kind::Blob,
        "test content\n",
        "d670460b4b4aece5915caf5c68d12f560a9fe3e4",
    ),
    (
        Kind::Blob,
        "README",
        "100b93820ade4c16225673b4ca62bb3ade63c313",
    ),
    (Kind::Tree, "", "4b825dc642cb6eb9a060e54bf8d69288fbee4904"),
    (
        Kind::Commit,
        ROOT,
        "b7ae231c3d75f0eeaca4b900b9959e974fc0711d",
    ),
    (
        Kind::Commit,
        CHILD,
        "d2ffbdbee216a2a1434a807d8319fa34dd0f0556",
    ),
    (
        Kind::Commit,
        MERGE,
        "ec8c0997e6a7f9ccc20c44491067e70a2516ebcc",
    ),
    (
        Kind::Commit,
        SIGNED,
        "2e4b1595f8d8b1c214eeb19d3c5dd0a3b70b836e",
    ),
];

// The text of an object with this content.
fn framed(alloc: Global, kind: Kind, content: &[u8]) -> Result<Vec<u8>, Fail> {
    let text = frame_text(alloc, kind, content)?;
    let mut bytes = Vec::new(alloc);
    bytes.extend_from_slice(text.as_slice())?;
    Ok(bytes)
}

// Whether the frame of a text has this kind and this content.
fn is_framed(text: &[u8], kind: Kind, content: &[u8]) -> bool {
    match Frame::read(text) {
        Some(frame) => frame.kind == kind && frame.content == content,
        None => false,
    }
}

// Whether a text is that of an object.
fn is_object(alloc: Global, text: &[u8]) -> Result<bool, Fail> {
    Ok(Object::read(alloc, text)?.is_some())
}

#[test]
fn names_are_those_of_git(rt: HostRuntime) -> Result<(), Fail> {
    for (row, (kind, content, digits)) in NAMED.iter().enumerate() {
        let name = name(digits)?;
        assert_eq!(rt; name_of(*kind, content.as_bytes()), name, "row {row}");
        let text = framed(rt.alloc(), *kind, content.as_bytes())?;
        assert_eq!(rt; name_of_text(&text), name, "row {row}");
        assert!(rt; is_framed(&text, *kind, content.as_bytes()), "row {row}");
        assert!(rt; is_object(rt.alloc(), &text)?, "row {row}");
    }
    Ok(())
}

const OBJECTS: &[&str] = &[
    "blob 3\0abc",
    "blob 0\0",
    "tree 0\0",
    "blob 11\0blob 4\0a\n\0b",
    "blob 1\0\0",
];

const NO_OBJECTS: &[&str] = &[
    "blob 4\0abc",
    "blob 2\0abc",
    "blob 03\0abc",
    "blob +3\0abc",
    "blob -3\0abc",
    "blob \0",
    "blob 3 \0abc",
    "blob  3\0abc",
    "blob3\0abc",
    "blob 3abc",
    "blob 18446744073709551619\0abc",
    "Blob 3\0abc",
    "tag 3\0abc",
    " blob 3\0abc",
    "",
    "\0",
    "tree 3\0abc",
    "commit 0\0",
];

#[test]
fn frames_say_the_length_of_their_content(rt: HostRuntime) -> Result<(), Fail> {
    for text in OBJECTS {
        assert!(rt; is_object(rt.alloc(), text.as_bytes())?, "{text:?}");
    }
    for text in NO_OBJECTS {
        assert!(rt; !is_object(rt.alloc(), text.as_bytes())?, "{text:?}");
    }
    assert!(rt; Frame::read(b"tree 3\0abc").is_some());
    Ok(())
}

// The kind of the object that a content is, if it is one of this kind.
fn kind_of(alloc: Global, kind: Kind, content: &[u8]) -> Result<Option<Kind>, Fail> {
    Ok(match Object::of(alloc, kind, content)? {
        Some(Object::Blob(_)) => Some(Kind::Blob),
        Some(Object::Tree(_)) => Some(Kind::Tree),
        Some(Object::Commit(_)) => Some(Kind::Commit),
        None => None,
    })
}

#[test]
fn contents_are_of_their_kind(rt: HostRuntime) -> Result<(), Fail> {
    let alloc = rt.alloc();
    let content = ROOT.as_bytes();
    assert_eq!(rt; kind_of(alloc, Kind::Commit, content)?, Some(Kind::Commit));
    assert_eq!(rt; kind_of(alloc, Kind::Blob, content)?, Some(Kind::Blob));
    assert_eq!(rt; kind_of(alloc, Kind::Tree, content)?, None);
    assert_eq!(rt; kind_of(alloc, Kind::Tree, b"")?, Some(Kind::Tree));
    assert_eq!(rt; kind_of(alloc, Kind::Commit, b"")?, None);
    Ok(())
}
