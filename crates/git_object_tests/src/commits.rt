//! Commits that the program `git` wrote, those that are made by hand, and contents that are no commits.
use fixtures::{joined, name};
use gb_text::{Bytes, List, Name};
use git_object::{Commit, CommitView, Kind, name_of};
use std::alloc::Global;
use std::test::Fail;

// By `git commit-tree`, with no parent.
pub const ROOT: &str =
    "tree 75db8f54ad8606d6aeccb6a875015ad13efa3e12\nauthor Ada Lovelace <ada@example.org> 1700000000 +0100\ncommitter Grace Hopper <grace@example.org> 1700000123 -0500\n\nThe first\n";

// By `git commit-tree`, with one parent and an empty message.
pub const CHILD: &str =
    "tree 87116d89612d2f9480abb66987be3fd0a9308cb8\nparent b7ae231c3d75f0eeaca4b900b9959e974fc0711d\nauthor Ada Lovelace <ada@example.org> 1700000000 +0100\ncommitter Grace Hopper <grace@example.org> 1700000123 -0500\n\n";

// By `git commit-tree`, with two parents and an encoding.
pub const MERGE: &str =
    "tree 75db8f54ad8606d6aeccb6a875015ad13efa3e12\nparent 6210fba6d1078c5a0fdfbd593d0c438c837f7623\nparent d2ffbdbee216a2a1434a807d8319fa34dd0f0556\nauthor Ada Lovelace <ada@example.org> 1700000000 +0100\ncommitter Grace Hopper <grace@example.org> 1700000123 -0500\nencoding ISO-8859-1\n\nMerge\n";

// Taken by `git hash-object`, with a signature of several lines.
pub const SIGNED: &str =
    "tree 75db8f54ad8606d6aeccb6a875015ad13efa3e12\nparent 6210fba6d1078c5a0fdfbd593d0c438c837f7623\nparent d2ffbdbee216a2a1434a807d8319fa34dd0f0556\nauthor Ada Lovelace <ada@example.org> 1700000000 +0100\ncommitter Grace Hopper <grace@example.org> 1700000123 -0500\ngpgsig -----BEGIN PGP SIGNATURE-----\n \n iQ==\n -----END PGP SIGNATURE-----\nencoding UTF-8\n\nSigned\n";

fn commit_of(alloc: Global, content: &[u8]) -> Result<Commit, Fail> {
    Ok(Commit::read(alloc, content)?.ok_or("a commit")?)
}

fn is_commit(alloc: Global, content: &[u8]) -> Result<bool, Fail> {
    Ok(Commit::read(alloc, content)?.is_some())
}

const FIRST: &str = "6210fba6d1078c5a0fdfbd593d0c438c837f7623";

const SECOND: &str = "d2ffbdbee216a2a1434a807d8319fa34dd0f0556";

const ROOT_NAME: &str = "b7ae231c3d75f0eeaca4b900b9959e974fc0711d";

const SIGNATURE: &str =
    "gpgsig -----BEGIN PGP SIGNATURE-----\n \n iQ==\n -----END PGP SIGNATURE-----\nencoding UTF-8\n";

// Contents, with their parents, further lines and messages.
const READ: &[(&str, &[&str], &str, &str)] = &[
    (ROOT, &[], "", "The first\n"),
    (CHILD, &[ROOT_NAME], "", ""),
    (MERGE, &[FIRST, SECOND], "encoding ISO-8859-1\n", "Merge\n"),
    (SIGNED, &[FIRST, SECOND], SIGNATURE, "Signed\n"),
];

// Whether these are the names with these digits.
fn are_named(names: &[Name], digits: &[&str]) -> Result<bool, Fail> {
    for (found, wanted) in names.iter().zip(digits) {
        if *found != name(wanted)? {
            return Ok(false);
        }
    }
    Ok(names.len() == digits.len())
}

const AUTHOR: &[u8] = b"Ada Lovelace <ada@example.org> 1700000000 +0100";

const COMMITTER: &[u8] = b"Grace Hopper <grace@example.org> 1700000123 -0500";

// Whether a commit is by these persons, with these further lines and this message.
fn is_by_both(commit: &Commit, more: &str, message: &str) -> bool {
    commit.author.as_slice() == AUTHOR
        && commit.committer.as_slice() == COMMITTER
        && commit.more.as_slice() == more.as_bytes()
        && commit.message.as_slice() == message.as_bytes()
}

// Whether a commit keeps the rules and is written as this text.
fn is_written_as(alloc: Global, commit: &Commit, text: &[u8]) -> Result<bool, Fail> {
    if !commit.has_good_texts() {
        return Ok(false);
    }
    Ok(commit.write(alloc)?.as_slice() == text)
}

#[test]
fn commits_are_read_and_written_again(rt: HostRuntime) -> Result<(), Fail> {
    for (row, (text, parents, more, message)) in READ.iter().enumerate() {
        let commit = commit_of(rt.alloc(), text.as_bytes())?;
        assert!(rt; are_named(commit.parents.as_slice(), parents)?, "row {row}");
        assert!(rt; is_by_both(&commit, more, message), "row {row}");
        assert!(rt;
            is_written_as(rt.alloc(), &commit, text.as_bytes())?,
            "row {row}"
        );
    }
    Ok(())
}

// Whether the view of a content has these persons, these further lines and this message.
fn is_seen(alloc: Global, content: &[u8], more: &str, message: &str) -> Result<bool, Fail> {
    let view = CommitView::read(alloc, content)?.ok_or("a commit")?;
    Ok(
        view.author == AUTHOR
            && view.committer == COMMITTER
            && view.more == more.as_bytes()
            && view.message == message.as_bytes(),
    )
}

#[test]
fn views_have_the_texts_of_their_content(rt: HostRuntime) -> Result<(), Fail> {
    for (row, (text, _, more, message)) in READ.iter().enumerate() {
        assert!(rt;
            is_seen(rt.alloc(), text.as_bytes(), more, message)?,
            "row {row}"
        );
    }
    Ok(())
}

// Whether this behind the line of a tree is the content of a commit.
fn is_commit_with(alloc: Global, rest: &str) -> Result<bool, Fail> {
    let front = b"tree 75db8f54ad8606d6aeccb6a875015ad13efa3e12\n";
    is_commit(alloc, &joined(alloc, &[front, rest.as_bytes()])?)
}

const RESTS: &[&str] = &[
    "author a\ncommitter b\n\n",
    "author \r\ncommitter  \n\n\n\n",
    "author a\ncommitter b\nparent x\nauthor c\n d\n\nm",
    "parent 75db8f54ad8606d6aeccb6a875015ad13efa3e12\nparent 75db8f54ad8606d6aeccb6a875015ad13efa3e12\nauthor a\ncommitter b\n\n\0",
];

const NO_RESTS: &[&str] = &[
    "",
    "author a\ncommitter b\n",
    "author a\ncommitter b\nmore\nm",
    "author a\ncommitter b",
    "author a\n\n",
    "committer b\nauthor a\n\n",
    "committer b\n\n",
    "author \ncommitter b\n\n",
    "author a\ncommitter \n\n",
    "author\ncommitter b\n\n",
    "Author a\ncommitter b\n\n",
    "parent 75DB8f54ad8606d6aeccb6a875015ad13efa3e12\nauthor a\ncommitter b\n\n",
    "parent 75db8f54ad8606d6aeccb6a875015ad13efa3e1\nauthor a\ncommitter b\n\n",
    "parent 75db8f54ad8606d6aeccb6a875015ad13efa3e12 \nauthor a\ncommitter b\n\n",
    "tree 75db8f54ad8606d6aeccb6a875015ad13efa3e12\nauthor a\ncommitter b\n\n",
];

const NO_COMMITS: &[&str] = &[
    "",
    "\n",
    "parent 75db8f54ad8606d6aeccb6a875015ad13efa3e12\ntree 75db8f54ad8606d6aeccb6a875015ad13efa3e12\nauthor a\ncommitter b\n\n",
    "tree 75DB8f54ad8606d6aeccb6a875015ad13efa3e12\nauthor a\ncommitter b\n\n",
    "author a\ncommitter b\n\n",
];

#[test]
fn commits_that_break_the_format_are_none(rt: HostRuntime) -> Result<(), Fail> {
    for rest in RESTS {
        assert!(rt; is_commit_with(rt.alloc(), rest)?, "{rest:?}");
    }
    for rest in NO_RESTS {
        assert!(rt; !is_commit_with(rt.alloc(), rest)?, "{rest:?}");
    }
    for text in NO_COMMITS {
        assert!(rt; !is_commit(rt.alloc(), text.as_bytes())?, "{text:?}");
    }
    Ok(())
}

// A commit without parents.
fn made(alloc: Global, author: &str, more: &str) -> Result<Commit, Fail> {
    Ok(Commit {
        tree: name_of(Kind::Tree, b""),
        parents: List::new(alloc),
        author: Bytes::from_slice(alloc, author.as_bytes())?,
        committer: Bytes::from_slice(alloc, b"b")?,
        more: Bytes::from_slice(alloc, more.as_bytes())?,
        message: Bytes::from_slice(alloc, b"m")?,
    })
}

// Whether such a commit may be written.
fn may_be_written(alloc: Global, author: &str, more: &str) -> Result<bool, Fail> {
    Ok(made(alloc, author, more)?.has_good_texts())
}

// Authors and further lines that are not written.
const NOT_WRITTEN: &[(&str, &str)] = &[
    ("", ""),
    ("a\nb", ""),
    ("a", "x"),
    ("a", "\n"),
    ("a", "x\n\ny\n"),
    ("a", "x\ny"),
];

#[test]
fn texts_of_commits_are_tested(rt: HostRuntime) -> Result<(), Fail> {
    assert!(rt; may_be_written(rt.alloc(), "a", "")?);
    for (author, more) in NOT_WRITTEN {
        assert!(rt; !may_be_written(rt.alloc(), author, more)?, "{more:?}");
    }
    Ok(())
}

const BY_HAND: &[u8] =
    b"tree 4b825dc642cb6eb9a060e54bf8d69288fbee4904\nauthor a\ncommitter b\nx\n y\n\nm";

#[test]
fn commits_made_by_hand_are_written(rt: HostRuntime) -> Result<(), Fail> {
    let commit = made(rt.alloc(), "a", "x\n y\n")?;
    assert!(rt; is_written_as(rt.alloc(), &commit, BY_HAND)?);
    assert!(rt; is_commit(rt.alloc(), BY_HAND)?);
    Ok(())
}
