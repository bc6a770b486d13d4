//! What the first digits of comments' ids find.
use fixtures::{CREATE, Disk, id, put_commit, put_files, put_pack};
use gb_text::Id;
use repo_state::{Side, find_comment, set_head};
use std::test::Fail;

const AUTHOR: &[u8] = b"0a0a0a0a0a0a0a0a0a0a0a0a0a0a0a0a0a0a0a0a0a0a0a0a0a0a0a0a0a0a0a0a";

const AUTHOR_PATH: &str =
    "f/refs/identities/0a0a0a0a0a0a0a0a0a0a0a0a0a0a0a0a0a0a0a0a0a0a0a0a0a0a0a0a0a0a0a0a";

// The SHA-256 of `CREATE`: the id of the bug, and of the operation that makes its first comment.
const BUG: &str = "3912f32747d1e7d315d89cd550e61a80638342c85e80fec8f844c37035613dc8";

// A comment whose SHA-256 begins with the same three digits, and that SHA-256.
const COMMENT: &[u8] =
    b"{\"files\":[],\"message\":\"\",\"nonce\":\"AAAAAAAAAAAAAAAAAAAAAAAAAAA=\",\"timestamp\":7578,\"type\":3}";

const COMMENT_ID: &str = "391ab366fb1cebaee87aae0734b87ca3306bd6261236469ce546a6318e4b565e";

// The ids of both comments, whose first nine digits are the same.
const FIRST: &str = "3399112f322747fd1e73d3152d89c7d5504e61a78063d83421c85ee80fe7c8f8";

const SECOND: &str = "3399112f3a2747bd1e73d3156d89c6d550fe61ab806318342cc85ee80febc8f8";

// Makes the bug with both comments.
fn make_bug(disk: &mut Disk) -> Result<(), Fail> {
    disk.put(AUTHOR_PATH, b"x")?;
    let ops = put_pack(disk, AUTHOR, &[CREATE, COMMENT])?;
    let files = ["create-clock-1", "edit-clock-1", "ops", "version-4"];
    let tree = put_files(disk, &files, &ops)?;
    let head = put_commit(disk, &tree, &[])?;
    let (store, folder) = (&mut disk.store, &disk.folder);
    set_head(disk.alloc, store, folder, &Side::Bugs, &id(BUG)?, &head)?;
    Ok(())
}

// The operation that made the only comment that an argument finds.
fn found(disk: &mut Disk, word: &str) -> Option<Id> {
    match find_comment(disk.alloc, &mut disk.store, &disk.folder, word) {
        Ok(found) => Some(found.entry.comment),
        Err(_) => None,
    }
}

// Arguments, and the operations that made the only comments that they fit.
const FOUND: &[(&str, &str)] = &[
    ("3399112f32", BUG),
    (FIRST, BUG),
    ("3399112f3a", COMMENT_ID),
    (SECOND, COMMENT_ID),
    ("3399112f3", ""),
    ("3399112f3b", ""),
    (BUG, ""),
];

#[test]
fn a_comment_is_found_by_the_digits_that_it_has_alone(rt: HostRuntime) -> Result<(), Fail> {
    let mut disk = Disk::new(rt.alloc())?;
    make_bug(&mut disk)?;
    for (word, made_by) in FOUND {
        assert_eq!(rt;
            found(&mut disk, word),
            Id::read(made_by.as_bytes()),
            "{word}"
        );
    }
    Ok(())
}
