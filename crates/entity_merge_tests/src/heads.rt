//! Heads of small bugs, and joins of them.
use dag_entity::{Entity, EntityFault, read_entity};
use entity_merge::{MergeFault, MergeOut, Merged, merge};
use fixtures::{CREATE, Disk, put_commit, put_files, put_pack};
use gb_text::{Id, Name};
use lamport::Clock;
use op_kind::OpKind;
use std::test::Fail;

/// The author that is known, and its digits.
pub const ANA: Id = Id { bytes: [0x0a; 32] };

const ANA_DIGITS: &[u8] = b"0a0a0a0a0a0a0a0a0a0a0a0a0a0a0a0a0a0a0a0a0a0a0a0a0a0a0a0a0a0a0a0a";

/// An author that is not known.
pub const BOB: Id = Id { bytes: [0x0b; 32] };

/// The bug that begins with `CREATE`: the SHA-256 of that.
pub const BUG: Id = Id {
    bytes: *b"\x39\x12\xf3\x27\x47\xd1\xe7\xd3\x15\xd8\x9c\xd5\x50\xe6\x1a\x80\x63\x83\x42\xc8\x5e\x80\xfe\xc8\xf8\x44\xc3\x70\x35\x61\x3d\xc8",
};

/// Operations that change nothing, and the SHA-256 of the first.
pub const ONE: &[u8] = b"{\"nonce\":\"AAAAAAAAAAAAAAAAAAAAAAAAAAA=\",\"timestamp\":1,\"type\":7}";

pub const TWO: &[u8] = b"{\"nonce\":\"AAAAAAAAAAAAAAAAAAAAAAAAAAA=\",\"timestamp\":2,\"type\":7}";

pub const ONE_ID: Id = Id {
    bytes: *b"\x13\x12\xd8\x66\xe0\x2a\xb8\x08\x87\x70\xe1\x8d\xd1\x4b\xdd\xc4\xba\xec\x4e\x35\xb2\x74\x58\x23\xcb\xd8\x6e\xa8\x78\x14\xf6\x0d",
};

/// A name under which nothing is stored.
pub const ABSENT: Name = Name { bytes: [99; 20] };

/// The files of the trees of commits with the edit clocks 1 (and the create clock 7), 2 and 3, and of one
/// with the greatest clock.
pub const FIRST: &[&str] = &["create-clock-7", "edit-clock-1", "ops", "version-4"];

pub const SECOND: &[&str] = &["edit-clock-2", "ops", "version-4"];

pub const THIRD: &[&str] = &["edit-clock-3", "ops", "version-4"];

pub const LAST: &[&str] = &["edit-clock-9223372036854775807", "ops", "version-4"];

/// A commit of Ana's over these parents, with these files in its tree, and these operations.
pub fn put(disk: &mut Disk, parents: &[Name], files: &[&str], ops: &[&[u8]]) -> Result<Name, Fail> {
    let pack = put_pack(disk, ANA_DIGITS, ops)?;
    let tree = put_files(disk, files, &pack)?;
    put_commit(disk, &tree, parents)
}

/// The root of the bug.
pub fn root(disk: &mut Disk) -> Result<Name, Fail> {
    put(disk, &[], FIRST, &[CREATE])
}

/// The root and two commits over it at the edit clock 2, each with an operation of its own.
pub fn fork(disk: &mut Disk) -> Result<(Name, Name, Name), Fail> {
    let root = root(disk)?;
    let local = put(disk, &[root], SECOND, &[ONE])?;
    let remote = put(disk, &[root], SECOND, &[TWO])?;
    Ok((root, local, remote))
}

// What joins and what reads is generic over the kind: it is proved from the kind's contract alone, in which the meaning of
// bugs, a large term, does not stand.

/// Joins two heads of the bug, as an author, with a folder's clock.
pub fn join_as<K: OpKind>(
    disk: &mut Disk,
    local: Option<Name>,
    remote: &Name,
    author: &Id,
    clock: &[u8],
) -> Result<MergeOut, MergeFault> {
    merge::<K, _>(
        disk.alloc,
        &mut disk.store,
        &disk.folder,
        &BUG,
        local,
        remote,
        author,
        &[ANA],
        &Clock::read(clock),
        100,
    )
}

/// Joins two heads of the bug as Ana, where the folder has no clock.
pub fn join<K: OpKind>(
    disk: &mut Disk,
    local: Option<Name>,
    remote: &Name,
) -> Result<MergeOut, MergeFault> {
    join_as::<K>(disk, local, remote, &ANA, b"")
}

/// The answer to a join.
pub fn out(merged: Merged, edit: u64, create: u64) -> Result<MergeOut, MergeFault> {
    Ok(MergeOut {
        merged,
        edit,
        create,
    })
}

/// The merge commit, or the absent name.
pub fn head_of(joined: &Result<MergeOut, MergeFault>) -> Name {
    match joined {
        Ok(
            MergeOut {
                merged: Merged::Joined(head),
                ..
            },
        ) => *head,
        _ => ABSENT,
    }
}

/// How many commits lie below a head, and how many operations they have.
pub fn counts_of<K: OpKind>(disk: &mut Disk, head: &Name) -> Result<(u64, u64), EntityFault> {
    let entity: Entity<K> = read_entity(
        disk.alloc,
        &mut disk.store,
        &disk.folder,
        &BUG,
        &[*head],
        &[ANA],
    )?;
    let mut ops: u64 = 0;
    for placed in entity.packs.as_slice() {
        ops = ops.saturating_add(placed.pack.ops.len() as u64);
    }
    Ok((entity.commits, ops))
}
