//! Operations of a bug, and reading bugs.
use dag_entity::{Entity, EntityFault, read_entity};
use fixtures::Disk;
use gb_text::{Id, Name};
use op_kind::OpKind;
use std::test::Fail;

/// The author that is known, and its digits.
pub const ANA: Id = Id { bytes: [0x0a; 32] };

pub const ANA_DIGITS: &[u8] = b"0a0a0a0a0a0a0a0a0a0a0a0a0a0a0a0a0a0a0a0a0a0a0a0a0a0a0a0a0a0a0a0a";

/// An author that is not known, and its digits.
pub const BOB: Id = Id { bytes: [0x0b; 32] };

pub const BOB_DIGITS: &[u8] = b"0b0b0b0b0b0b0b0b0b0b0b0b0b0b0b0b0b0b0b0b0b0b0b0b0b0b0b0b0b0b0b0b";

/// The bug that begins with `CREATE`: the SHA-256 of that.
pub const BUG: Id = Id {
    bytes: *b"\x39\x12\xf3\x27\x47\xd1\xe7\xd3\x15\xd8\x9c\xd5\x50\xe6\x1a\x80\x63\x83\x42\xc8\x5e\x80\xfe\xc8\xf8\x44\xc3\x70\x35\x61\x3d\xc8",
};

/// The SHA-256 of `OTHER_CREATE`.
pub const OTHER_ID: Id = Id {
    bytes: *b"\xf6\xb2\x7d\x2d\x8a\xd5\xbc\x2d\x80\xe6\x2c\x15\x2d\x82\x29\xc2\x09\xa3\xf5\xe8\xc9\xab\x50\x07\x5f\xf4\xfe\x69\x38\xe1\x9d\x39",
};

/// Operations that change nothing, and the SHA-256 of the first.
pub const ONE: &[u8] = b"{\"nonce\":\"AAAAAAAAAAAAAAAAAAAAAAAAAAA=\",\"timestamp\":1,\"type\":7}";

pub const TWO: &[u8] = b"{\"nonce\":\"AAAAAAAAAAAAAAAAAAAAAAAAAAA=\",\"timestamp\":2,\"type\":7}";

pub const THREE: &[u8] = b"{\"nonce\":\"AAAAAAAAAAAAAAAAAAAAAAAAAAA=\",\"timestamp\":3,\"type\":7}";

pub const FOUR: &[u8] = b"{\"nonce\":\"AAAAAAAAAAAAAAAAAAAAAAAAAAA=\",\"timestamp\":4,\"type\":7}";

pub const FIVE: &[u8] = b"{\"nonce\":\"AAAAAAAAAAAAAAAAAAAAAAAAAAA=\",\"timestamp\":5,\"type\":7}";

pub const SIX: &[u8] = b"{\"nonce\":\"AAAAAAAAAAAAAAAAAAAAAAAAAAA=\",\"timestamp\":6,\"type\":7}";

pub const SEVEN: &[u8] = b"{\"nonce\":\"AAAAAAAAAAAAAAAAAAAAAAAAAAA=\",\"timestamp\":7,\"type\":7}";

pub const EIGHT: &[u8] = b"{\"nonce\":\"AAAAAAAAAAAAAAAAAAAAAAAAAAA=\",\"timestamp\":8,\"type\":7}";

pub const ONE_ID: Id = Id {
    bytes: *b"\x13\x12\xd8\x66\xe0\x2a\xb8\x08\x87\x70\xe1\x8d\xd1\x4b\xdd\xc4\xba\xec\x4e\x35\xb2\x74\x58\x23\xcb\xd8\x6e\xa8\x78\x14\xf6\x0d",
};

/// What is told of an entity: its commits in order, and its numbers.
#[derive(Drop)]
pub struct Told {
    pub order: Vec<Name>,
    pub commits: u64,
    pub edit: u64,
    pub create: u64,
}

// What reads an entity is generic over the kind: it is proved from the kind's contract alone, in which the meaning of bugs, a
// large term, does not stand.

/// The entity below one head, of the id of the bug.
pub fn read_one<K: OpKind>(disk: &mut Disk, head: &Name) -> Result<Entity<K>, EntityFault> {
    read_entity(
        disk.alloc,
        &mut disk.store,
        &disk.folder,
        &BUG,
        &[*head],
        &[ANA],
    )
}

/// The entity below two heads.
pub fn read_two<K: OpKind>(
    disk: &mut Disk,
    one: &Name,
    two: &Name,
) -> Result<Entity<K>, EntityFault> {
    read_entity(
        disk.alloc,
        &mut disk.store,
        &disk.folder,
        &BUG,
        &[*one, *two],
        &[ANA],
    )
}

/// What is told of the entity that was read.
pub fn told_of<K: OpKind>(
    disk: &Disk,
    read: Result<Entity<K>, EntityFault>,
) -> Result<Result<Told, EntityFault>, Fail> {
    let entity = match read {
        Ok(entity) => entity,
        Err(fault) => return Ok(Err(fault)),
    };
    let mut order = Vec::new(disk.alloc);
    for placed in entity.packs.as_slice() {
        order.push(placed.commit)?;
    }
    Ok(Ok(Told {
        order,
        commits: entity.commits,
        edit: entity.edit,
        create: entity.create,
    }))
}
