//! Packs of bugs whose texts are written by other programs.
use crate::{bug_of_packs, fold_both};
use bug_ops::BugOp;
use fixtures::{id, pack_text};
use gb_text::{Id, Memory, Name};
use lamport::Clock;
use op_kind::OpKind;
use op_pack::{Pack, PackFault, TreeHead};
use std::alloc::Global;
use std::test::Fail;

/// A head with the edit clock 7 and the create clock 3.
fn head() -> TreeHead {
    TreeHead {
        version: 4,
        edit: Clock::read(b"6").root_time(),
        create: Some(Clock::read(b"2").root_time()),
        ops: Name { bytes: [7; 20] },
    }
}

const AUTHOR: Id = Id { bytes: [1; 32] };

const AUTHOR_DIGITS: &[u8] = b"0101010101010101010101010101010101010101010101010101010101010101";

/// A creation whose title is `a<b`, and whose text another program wrote.
const CREATION: &[u8] = b"{ \"title\":\"a\\u003cb\", \"message\":\"m\", \
      \"nonce\":\"AAAAAAAAAAAAAAAAAAAAAAAAAAA=\",\"timestamp\":0, \"type\" : 1 }";

const COMMENT: &[u8] =
    b"{\"message\":\"c\",\"nonce\":\"AAAAAAAAAAAAAAAAAAAAAAAAAAA=\",\"timestamp\":2,\"type\":3}";

// What reads and writes is generic over the kind: it is proved from the kind's contract alone, in which the meaning of bugs, a
// large term, does not stand. What a test looks at of a pack stands in a function of its own, so that the pack is dropped at
// one place of the test.

/// The pack of a text.
fn read<K: OpKind>(alloc: Global, text: &[u8]) -> Result<Pack<K>, PackFault> {
    Pack::read(alloc, &head(), text)
}

/// The pack of these operations.
fn pack_of<K: OpKind>(alloc: Global, ops: &[&[u8]]) -> Result<Pack<K>, Fail> {
    Ok(read::<K>(alloc, &pack_text(alloc, AUTHOR_DIGITS, ops)?)?)
}

/// The pack of what a pack is written as.
fn read_again<K: OpKind>(alloc: Global, pack: &Pack<K>) -> Result<Pack<K>, Fail> {
    let written = pack.write(alloc)?;
    Ok(read::<K>(alloc, written.text.as_slice())?)
}

/// The id of the first operation of a pack.
fn first_id<K: OpKind>(pack: &Pack<K>) -> Option<Id> {
    pack.ops.as_slice().first().map(|op| op.common().place.id)
}

/// The title with which the first operation of a pack begins a bug.
fn first_title(pack: &Pack<BugOp>) -> &str {
    match pack.ops.as_slice().first() {
        Some(BugOp::Create { title, .. }) => title.as_str(),
        _ => "",
    }
}

/// Whether a pack of the creation has its title, and the id of its text as another program wrote it.
fn is_as_it_stands(alloc: Global, pack: &Pack<BugOp>) -> Result<bool, Fail> {
    let wanted = id("66b36241fadce89bf1f6d8f32136295d7deb3b601e26ef97556f9e1bafb23e38")?;
    let again = first_id(&read_again(alloc, pack)?);
    Ok(first_title(pack) == "a<b" && first_id(pack) == Some(wanted) && again != Some(wanted))
}

#[test]
fn a_title_reads_and_the_id_is_of_the_text_as_it_stands(rt: HostRuntime) -> Result<(), Fail> {
    let pack = pack_of::<BugOp>(rt.alloc(), &[CREATION])?;
    let is_whole = is_as_it_stands(rt.alloc(), &pack);
    assert!(rt; is_whole?);
    Ok(())
}

/// The author of a text's pack, how many operations it has, and its id.
fn numbers<K: OpKind>(alloc: Global, text: &[u8]) -> Result<(Id, usize, Id), Fail> {
    let pack = read::<K>(alloc, text)?;
    Ok((pack.author, pack.ops.len(), pack.id))
}

#[test]
fn operations_that_are_null_are_none(rt: HostRuntime) -> Result<(), Fail> {
    let text = b"{ \"ops\" : null , \"author\":\
          {\"id\":\"0101010101010101010101010101010101010101010101010101010101010101\"} }";
    let wanted = id("40167ccc947a422e28c5a89e46414336a4f82f695bcc194f538e98128c92a3d6")?;
    assert_eq!(rt; numbers::<BugOp>(rt.alloc(), text)?, (AUTHOR, 0, wanted));
    Ok(())
}

fn two_packs<K: OpKind>(alloc: Global) -> Result<Vec<Pack<K>>, Fail> {
    let first = pack_of::<K>(alloc, &[CREATION, COMMENT])?;
    let second = pack_of::<K>(alloc, &[COMMENT])?;
    let mut packs = Vec::new(alloc);
    packs.push(first).ok().ok_or("memory")?;
    packs.push(second).ok().ok_or("memory")?;
    Ok(packs)
}

fn comments_of(alloc: Global, packs: &[Pack<BugOp>]) -> Result<u64, Memory> {
    let bug = bug_of_packs(alloc, packs)?;
    Ok(bug.row.comments)
}

#[test]
fn packs_add_up_to_a_bug(rt: HostRuntime) -> Result<(), Fail> {
    let packs = two_packs::<BugOp>(rt.alloc())?;
    assert_eq!(rt; comments_of(rt.alloc(), &packs)?, 3);
    Ok(())
}

fn comments_of_both(alloc: Global, ops: &[BugOp]) -> Result<(u64, u64), Memory> {
    let (bug, row) = fold_both(alloc, ops)?;
    Ok((bug.row.comments, row.comments))
}

#[test]
fn a_bug_and_its_row_go_along(rt: HostRuntime) -> Result<(), Fail> {
    let pack = pack_of::<BugOp>(rt.alloc(), &[CREATION, COMMENT])?;
    let comments = comments_of_both(rt.alloc(), pack.ops.as_slice());
    assert_eq!(rt; comments?, (2, 2));
    Ok(())
}
