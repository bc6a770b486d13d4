//! Long folds: each is to take steps by n log n, where n is the number of operations.
use bug_ops::{BugOp, Fold, Snapshot};
use gb_text::{Id, List, Text};
use op_kind::{Common, Nonce, OpKind, Pair, Place};
use std::alloc::Global;
use std::test::Fail;

/// The id of a number, the greatest first.
fn id_of(index: u32) -> Id {
    let mut bytes = [0; 32];
    bytes[..4].copy_from_slice(&(u32::MAX - index).to_be_bytes());
    Id::from_bytes(bytes)
}

/// The common part of an operation whose id and whose author are those of a number.
fn common(alloc: Global, index: u32) -> Result<Common, Fail> {
    Ok(Common {
        place: Place {
            id: id_of(index),
            author: id_of(index),
            edit: 1,
            create: None,
        },
        kind: 3,
        time: 1,
        nonce: Nonce::from_bytes(alloc, &[0; 20])?,
        metadata: List::new(alloc),
    })
}

/// The digits of a number, with zeros before it, so that a greater number has a lesser text.
fn label(alloc: Global, index: u32) -> Result<Text, Fail> {
    let text = format!(in alloc; "{}", u32::MAX - index)?;
    Ok(Text::from_string(text))
}

fn labels(alloc: Global, first: u32, count: u32) -> Result<List<Text>, Fail> {
    let mut labels = Vec::new(alloc);
    for index in first..first.saturating_add(count) {
        labels.push(label(alloc, index)?)?;
    }
    Ok(List::from_vec(labels))
}

fn comment(alloc: Global, index: u32) -> Result<BugOp, Fail> {
    Ok(BugOp::AddComment {
        common: common(alloc, index)?,
        message: Text::from_str(alloc, "c")?,
        files: List::new(alloc),
    })
}

fn edit(alloc: Global, index: u32, target: u32) -> Result<BugOp, Fail> {
    Ok(BugOp::EditComment {
        common: common(alloc, index)?,
        target: id_of(target),
        message: Text::from_str(alloc, "e")?,
        files: List::new(alloc),
    })
}

/// Puts labels on, the greatest first, and takes one off that is not there.
fn change(alloc: Global, first: u32, count: u32) -> Result<BugOp, Fail> {
    Ok(BugOp::LabelChange {
        common: common(alloc, 1)?,
        added: labels(alloc, first, count)?,
        removed: labels(alloc, first.saturating_add(count), 1)?,
    })
}

/// Sets a key, the greatest first, of a bug without a creation.
fn set_key(alloc: Global, index: u32) -> Result<BugOp, Fail> {
    let mut pairs = Vec::new(alloc);
    pairs.push(Pair {
        key: label(alloc, index)?,
        value: Text::from_str(alloc, "v")?,
    })?;
    Ok(BugOp::SetMetadata {
        common: common(alloc, 1)?,
        target: Id::from_bytes([0; 32]),
        pairs: List::from_vec(pairs),
    })
}

/// A state one operation further.
fn apply<K: OpKind>(alloc: Global, state: &mut K::State, op: &K) -> Result<(), Fail> {
    K::apply(alloc, state, op)?;
    Ok(())
}

/// A bug one operation further.
fn step(alloc: Global, fold: &mut Fold, op: Result<BugOp, Fail>) -> Result<(), Fail> {
    apply::<BugOp>(alloc, fold, &op?)
}

/// How many comments have the message.
fn count_messages(bug: &Snapshot, message: &str) -> usize {
    bug.list
        .as_slice()
        .iter()
        .filter(|comment| comment.message.as_str() == message)
        .count()
}

// Each fold goes on in a function of its own, so that it is dropped at one place.

fn comment_and_edit(alloc: Global, fold: &mut Fold, count: u32, edits: u32) -> Result<(), Fail> {
    for index in 0..count {
        step(alloc, fold, comment(alloc, index))?;
    }
    for index in 0..edits {
        step(alloc, fold, edit(alloc, count.saturating_add(index), index))?;
    }
    Ok(())
}

/// A bug of so many comments, of which the first so many were edited.
fn edited(alloc: Global, count: u32, edits: u32) -> Result<Snapshot, Fail> {
    let mut fold = BugOp::start(alloc);
    comment_and_edit(alloc, &mut fold, count, edits)?;
    Ok(fold.finish(alloc)?)
}

/// How many messages are edited, and how many actors and participants there are.
fn counts(bug: &Snapshot) -> (usize, usize, usize) {
    let row = &bug.row;
    (
        count_messages(bug, "e"),
        row.actors.len(),
        row.participants.len(),
    )
}

#[test]
fn edits_of_many_comments(rt: HostRuntime) -> Result<(), Fail> {
    let bug = edited(rt.alloc(), 65_536, 8_192)?;
    assert_eq!(rt; counts(&bug), (8_192, 73_728, 65_536));
    Ok(())
}

/// Makes comments of one id, each with an edit behind it, and one more.
fn comment_alike(alloc: Global, fold: &mut Fold, count: u32) -> Result<(), Fail> {
    for _ in 0..count {
        step(alloc, fold, comment(alloc, 1))?;
        step(alloc, fold, edit(alloc, 2, 1))?;
    }
    step(alloc, fold, comment(alloc, 1))
}

/// A bug of comments of one id, of which so many are edited and one is not.
fn edited_alike(alloc: Global, count: u32) -> Result<Snapshot, Fail> {
    let mut fold = BugOp::start(alloc);
    comment_alike(alloc, &mut fold, count)?;
    Ok(fold.finish(alloc)?)
}

#[test]
fn comments_of_one_id_are_edited_together(rt: HostRuntime) -> Result<(), Fail> {
    let bug = edited_alike(rt.alloc(), 20_000)?;
    assert_eq!(rt;
        (bug.row.comments, count_messages(&bug, "e")),
        (20_001, 20_000)
    );
    Ok(())
}

fn change_labels(alloc: Global, fold: &mut Fold, times: u32, each: u32) -> Result<(), Fail> {
    for index in 0..times {
        step(alloc, fold, change(alloc, index, each))?;
    }
    Ok(())
}

/// How many labels there are after so many changes of so many labels each.
fn labels_after(alloc: Global, times: u32, each: u32) -> Result<usize, Fail> {
    let mut fold = BugOp::start(alloc);
    change_labels(alloc, &mut fold, times, each)?;
    Ok(fold.finish(alloc)?.row.labels.len())
}

#[test]
fn many_changes_of_a_label(rt: HostRuntime) -> Result<(), Fail> {
    assert_eq!(rt; labels_after(rt.alloc(), 100_000, 1)?, 100_000);
    Ok(())
}

#[test]
fn one_change_of_many_labels(rt: HostRuntime) -> Result<(), Fail> {
    assert_eq!(rt; labels_after(rt.alloc(), 1, 100_000)?, 100_000);
    Ok(())
}

fn set_keys(alloc: Global, fold: &mut Fold, count: u32) -> Result<(), Fail> {
    for index in 0..count {
        step(alloc, fold, set_key(alloc, index))?;
    }
    Ok(())
}

/// How many keys there are after so many were set, one by one.
fn keys_after(alloc: Global, count: u32) -> Result<usize, Fail> {
    let mut fold = BugOp::start(alloc);
    set_keys(alloc, &mut fold, count)?;
    Ok(fold.finish(alloc)?.row.metadata.len())
}

#[test]
fn many_keys_one_by_one(rt: HostRuntime) -> Result<(), Fail> {
    assert_eq!(rt; keys_after(rt.alloc(), 100_000)?, 100_000);
    Ok(())
}
