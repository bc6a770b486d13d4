//! Trees of packs: worked entries, and that calls succeed.
use fixtures::EMPTY;
use gb_text::{Memory, Name};
use git_object::TreeView;
use lamport::Time;
use op_pack::{TreeHead, read_head, tree_for};
use std::alloc::Global;
use std::test::Fail;

const OPS: Name = Name { bytes: [7; 20] };

/// What the tree of which this is the content says.
fn head_in(alloc: Global, content: &[u8]) -> Result<TreeHead, Fail> {
    let tree = TreeView::read(alloc, content)?.ok_or("a tree")?;
    Ok(read_head(&tree)?)
}

/// What a tree that is made says, once it is written and read.
fn head_again(alloc: Global, edit: Time, create: Option<Time>) -> Result<TreeHead, Fail> {
    let tree = tree_for(alloc, edit, create, &OPS)?;
    let content = tree.write(alloc)?;
    head_in(alloc, content.as_slice())
}

/// Whether a tree says what it was made of, once it is written and read.
fn reads_back(alloc: Global, edit: Time, create: Option<Time>) -> Result<bool, Fail> {
    let head = head_again(alloc, edit, create)?;
    let has_clocks = head.edit == edit && head.create == create;
    Ok(has_clocks && head.version == 4 && head.ops == OPS)
}

#[test]
fn trees_that_are_made_read_back(rt: HostRuntime) -> Result<(), Fail> {
    let edit = Time::read(9223372036854775807).ok_or("a time")?;
    let is_same = reads_back(rt.alloc(), edit, Time::read(1));
    assert!(rt; is_same?);
    Ok(())
}

/// What the entry of the edit clock names in a tree that is made.
fn named_by_clock(alloc: Global, edit: Time) -> Result<Option<Name>, Memory> {
    let tree = tree_for(alloc, edit, None, &OPS)?;
    Ok(tree.entries.as_slice().get(1).map(|entry| entry.object))
}

#[test]
fn clocks_name_the_empty_blob_of_git(rt: HostRuntime) -> Result<(), Fail> {
    let edit = Time::read(2).ok_or("a time")?;
    assert_eq!(rt; named_by_clock(rt.alloc(), edit), Ok(Some(EMPTY)));
    Ok(())
}
