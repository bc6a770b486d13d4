//! Commits below heads and along chains: large ones, and that calls succeed.
use commit_walk::{
    Both, ChainStop, WalkFault, WalkStop, lies_below, passes, walk, walk_both, walk_chain,
};
use fixtures::{Disk, put_commit};
use gb_text::Name;
use std::test::Fail;

// Puts a commit with these parents, whose tree has a name of this byte. No tree is read.
fn commit(disk: &mut Disk, tree: u8, parents: &[Name]) -> Result<Name, Fail> {
    put_commit(disk, &Name { bytes: [tree; 20] }, parents)
}

// Puts two commits above a low one, and a merge of them.
fn diamond(disk: &mut Disk, low: Name) -> Result<Name, Fail> {
    let left = commit(disk, 1, &[low])?;
    let right = commit(disk, 2, &[low])?;
    commit(disk, 3, &[left, right])
}

// Puts a chain of so many commits, the root first.
fn chain(disk: &mut Disk, count: usize) -> Result<Vec<Name>, Fail> {
    let mut head = commit(disk, 1, &[])?;
    let mut names = Vec::new(disk.alloc);
    for _ in 1..count {
        names.push(head)?;
        head = commit(disk, 1, &[head])?;
    }
    names.push(head)?;
    Ok(names)
}

// How many commits are met below a head.
fn walked(disk: &mut Disk, head: Name) -> Result<usize, WalkStop> {
    Ok(walk(disk.alloc, &mut disk.store, &disk.folder, &[head])?.len())
}

// The first commit of the chain from a head, if the walk is whole.
fn root_of(disk: &mut Disk, head: &Name) -> Result<Option<Name>, ChainStop> {
    let links = walk_chain(disk.alloc, &mut disk.store, &disk.folder, head)?;
    Ok(links.first().map(|link| link.name))
}

fn is_below(disk: &mut Disk, high: &Name, low: &Name) -> Option<bool> {
    lies_below(disk.alloc, &mut disk.store, &disk.folder, high, low).ok()
}

fn does_pass(disk: &mut Disk, head: &Name, name: &Name) -> Option<bool> {
    passes(disk.alloc, &mut disk.store, &disk.folder, head, name).ok()
}

// How many commits lie below two heads, if the second does not lie below the first.
fn below_both(disk: &mut Disk, first: &Name, second: &Name) -> Result<usize, WalkStop> {
    match walk_both(disk.alloc, &mut disk.store, &disk.folder, first, second)? {
        Both::Equal | Both::Below => Ok(0),
        Both::Walk(walk) => Ok(walk.len()),
    }
}

// Puts so many diamonds, one above the other.
fn stack(disk: &mut Disk, count: u64) -> Result<Name, Fail> {
    let mut high = commit(disk, 1, &[])?;
    for _ in 0..count {
        high = diamond(disk, high)?;
    }
    Ok(high)
}

// Whether each commit of fourteen diamonds is met and read once.
fn are_met_once(disk: &mut Disk) -> Result<bool, Fail> {
    let high = stack(disk, 14)?;
    Ok(walked(disk, high) == Ok(43) && disk.store.reads() == 43)
}

#[test]
fn stacked_diamonds_are_read_once(rt: HostRuntime) -> Result<(), Fail> {
    let are_met_once = are_met_once(&mut Disk::new(rt.alloc())?);
    assert!(rt; are_met_once?);
    Ok(())
}

// Whether a search in such a chain finds its root, and a walk of 65,536 steps passes the commit above it alone.
fn is_sought(disk: &mut Disk, count: usize) -> Result<bool, Fail> {
    let names = chain(disk, count)?;
    let [root, low, .., head] = names.as_slice() else {
        return Ok(false);
    };
    let is_below = is_below(disk, head, root) == Some(true);
    let is_passed = does_pass(disk, head, low) == Some(true);
    Ok(is_below && is_passed && does_pass(disk, head, root) == Some(false))
}

#[test]
fn a_search_has_no_limit_and_a_chain_has_65536_steps(rt: HostRuntime) -> Result<(), Fail> {
    let is_sought = is_sought(&mut Disk::new(rt.alloc())?, 65_538);
    assert!(rt; is_sought?);
    Ok(())
}

// Whether walks meet all of such a chain but its head, and no walk meets its head too.
fn is_most(disk: &mut Disk, count: usize) -> Result<bool, Fail> {
    let names = chain(disk, count)?;
    let [root, .., high, head] = names.as_slice() else {
        return Ok(false);
    };
    let is_root = root_of(disk, high) == Ok(Some(*root));
    let is_refused = below_both(disk, root, head) == Err(WalkStop::Fault(WalkFault::TooMany));
    Ok(is_root && is_refused && below_both(disk, root, high) == Ok(65_536))
}

#[test]
fn a_walk_meets_at_most_65536_commits(rt: HostRuntime) -> Result<(), Fail> {
    let is_most = is_most(&mut Disk::new(rt.alloc())?, 65_537);
    assert!(rt; is_most?);
    Ok(())
}
