//! The contents of a bug's objects.
use gb_text::{Memory, Name};
use std::alloc::Global;

// The name of the empty blob.
const EMPTY: Name = Name {
    bytes: *b"\xe6\x9d\xe2\x9b\xb2\xd1\xd6\x43\x4b\x8b\x29\xae\x77\x5a\xd8\xc2\xe4\x8c\x53\x91",
};

const PERSONS: &[u8] =
    b"author A <a@example.com> 1700000000 +0000\ncommitter A <a@example.com> 1700000000 +0000\n\n";

/// So many bytes, others for each clock of each bug.
pub fn pack_text(alloc: Global, bug: u64, size: usize, clock: &str) -> Result<Vec<u8>, Memory> {
    let mut text = Vec::new(alloc);
    text.extend_from_slice(format!(in alloc; "{bug} {clock} ")?.as_bytes())?;
    text.resize(size, b'x')?;
    Ok(text)
}

/// The content of a tree of a clock, a pack and a version.
pub fn tree_text(alloc: Global, clock: &str, pack: &Name) -> Result<Vec<u8>, Memory> {
    let mut text = Vec::new(alloc);
    push_file(&mut text, clock, &EMPTY)?;
    push_file(&mut text, "ops", pack)?;
    push_file(&mut text, "version-4", &EMPTY)?;
    Ok(text)
}

// Adds a plain file to the content of a tree.
fn push_file(text: &mut Vec<u8>, name: &str, blob: &Name) -> Result<(), Memory> {
    text.extend_from_slice(b"100644 ")?;
    text.extend_from_slice(name.as_bytes())?;
    text.push(0)?;
    text.extend_from_slice(&blob.bytes)?;
    Ok(())
}

/// The content of a commit with a tree, and with a parent if there is one.
pub fn commit_text(alloc: Global, tree: &Name, parent: Option<Name>) -> Result<Vec<u8>, Memory> {
    let mut text = Vec::new(alloc);
    push_line(&mut text, b"tree ", tree)?;
    if let Some(parent) = parent {
        push_line(&mut text, b"parent ", &parent)?;
    }
    text.extend_from_slice(PERSONS)?;
    Ok(text)
}

// Adds a line of a commit that names an object.
fn push_line(text: &mut Vec<u8>, word: &[u8], name: &Name) -> Result<(), Memory> {
    text.extend_from_slice(word)?;
    text.extend_from_slice(&name.text())?;
    text.push(b'\n')?;
    Ok(())
}
