//! The entries of a tree: mode, name and object.
ghost use Rattle.std.specs.Prelude.{◌≡◌, ◌++◌, ◌+◌, ◌<◌, ◌^◌, OnOk, IfSome, Some, length, slice_get};
ghost use Rattle.std.specs.Ordering.{nat_cmp};
ghost use Rattle.std.specs.Cmp.Lexicographic.{slice_cmp};
ghost use Rattle.hex.specs.Hex.{IsBytes};
ghost use Rattle.gb_text.specs.Digits.{IsName};
ghost use Rattle.git_object.specs.Grammar.{mode_text, entry_text, sort_key};
ghost use Rattle.git_object.specs.Reading.{is_entry_name, has_entry_name};

use gb_text::{Bytes, Name};
use std::alloc::AllocError;
use std::cmp::Ordering;

/// What an entry is, in Git's modes `100644`, `100755`, `120000`, `40000` and `160000`.
#[derive(Clone, Copy, Debug, PartialEq, Eq)]
pub enum Mode {
    Plain,
    Exec,
    Link,
    Folder,
    Module,
}

/// A name in a tree, and the object that it stands for. The name of an entry that was read has one
/// byte or more, and neither a zero byte nor a slash.
#[derive(Drop)]
pub struct Entry {
    pub mode: Mode,
    pub name: Bytes,
    pub object: Name,
}

/// Whether a name that ended at its first zero byte is an entry's.
pub(crate) fn is_entry_name(name: &[u8]) -> bool
    ensures { result ≡ is_entry_name name.now }
{
    !name.is_empty() && !name.contains(&b'/')
}

/// Whether the entry has a name that it can be written with.
pub(crate) fn has_entry_name(entry: &Entry) -> bool
    ensures { result ≡ has_entry_name entry.now }
{
    let name = entry.name.as_slice();
    is_entry_name(name) && !name.contains(&0)
}

fn mode_digits(mode: Mode) -> &'static [u8]
    ensures { result.now ≡ mode_text mode }
{
    match mode {
        Mode::Plain => b"100644",
        Mode::Exec => b"100755",
        Mode::Link => b"120000",
        Mode::Folder => b"40000",
        Mode::Module => b"160000",
    }
}

/// Appends the entry's text.
pub(crate) fn append_entry(text: &mut Vec<u8>, entry: &Entry) -> Result<(), AllocError>
    ensures text { OnOk result (text.new.items ≡ text.old.items ++ entry_text entry.now) }
    ensures object { OnOk result (IsName entry.now.object) }
{
    text.extend_from_slice(mode_digits(entry.mode))?;
    text.push(b' ')?;
    text.extend_from_slice(entry.name.as_slice())?;
    text.push(0)?;
    append_bytes(text, &entry.object.bytes)?;
    Ok(())
}

fn append_bytes(text: &mut Vec<u8>, bytes: &[u8]) -> Result<(), AllocError>
    ensures text { OnOk result (text.new.items ≡ text.old.items ++ bytes.now) }
    ensures bytes { IsBytes bytes.now }
{
    text.extend_from_slice(bytes)
}

/// The writer's order of two entries: by name, a folder's as if it ended in a slash.
pub(crate) fn key_order(a: &Entry, b: &Entry) -> Ordering
    ensures { result ≡ slice_cmp nat_cmp (sort_key a.now) (sort_key b.now) }
{
    let mut i: usize = 0;
    while let Some(x) = key_byte(a, i) {
        let Some(y) = key_byte(b, i) else {
            return Ordering::Greater;
        };
        if x != y {
            return x.cmp(&y);
        }
        i += 1;
    }
    match key_byte(b, i) {
        Some(_) => Ordering::Less,
        None => Ordering::Equal,
    }
}

// The byte at an index of the key by which the entry is sorted.
fn key_byte(entry: &Entry, i: usize) -> Option<u8>
    ensures byte { result ≡ slice_get (sort_key entry.now) i }
    ensures bound { IfSome result (λ _. i + 1 < 2 ^ 64) }
{
    let name = entry.name.as_slice();
    if i < name.len() {
        Some(name[i])
    } else if i == name.len() && entry.mode == Mode::Folder {
        Some(b'/')
    } else {
        None
    }
}
