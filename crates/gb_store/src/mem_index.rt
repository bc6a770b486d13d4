//! A list of writes, the oldest first, and its index by path: where the last write of each path is.
ghost use Rattle.std.specs.Prelude.{◌≡◌, ◌<◌, is_some, ◌∷◌, ◌++◌, [], reverse, string_bytes, option_copied, IfOk, OnOk, OnErr};
ghost use Rattle.gb_store.specs.Files.{file_at, files_of, TellsFile, IsListing};
ghost use Rattle.gb_store.specs.MemIndex.{IsIndex, bytes_at, name_below};

use crate::{Change, Content};
use gb_text::{Bytes, Memory, Text};
use std::alloc::Global;
use std::collections::BTreeMap;

// The names of the files that stand right in a folder.
pub fn names(
    alloc: Global,
    changes: &[Change],
    latest: &BTreeMap<String, usize>,
    dir: &str,
) -> Result<Vec<Text>, Memory>
    requires { IsIndex latest.now changes.now }
    ensures { IfOk result
        (λ names. IsListing (files_of (reverse changes.now)) dir.now names.items) }
{
    let mut names = Vec::new(alloc);
    // What is below the folder lies between these, since `0` is the byte after `/`.
    let start = followed_by(alloc, dir, '/')?;
    let end = followed_by(alloc, dir, '0')?;
    for (path, at) in latest.range(start..end) {
        let Some(name) = name_in(dir, path.as_str()) else {
            continue;
        };
        if stands(changes, *at) {
            names.push(Text::from_str(alloc, name)?)?;
        }
    }
    Ok(names)
}

// A text and one byte more.
fn followed_by(alloc: Global, text: &str, byte: char) -> Result<String, Memory>
    requires { byte < 128 }
    ensures { IfOk result (λ longer. string_bytes longer ≡ text.now ++ byte ∷ []) }
{
    let mut longer = String::from_str(alloc, text)?;
    longer.push(byte)?;
    Ok(longer)
}

// Whether the write at an index left a file.
fn stands(changes: &[Change], at: usize) -> bool
    ensures { result ≡ is_some (bytes_at changes.now at) }
{
    match changes.get(at) {
        None => false,
        Some(change) => change.bytes.is_some(),
    }
}

// The name of a path that is right in a folder.
fn name_in<'a>(dir: &str, path: &'a str) -> Option<&'a str>
    ensures { option_copied result ≡ name_below dir.now path.now }
{
    let name = path.strip_prefix(dir)?.strip_prefix('/')?;
    if name.as_bytes().contains(&b'/') {
        return None;
    }
    Some(name)
}

// Adds a write, and sets the index of its path. At want of memory nothing has changed.
pub fn append(
    changes: &mut Vec<Change>,
    latest: &mut BTreeMap<String, usize>,
    key: String,
    change: Change,
) -> Result<(), Memory>
    requires index { IsIndex latest.old changes.old.items }
    requires key { string_bytes key ≡ change.path }
    ensures ok { OnOk result (changes.new.items ≡ changes.old.items ++ change ∷ []) }
    ensures err { OnErr result (changes.new.items ≡ changes.old.items) }
    ensures index { IsIndex latest.new changes.new.items }
{
    let at = changes.len();
    changes.push(change)?;
    if let Err(_) = latest.insert(key, at) {
        let _ = changes.pop();
        return Err(Memory);
    }
    Ok(())
}

// The index of a list of writes.
pub fn index_of(alloc: Global, changes: &[Change]) -> Result<BTreeMap<String, usize>, Memory>
    ensures { IfOk result (λ latest. IsIndex latest changes.now) }
{
    let mut latest = BTreeMap::new(alloc);
    for (at, change) in changes.iter().enumerate() {
        let key = String::from_str(alloc, change.path.as_str())?;
        latest.insert(key, at)?;
    }
    Ok(latest)
}

// What the last write of a path left.
pub fn find(
    alloc: Global,
    changes: &[Change],
    latest: &BTreeMap<String, usize>,
    path: &str,
    limit: u64,
) -> Result<Content, Memory>
    requires { IsIndex latest.now changes.now }
    ensures { IfOk result (TellsFile (file_at (reverse changes.now) path.now) limit) }
{
    let Some(bytes) = newest(changes, latest, path) else {
        return Ok(Content::Absent);
    };
    let bytes = bytes.as_slice();
    if bytes.len() as u64 <= limit {
        Ok(Content::Whole(Bytes::from_slice(alloc, bytes)?))
    } else {
        Ok(Content::Long)
    }
}

// The bytes that the last write of a path left there.
fn newest<'a>(
    changes: &'a [Change],
    latest: &BTreeMap<String, usize>,
    path: &str,
) -> Option<&'a Bytes>
    requires { IsIndex latest.now changes.now }
    ensures { option_copied result ≡ file_at (reverse changes.now) path.now }
{
    let at = *latest.get(path)?;
    let change = &changes[at];
    change.bytes.as_ref()
}
