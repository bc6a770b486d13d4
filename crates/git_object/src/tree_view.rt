//! Trees that borrow from the contents that they were read from.
ghost use Rattle.std.specs.Prelude.{◌≡◌, IfOk, map};
ghost use Rattle.std.specs.Option.{option_map};
ghost use Rattle.git_object.specs.Reading.{Gives, mode_of, name_at, entry_at, entry_step, entries_at, tree_of};
ghost use Rattle.git_object.specs.Views.{entry_seen, tree_seen};

use crate::cut::cut;
use crate::entry::{Entry, Mode, is_entry_name};
use crate::frame::name_with;
use crate::tree::{Tree, are_distinct};
use gb_text::{Bytes, List, Memory, Name};
use std::alloc::{AllocError, Global};

/// An entry whose name is a part of the content that it was read from.
#[derive(Clone, Copy, Debug)]
pub struct EntryView<'a> {
    pub mode: Mode,
    pub name: &'a [u8],
    pub object: Name,
}

impl<'a> EntryView<'a> {
    fn to_entry(&self, alloc: Global) -> Result<Entry, Memory>
        ensures { IfOk result (λ entry. entry ≡ entry_seen self.now) }
    {
        Ok(Entry {
            mode: self.mode,
            name: Bytes::from_slice(alloc, self.name)?,
            object: self.object,
        })
    }
}

/// A tree whose names are parts of the content that it was read from.
#[derive(Drop)]
pub struct TreeView<'a> {
    pub entries: List<EntryView<'a>>,
}

impl<'a> TreeView<'a> {
    /// The tree of which this is the content, as `Tree::read` reads it.
    #[tactic(auto, unfolding(crate::specs::Reading::tree_of))]
    pub fn read(alloc: Global, content: &'a [u8]) -> Result<Option<TreeView<'a>>, Memory>
        ensures { IfOk result (λ tree. option_map tree_seen tree ≡ tree_of content.now) }
    {
        let Some(entries) = read_entries(alloc, content)? else {
            return Ok(None);
        };
        let names = names_of(alloc, entries.as_slice())?;
        if are_distinct(names)? {
            Ok(Some(TreeView { entries }))
        } else {
            Ok(None)
        }
    }

    /// The tree with copies of its names.
    pub(crate) fn into_tree(self, alloc: Global) -> Result<Tree, Memory>
        ensures { IfOk result (λ tree. tree ≡ tree_seen self.entry) }
    {
        let entries = copied(alloc, self.entries.as_slice())?;
        Ok(Tree { entries })
    }
}

fn copied(alloc: Global, views: &[EntryView<'_>]) -> Result<List<Entry>, Memory>
    ensures { IfOk result (λ entries. entries ≡ map entry_seen views.now) }
{
    let mut entries = Vec::new(alloc);
    for view in views {
        let entry = view.to_entry(alloc)?;
        match entries.push(entry) {
            Ok(()) => {}
            Err(_) => return Err(Memory),
        }
    }
    Ok(List::from_vec(entries))
}

fn names_of<'a>(alloc: Global, views: &[EntryView<'a>]) -> Result<Vec<&'a [u8]>, AllocError>
    ensures { IfOk result (λ names. map (λ name. name.now) names.items
        ≡ map (λ e. e.name) (map entry_seen views.now)) }
{
    let mut names = Vec::new(alloc);
    for view in views {
        names.push(view.name)?;
    }
    Ok(names)
}

fn read_entries(alloc: Global, content: &[u8]) -> Result<Option<List<EntryView<'_>>>, Memory>
    ensures { Gives (λ entries. map entry_seen entries) result (entries_at content.now) }
{
    let mut entries = Vec::new(alloc);
    let mut rest = content;
    loop {
        let Some((entry, next)) = next_entry(rest) else {
            return Ok(None);
        };
        let Some(entry) = entry else {
            return Ok(Some(List::from_vec(entries)));
        };
        match entries.push(entry) {
            Ok(()) => rest = next,
            Err(_) => return Err(Memory),
        }
    }
}

// The entry at the front of a content and what follows it, or no entry at the content's end.
#[tactic(auto, unfolding(crate::specs::Reading::entry_step))]
fn next_entry(bytes: &[u8]) -> Option<(Option<EntryView<'_>>, &[u8])>
    ensures { option_map (λ step. (option_map entry_seen step.0, step.1.now)) result
        ≡ entry_step bytes.now }
{
    if bytes.is_empty() {
        return Some((None, bytes));
    }
    match split_entry(bytes) {
        Some((entry, rest)) => Some((Some(entry), rest)),
        None => None,
    }
}

// The first entry, and what follows it.
#[tactic(auto, unfolding(crate::specs::Reading::entry_at))]
fn split_entry(bytes: &[u8]) -> Option<(EntryView<'_>, &[u8])>
    ensures { option_map (λ step. (entry_seen step.0, step.1.now)) result ≡ entry_at bytes.now }
{
    let (digits, rest) = cut(bytes, b' ')?;
    let mode = mode_of(digits)?;
    let (name, rest) = cut(rest, 0)?;
    let (object, rest) = split_name(rest)?;
    if !is_entry_name(name) {
        return None;
    }
    Some((EntryView { mode, name, object }, rest))
}

#[tactic(auto, unfolding(crate::specs::Reading::name_at))]
fn split_name(bytes: &[u8]) -> Option<(Name, &[u8])>
    ensures { option_map (λ x. (x.0, x.1.now)) result ≡ name_at bytes.now }
{
    if bytes.len() < 20 {
        return None;
    }
    let (name, rest) = bytes.split_at(20);
    Some((name_with(name), rest))
}

fn mode_of(digits: &[u8]) -> Option<Mode>
    ensures { result ≡ mode_of digits.now }
{
    if digits == b"100644".as_slice() {
        Some(Mode::Plain)
    } else if digits == b"100755".as_slice() {
        Some(Mode::Exec)
    } else if digits == b"120000".as_slice() {
        Some(Mode::Link)
    } else if digits == b"40000".as_slice() {
        Some(Mode::Folder)
    } else if digits == b"160000".as_slice() {
        Some(Mode::Module)
    } else {
        None
    }
}
