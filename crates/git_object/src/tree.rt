//! Trees: lists of entries with distinct names.
ghost use Rattle.std.specs.Prelude.{◌≡◌, ◌≢◌, ◌↔◌, ◌++◌, List, IsTrue, IfOk, OnOk, IfSome, Some, All, length, map, IsPermutation, IsSortedByKey};
ghost use Rattle.std.specs.List.{AllAdjacentBelow, flat_map, list_all};
ghost use Rattle.std.specs.Ordering.{nat_cmp};
ghost use Rattle.std.specs.Cmp.Lexicographic.{slice_cmp};
ghost use Rattle.gb_text.specs.Digits.{IsName};
ghost use Rattle.git_object.specs.declared.entry.Entry.{Entry as EntryValue};
ghost use Rattle.git_object.specs.Grammar.{IsTreeText, HasGoodNames, IsSortedForm, entry_text, sort_key};
ghost use Rattle.git_object.specs.Reading.{Gives, has_entry_name, are_distinct, tree_of};

use crate::entry::{Entry, append_entry, has_entry_name, key_order};
use crate::tree_view::TreeView;
use gb_text::{Bytes, List, Memory};
use std::alloc::{AllocError, Global};

/// A tree. The names of one that was read are distinct; its entries stand in the text's order.
#[derive(Drop)]
pub struct Tree {
    pub entries: List<Entry>,
}

impl Tree {
    ghost use Rattle.git_object.specs.declared.tree.Tree.{Tree as TreeValue};

    /// The tree of which this is the content (Git's object format): entries one after the other,
    /// each the mode, a space, the name, a zero byte and the 20 bytes of the object's name. Any
    /// order is read. None exactly where no tree has this content, as where a name is repeated.
    pub fn read(alloc: Global, content: &[u8]) -> Result<Option<Tree>, Memory>
        ensures value { IfOk result (λ tree. tree ≡ tree_of content.now) }
        ensures found { IfOk result (λ tree. IfSome tree (λ t. IsTreeText content.now t)) }
        ensures only { (t : TreeValue) → IsTreeText content.now t
            → IfOk result (λ tree. tree ≡ Some t) }
        ensures good { IfOk result (λ tree. IfSome tree (λ t. HasGoodNames t)) }
    {
        Tree::parse(alloc, content)
    }

    /// The content of the tree, its entries in the writer's order: by name, a folder's as if it
    /// ended in a slash. The tree may stand in any order; `Tree::read` gives it back in this one.
    pub fn write(&self, alloc: Global) -> Result<Bytes, Memory>
        requires { HasGoodNames self.now }
        ensures text { IfOk result (λ text. (sorted : TreeValue) × IsSortedForm self.now sorted
            × IsTreeText text sorted) }
        ensures reads_back { IfOk result (λ text. (sorted : TreeValue)
            × IsSortedForm self.now sorted × (tree_of text ≡ Some sorted)) }
    {
        let sorted = in_order(alloc, self.entries.as_slice())?;
        let mut text = Vec::new(alloc);
        append_entries(&mut text, &sorted)?;
        Ok(Bytes::from_vec(text))
    }

    /// Whether the tree can be written: its names are not empty, have neither a zero byte nor a
    /// slash, and are distinct.
    pub fn has_good_names(&self, alloc: Global) -> Result<bool, Memory>
        ensures { IfOk result (λ good. IsTrue good ↔ HasGoodNames self.now) }
    {
        if !have_entry_names(self.entries.as_slice()) {
            return Ok(false);
        }
        let names = names_of(alloc, self.entries.as_slice())?;
        Ok(are_distinct(names)?)
    }

    fn parse(alloc: Global, content: &[u8]) -> Result<Option<Tree>, Memory>
        ensures { Gives (λ tree. tree) result (tree_of content.now) }
    {
        match TreeView::read(alloc, content)? {
            Some(view) => Ok(Some(view.into_tree(alloc)?)),
            None => Ok(None),
        }
    }
}

/// Whether no two entries with these names have one name. Names that are equal stand side by side
/// once they are sorted, so that 150,000 of them cost no quadratic time.
pub(crate) fn are_distinct(mut names: Vec<&[u8]>) -> Result<bool, AllocError>
    ensures { (entries : List EntryValue)
        → map (λ name. name.now) names.entry.items ≡ map (λ e. e.name) entries
        → IfOk result (λ distinct. distinct ≡ are_distinct entries) }
{
    names.sort()?;
    Ok(neighbours_differ(&names))
}

fn names_of(alloc: Global, entries: &[Entry]) -> Result<Vec<&[u8]>, AllocError>
    ensures { IfOk result
        (λ names. map (λ name. name.now) names.items ≡ map (λ e. e.name) entries.now) }
{
    let mut names = Vec::new(alloc);
    for entry in entries {
        names.push(entry.name.as_slice())?;
    }
    Ok(names)
}

fn neighbours_differ(names: &[&[u8]]) -> bool
    ensures { IsTrue result ↔ AllAdjacentBelow (λ x y. x.now ≢ y.now) names.now (length names.now) }
{
    for i in 1..names.len() {
        if names[i - 1] == names[i] {
            return false;
        }
    }
    true
}

fn have_entry_names(entries: &[Entry]) -> bool
    ensures { result ≡ list_all has_entry_name entries.now }
{
    entries.iter().all(|entry| has_entry_name(entry))
}

fn append_entries(text: &mut Vec<u8>, entries: &[&Entry]) -> Result<(), AllocError>
    ensures text { OnOk result
        (text.new.items
        ≡ text.old.items ++ flat_map entry_text (map (λ entry. entry.now) entries.now)) }
    ensures objects { OnOk result
        (All (λ e. IsName e.object) (map (λ entry. entry.now) entries.now)) }
{
    for entry in entries {
        append_entry(text, entry)?;
    }
    Ok(())
}

fn in_order(alloc: Global, entries: &[Entry]) -> Result<Vec<&Entry>, AllocError>
    ensures permutation { IfOk result
        (λ sorted. IsPermutation entries.now (map (λ entry. entry.now) sorted.items)) }
    ensures order { IfOk result
        (λ sorted. IsSortedByKey sort_key (slice_cmp nat_cmp)
        (map (λ entry. entry.now) sorted.items)) }
{
    let mut sorted = references(alloc, entries)?;
    sorted.sort_by(|a, b| key_order(a, b))?;
    Ok(sorted)
}

fn references(alloc: Global, entries: &[Entry]) -> Result<Vec<&Entry>, AllocError>
    ensures { IfOk result (λ all. map (λ entry. entry.now) all.items ≡ entries.now) }
{
    let mut all = Vec::new(alloc);
    for entry in entries {
        all.push(entry)?;
    }
    Ok(all)
}
