//! What an object names.
ghost use Rattle.std.specs.Prelude.{◌≡◌, ◌++◌, IfOk, OnOk};
ghost use Rattle.object_batch.specs.Needs.{kind_named};
ghost use Rattle.remote_copy.specs.Needs.{commit_needs, entry_need, entry_needs, needs_of};

use gb_text::{Memory, Name};
use git_object::{Entry, Kind, Mode, Object};
use std::alloc::{AllocFailed, Global};

/// An object as it is named: by its name, as one of a kind.
#[derive(Clone, Copy, Debug, PartialEq, Eq)]
pub struct Need {
    pub name: Name,
    pub kind: Kind,
}

/// All that an object names: a commit its tree and its parents, a tree its entries but for modules,
/// whose commits are another repository's.
pub fn needs_of(alloc: Global, object: &Object) -> Result<Vec<Need>, Memory>
    ensures { IfOk result (λ needs. needs.items ≡ needs_of object.now) }
{
    match object {
        Object::Blob(_) => Ok(Vec::new(alloc)),
        Object::Tree(tree) => entry_needs(alloc, tree.entries.as_slice()),
        Object::Commit(commit) => commit_needs(alloc, &commit.tree, commit.parents.as_slice()),
    }
}

fn commit_needs(alloc: Global, tree: &Name, parents: &[Name]) -> Result<Vec<Need>, Memory>
    ensures { IfOk result (λ needs. needs.items ≡ commit_needs tree.now parents.now) }
{
    let mut needs = Vec::new(alloc);
    let kind = Kind::Tree;
    needs.push(Need { name: *tree, kind })?;
    for parent in parents {
        let kind = Kind::Commit;
        needs.push(Need {
            name: *parent,
            kind,
        })?;
    }
    Ok(needs)
}

fn entry_needs(alloc: Global, entries: &[Entry]) -> Result<Vec<Need>, Memory>
    ensures { IfOk result (λ needs. needs.items ≡ entry_needs entries.now) }
{
    let mut needs = Vec::new(alloc);
    for entry in entries {
        push_entry(&mut needs, entry)?;
    }
    Ok(needs)
}

// Adds what an entry names, if it is no module.
fn push_entry(needs: &mut Vec<Need>, entry: &Entry) -> Result<(), AllocFailed<Need>>
    ensures { OnOk result (needs.new.items ≡ needs.old.items ++ entry_need entry.now) }
{
    if let Some(kind) = kind_named(entry.mode) {
        let name = entry.object;
        needs.push(Need { name, kind })?;
    }
    Ok(())
}

// The kind that an entry of this mode names.
fn kind_named(mode: Mode) -> Option<Kind>
    ensures { result ≡ kind_named mode }
{
    match mode {
        Mode::Plain | Mode::Exec | Mode::Link => Some(Kind::Blob),
        Mode::Folder => Some(Kind::Tree),
        Mode::Module => None,
    }
}
