//! Commits that borrow from the contents that they were read from.
ghost use Rattle.std.specs.Prelude.{◌≡◌, IfOk};
ghost use Rattle.std.specs.Option.{option_map};
ghost use Rattle.git_object.specs.Reading.{Gives, named_at, tree_at, text_at, parent_at, all_at, commit_of};
ghost use Rattle.git_object.specs.Views.{commit_seen};

use crate::commit::Commit;
use crate::cut::{after, cut, cut_lines};
use gb_text::{Bytes, List, Memory, Name};
use std::alloc::Global;

/// A commit whose texts are parts of the content that it was read from.
#[derive(Drop)]
pub struct CommitView<'a> {
    pub tree: Name,
    pub parents: List<Name>,
    pub author: &'a [u8],
    pub committer: &'a [u8],
    pub more: &'a [u8],
    pub message: &'a [u8],
}

impl<'a> CommitView<'a> {
    /// The commit of which this is the content, as `Commit::read` reads it. Its parents alone take
    /// memory.
    #[tactic(auto, unfolding(crate::specs::Reading::commit_of))]
    pub fn read(alloc: Global, content: &'a [u8]) -> Result<Option<CommitView<'a>>, Memory>
        ensures { IfOk result (λ commit. option_map commit_seen commit ≡ commit_of content.now) }
    {
        let Some((tree, rest)) = read_tree(content) else {
            return Ok(None);
        };
        let (parents, rest) = match read_parents(alloc, rest) {
            Ok(Some(found)) => found,
            Ok(None) => return Ok(None),
            Err(e) => return Err(e),
        };
        let Some((author, rest)) = read_text(rest, b"author ") else {
            return Ok(None);
        };
        let Some((committer, rest)) = read_text(rest, b"committer ") else {
            return Ok(None);
        };
        let Some((more, message)) = cut_lines(rest) else {
            return Ok(None);
        };
        Ok(Some(CommitView {
            tree,
            parents,
            author,
            committer,
            more,
            message,
        }))
    }

    /// The commit with copies of its texts.
    pub(crate) fn into_commit(self, alloc: Global) -> Result<Commit, Memory>
        ensures { IfOk result (λ commit. commit ≡ commit_seen self.entry) }
    {
        Ok(Commit {
            tree: self.tree,
            author: Bytes::from_slice(alloc, self.author)?,
            committer: Bytes::from_slice(alloc, self.committer)?,
            more: Bytes::from_slice(alloc, self.more)?,
            message: Bytes::from_slice(alloc, self.message)?,
            parents: self.parents,
        })
    }
}

#[tactic(auto, unfolding(crate::specs::Reading::tree_at))]
fn read_tree(bytes: &[u8]) -> Option<(Name, &[u8])>
    ensures { option_map (λ x. (x.0, x.1.now)) result ≡ tree_at bytes.now }
{
    let rest = after(bytes, b"tree ")?;
    read_name(rest)
}

// The name whose digits stand up to the line's end, and what follows the line.
#[tactic(auto, unfolding(crate::specs::Reading::named_at))]
fn read_name(bytes: &[u8]) -> Option<(Name, &[u8])>
    ensures { option_map (λ x. (x.0, x.1.now)) result ≡ named_at bytes.now }
{
    let (line, rest) = cut(bytes, b'\n')?;
    let name = Name::read(line)?;
    Some((name, rest))
}

// The text behind a word, up to the line's end, and what follows the line.
#[tactic(auto, unfolding(crate::specs::Reading::text_at))]
fn read_text<'a>(bytes: &'a [u8], word: &[u8]) -> Option<(&'a [u8], &'a [u8])>
    ensures { option_map (λ x. (x.0.now, x.1.now)) result ≡ text_at word.now bytes.now }
{
    let rest = after(bytes, word)?;
    let (text, rest) = cut(rest, b'\n')?;
    if text.is_empty() {
        return None;
    }
    Some((text, rest))
}

fn read_parents(alloc: Global, bytes: &[u8]) -> Result<Option<(List<Name>, &[u8])>, Memory>
    ensures { Gives (λ x. (x.0, x.1.now)) result (all_at parent_at bytes.now) }
{
    let mut parents = Vec::new(alloc);
    let mut rest = bytes;
    loop {
        let Some((parent, next)) = next_parent(rest) else {
            return Ok(None);
        };
        let Some(parent) = parent else {
            return Ok(Some((List::from_vec(parents), next)));
        };
        match parents.push(parent) {
            Ok(()) => rest = next,
            Err(_) => return Err(Memory),
        }
    }
}

// The parent whose line stands at the front and what follows it, or no parent.
#[tactic(auto, unfolding(crate::specs::Reading::parent_at))]
fn next_parent(bytes: &[u8]) -> Option<(Option<Name>, &[u8])>
    ensures { option_map (λ x. (x.0, x.1.now)) result ≡ parent_at bytes.now }
{
    let Some(rest) = after(bytes, b"parent ") else {
        return Some((None, bytes));
    };
    match read_name(rest) {
        Some((name, rest)) => Some((Some(name), rest)),
        None => None,
    }
}
