//! Commits: their header lines and their message.
ghost use Rattle.std.specs.Prelude.{◌≡◌, ◌↔◌, ◌++◌, IsTrue, IfOk, OnOk, IfSome, Some, codes};
ghost use Rattle.std.specs.List.{flat_map, AllByRecursion};
ghost use Rattle.hex.specs.Hex.{encode_lower};
ghost use Rattle.gb_text.specs.Digits.{IsName};
ghost use Rattle.git_object.specs.Grammar.{IsCommitText, HasGoodTexts, commit_text, parent_line, ended};
ghost use Rattle.git_object.specs.Reading.{Gives, is_line, are_lines, commit_of};

use crate::commit_view::CommitView;
use crate::cut::cut_lines;
use gb_text::{Bytes, List, Memory, Name};
use std::alloc::{AllocError, Global};

/// A commit. The author's and the committer's texts of one that was read are not empty and have no
/// LF; `more` holds the further header lines as they stand, each with its LF and none empty.
#[derive(Drop)]
pub struct Commit {
    pub tree: Name,
    pub parents: List<Name>,
    pub author: Bytes,
    pub committer: Bytes,
    pub more: Bytes,
    pub message: Bytes,
}

impl Commit {
    ghost use Rattle.git_object.specs.declared.commit.Commit.{Commit as CommitValue};

    /// The commit of which this is the content (Git's object format): `tree ` and 40 lower-case
    /// digits, a line `parent ` and 40 digits for each parent, `author ` and a text, `committer `
    /// and a text, further lines that are not empty, an empty line, the message. Each line ends in
    /// LF. None exactly where no commit has this content.
    pub fn read(alloc: Global, content: &[u8]) -> Result<Option<Commit>, Memory>
        ensures value { IfOk result (λ commit. commit ≡ commit_of content.now) }
        ensures found { IfOk result (λ commit. IfSome commit (λ c. IsCommitText content.now c)) }
        ensures only { (c : CommitValue) → IsCommitText content.now c
            → IfOk result (λ commit. commit ≡ Some c) }
        ensures good { IfOk result (λ commit. IfSome commit (λ c. HasGoodTexts c)) }
    {
        Commit::parse(alloc, content)
    }

    /// The content of the commit, which `Commit::read` gives back as the same commit.
    pub fn write(&self, alloc: Global) -> Result<Bytes, Memory>
        requires { HasGoodTexts self.now }
        ensures text { IfOk result (λ text. IsCommitText text self.now) }
        ensures reads_back { IfOk result (λ text. commit_of text ≡ Some self.now) }
    {
        let mut text = Vec::new(alloc);
        self.append(&mut text)?;
        Ok(Bytes::from_vec(text))
    }

    /// Whether the commit can be written: its author's and committer's texts are lines that are
    /// not empty, and so is each of its further lines, with its LF. Takes no memory.
    pub fn has_good_texts(&self) -> bool
        ensures { IsTrue result ↔ HasGoodTexts self.now }
    {
        is_line(self.author.as_slice())
            && is_line(self.committer.as_slice())
            && are_lines(self.more.as_slice())
    }

    fn append(&self, text: &mut Vec<u8>) -> Result<(), AllocError>
        ensures text { OnOk result (text.new.items ≡ text.old.items ++ commit_text self.now) }
        ensures tree { OnOk result (IsName self.now.tree) }
        ensures parents { OnOk result (AllByRecursion IsName self.now.parents) }
    {
        append_name(text, b"tree ", &self.tree)?;
        append_parents(text, self.parents.as_slice())?;
        append_line(text, b"author ", self.author.as_slice())?;
        append_line(text, b"committer ", self.committer.as_slice())?;
        text.extend_from_slice(self.more.as_slice())?;
        text.extend_from_slice(b"\n")?;
        text.extend_from_slice(self.message.as_slice())?;
        Ok(())
    }

    fn parse(alloc: Global, content: &[u8]) -> Result<Option<Commit>, Memory>
        ensures { Gives (λ commit. commit) result (commit_of content.now) }
    {
        match CommitView::read(alloc, content)? {
            Some(view) => Ok(Some(view.into_commit(alloc)?)),
            None => Ok(None),
        }
    }
}

fn append_parents(text: &mut Vec<u8>, parents: &[Name]) -> Result<(), AllocError>
    ensures text { OnOk result
        (text.new.items ≡ text.old.items ++ flat_map parent_line parents.now) }
    ensures names { OnOk result (AllByRecursion IsName parents.now) }
{
    for parent in parents {
        append_name(text, b"parent ", parent)?;
    }
    Ok(())
}

fn append_name(text: &mut Vec<u8>, word: &[u8], name: &Name) -> Result<(), AllocError>
    ensures text { OnOk result
        (text.new.items ≡ text.old.items ++ ended (word.now ++ encode_lower name.now.bytes)) }
    ensures name { OnOk result (IsName name.now) }
{
    append_line(text, word, &name.text())
}

fn append_line(text: &mut Vec<u8>, word: &[u8], line: &[u8]) -> Result<(), AllocError>
    ensures { OnOk result (text.new.items ≡ text.old.items ++ ended (word.now ++ line.now)) }
{
    text.extend_from_slice(word)?;
    text.extend_from_slice(line)?;
    text.push(b'\n')?;
    Ok(())
}

fn is_line(text: &[u8]) -> bool
    ensures { result ≡ is_line text.now }
{
    !text.is_empty() && !text.contains(&b'\n')
}

// Whether each line ends in LF and none is empty.
fn are_lines(text: &[u8]) -> bool
    ensures { result ≡ are_lines text.now }
{
    cut_lines(text).is_none() && (text.is_empty() || text.ends_with(b"\n"))
}
