//! Commits as they are written.
ghost use Rattle.std.specs.Prelude.{◌≡◌, IfOk};
ghost use Rattle.git_object.specs.Grammar.{HasGoodTexts};
ghost use Rattle.object_batch.specs.Commits.{signature, written_commit};

use gb_text::{Bytes, List, Memory, Name};
use git_object::Commit;
use std::alloc::Global;

/// The commit of a tree with these parents, written now, in seconds since 1970. Its author and its
/// committer are the program and not a person, since a pack or a version says who edits; there are no
/// further headers.
pub fn commit_for(
    alloc: Global,
    tree: Name,
    parents: List<Name>,
    now: u64,
) -> Result<Commit, Memory>
    ensures commit { IfOk result (λ commit. commit ≡ written_commit tree parents now) }
    ensures texts { IfOk result (λ commit. HasGoodTexts commit) }
{
    Ok(Commit {
        tree,
        parents,
        author: signature(alloc, now)?,
        committer: signature(alloc, now)?,
        more: Bytes::from_slice(alloc, b"")?,
        message: Bytes::from_slice(alloc, b"git-bug\n")?,
    })
}

// Who writes, and when: a name, an address, seconds since 1970 and a time zone.
fn signature(alloc: Global, now: u64) -> Result<Bytes, Memory>
    ensures { IfOk result (λ text. text ≡ signature now) }
{
    let text = format!(in alloc; "git-bug <git-bug@localhost> {now} +0000")?;
    Ok(Bytes::from_vec(text.into_bytes()))
}
