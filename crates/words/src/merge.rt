//! A merge of what was fetched from a remote, read from its arguments.
ghost use Rattle.std.specs.Prelude.{◌≡◌, IfOk, OnErr, IsSome, None, map};
ghost use Rattle.gb_text.specs.Folder.{folder_of};
ghost use Rattle.words.specs.Words.{asked_by, merge_by_verb, merge_in};
ghost use Rattle.words.specs.declared.verb.Verb.TheVariants as verb;

use crate::words::{Asked, BadWord, MergeRequest, read_folder};
use gb_text::{Folder, Memory};
use remote_name::RemoteName;
use std::alloc::Global;

/// What `merge` asks with these arguments, which are a remote alone: nothing where there are more
/// of them or none. A remote that is no name is refused after a bad folder.
pub(crate) fn merge(alloc: Global, folder: &str, arguments: &[&str]) -> Result<Asked, Memory>
    ensures read { IfOk result (λ asked. asked ≡ asked_by (folder_of folder.now) None None
        (merge_by_verb verb.Merge (map (λ s. s.now) arguments.now)) None) }
    ensures memory { OnErr result
        (IsSome (merge_by_verb verb.Merge (map (λ s. s.now) arguments.now))) }
{
    let [remote] = arguments else {
        return Ok(Asked::Nothing);
    };
    let folder = read_folder(alloc, folder)?;
    let remote = RemoteName::read(alloc, remote)?;
    Ok(merge_in(folder, remote))
}

// A merge in a folder: a bad one is refused before a remote that is no name.
fn merge_in(folder: Option<Folder>, remote: Option<RemoteName>) -> Asked
    ensures { result ≡ merge_in folder remote }
{
    match (folder, remote) {
        (None, _) => Asked::Refused(BadWord::BadFolder),
        (Some(_), None) => Asked::Refused(BadWord::BadRemoteName),
        (Some(folder), Some(remote)) => Asked::Merge(MergeRequest { folder, remote }),
    }
}
