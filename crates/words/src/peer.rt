//! Commands that exchange commits with a peer, read from their arguments.
ghost use Rattle.std.specs.Prelude.{◌≡◌, IfOk, OnErr, IsSome, None, map};
ghost use Rattle.gb_text.specs.Folder.{folder_of};
ghost use Rattle.words.specs.Words.{asked_by, exchange_in, exchange_of, peer_by_verb};
ghost use Rattle.words.specs.declared.verb.Verb.TheVariants as verb;

use crate::pair::FolderPair;
use crate::words::{Asked, BadWord, PeerCommand, PeerRequest, read_folder};
use gb_text::Memory;
use remote_name::RemoteName;
use std::alloc::Global;

/// What `fetch` asks with these arguments, which are a remote and a peer: nothing where there are
/// more of them or fewer. A remote that is no name is refused after the folders.
pub(crate) fn fetch(alloc: Global, own: &str, arguments: &[&str]) -> Result<Asked, Memory>
    ensures read { IfOk result (λ asked. asked ≡ asked_by (folder_of own.now) None
        (peer_by_verb verb.Fetch (map (λ s. s.now) arguments.now)) None None) }
    ensures memory { OnErr result
        (IsSome (peer_by_verb verb.Fetch (map (λ s. s.now) arguments.now))) }
{
    let [remote, peer] = arguments else {
        return Ok(Asked::Nothing);
    };
    let command = match RemoteName::read(alloc, remote)? {
        Some(remote) => Some(PeerCommand::Fetch { remote }),
        None => None,
    };
    exchange(alloc, own, peer, command)
}

/// What `pull` asks with these arguments, which are a remote and a peer: nothing where there are
/// more of them or fewer. A remote that is no name is refused after the folders.
pub(crate) fn pull(alloc: Global, own: &str, arguments: &[&str]) -> Result<Asked, Memory>
    ensures read { IfOk result (λ asked. asked ≡ asked_by (folder_of own.now) None
        (peer_by_verb verb.Pull (map (λ s. s.now) arguments.now)) None None) }
    ensures memory { OnErr result
        (IsSome (peer_by_verb verb.Pull (map (λ s. s.now) arguments.now))) }
{
    let [name, peer] = arguments else {
        return Ok(Asked::Nothing);
    };
    let command = match RemoteName::read(alloc, name)? {
        Some(remote) => Some(PeerCommand::Pull { remote }),
        None => None,
    };
    exchange(alloc, own, peer, command)
}

/// What `push` asks with these arguments, which are a peer alone: nothing where there are more of
/// them or none.
pub(crate) fn push(alloc: Global, own: &str, arguments: &[&str]) -> Result<Asked, Memory>
    ensures read { IfOk result (λ asked. asked ≡ asked_by (folder_of own.now) None
        (peer_by_verb verb.Push (map (λ s. s.now) arguments.now)) None None) }
    ensures memory { OnErr result
        (IsSome (peer_by_verb verb.Push (map (λ s. s.now) arguments.now))) }
{
    let [peer] = arguments else {
        return Ok(Asked::Nothing);
    };
    exchange(alloc, own, peer, Some(PeerCommand::Push))
}

// A command between the folders that two words name. The own folder is judged first, then the
// peer, then both together, and the command last.
fn exchange(
    alloc: Global,
    own: &str,
    peer: &str,
    command: Option<PeerCommand>,
) -> Result<Asked, Memory>
    ensures { IfOk result (λ asked. asked
        ≡ exchange_in (folder_of own.now) (folder_of peer.now) command) }
{
    let Some(own) = read_folder(alloc, own)? else {
        return Ok(Asked::Refused(BadWord::BadFolder));
    };
    let Some(peer) = read_folder(alloc, peer)? else {
        return Ok(Asked::Refused(BadWord::BadFolder));
    };
    Ok(exchange_between(FolderPair::read(own, peer), command))
}

// A command between two folders. They are refused where they overlap, before a command that has no
// name of a remote.
fn exchange_between(pair: Option<FolderPair>, command: Option<PeerCommand>) -> Asked
    ensures { result ≡ exchange_of pair command }
{
    match (pair, command) {
        (None, _) => Asked::Refused(BadWord::SameFolder),
        (Some(_), None) => Asked::Refused(BadWord::BadRemoteName),
        (Some(pair), Some(command)) => Asked::Exchange(PeerRequest { pair, command }),
    }
}
