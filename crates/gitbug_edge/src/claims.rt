//! The folders in which a run works.
ghost use Rattle.std.specs.Prelude.{◌≡◌, IfOk};
ghost use Rattle.gitbug_edge.specs.Claims.{claims_of, own_purpose, peer_purpose, purpose_of};

use folder_store::{Claim, Purpose};
use gb_text::Memory;
use std::alloc::Global;
use words::{Asked, Command, PeerCommand};

/// The folders in which the arguments ask for something; none where they ask for nothing, since nothing is done then.
pub fn claims_of(alloc: Global, asked: &Asked) -> Result<Vec<Claim>, Memory>
    ensures { IfOk result (λ claims. claims.items ≡ claims_of asked.now) }
{
    let mut claims = Vec::new(alloc);
    match asked {
        Asked::Nothing | Asked::Refused(_) => {}
        Asked::Request(request) => {
            let folder = request.folder.copy(alloc)?;
            let purpose = purpose_of(&request.command);
            claims.push(Claim { folder, purpose })?;
        }
        Asked::Exchange(request) => {
            let (own, peer) = purposes_of(&request.command);
            let folder = request.pair.own.copy(alloc)?;
            claims.push(Claim {
                folder,
                purpose: own,
            })?;
            let folder = request.pair.peer.copy(alloc)?;
            claims.push(Claim {
                folder,
                purpose: peer,
            })?;
        }
        Asked::Merge(request) => {
            let folder = request.folder.copy(alloc)?;
            claims.push(Claim {
                folder,
                purpose: Purpose::Write,
            })?;
        }
        Asked::List(request) => {
            let folder = request.folder.copy(alloc)?;
            claims.push(Claim {
                folder,
                purpose: Purpose::Write,
            })?;
        }
    }
    Ok(claims)
}

// What a command with a peer does in its own folder, and in that of the peer.
fn purposes_of(command: &PeerCommand) -> (Purpose, Purpose)
    ensures { result ≡ (own_purpose command.now, peer_purpose command.now) }
{
    match command {
        PeerCommand::Fetch { .. } | PeerCommand::Pull { .. } => (Purpose::Write, Purpose::Read),
        PeerCommand::Push => (Purpose::Read, Purpose::Write),
    }
}

// What a command does in its folder.
fn purpose_of(command: &Command) -> Purpose
    ensures { result ≡ purpose_of command.now }
{
    match command {
        Command::Users | Command::Show { .. } | Command::Log { .. } => Purpose::Read,
        Command::Edit(_) | Command::PackRefs => Purpose::Write,
    }
}
