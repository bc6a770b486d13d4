//! The sides of a folder, each with refs of its own.
use gb_text::{Id, Name};
use remote_name::RemoteName;

/// A kind of entity, of the folder itself or as it was last seen at a remote. Ids of bugs and of
/// identities are apart: one id may have a ref on each side.
#[derive(Debug, Drop)]
pub enum Side {
    Bugs,
    Identities,
    /// The bugs of the remote with this name.
    RemoteBugs(RemoteName),
    /// The identities of the remote with this name.
    RemoteIdentities(RemoteName),
}

/// The head of an entity.
#[derive(Clone, Copy, Debug, PartialEq, Eq)]
pub struct HeadEntry {
    pub id: Id,
    pub name: Name,
}
