//! The digest of a folder.
ghost use Rattle.std.specs.Prelude.{◌≡◌, IfOk, IsTrue};
ghost use Rattle.gb_store.specs.MemStore.{has_no_fails};
ghost use Rattle.world.specs.Digests.{IsDigest};

use crate::runs::bugs_of;
use crate::shown::hash_of;
use gb_store::MemStore;
use gb_text::{Id, Memory};
use std::alloc::Global;
use world_texts::Digest;

/// How many bugs a folder has, and the hash of what it shows of them in order of their ids.
pub fn digest_of(alloc: Global, store: &mut MemStore, folder: u32) -> Result<Digest, Memory>
    requires { IsTrue (has_no_fails store.old) }
    ensures digest { IfOk result (IsDigest store.old.history folder) }
    ensures unwritten { store.new.history ≡ store.old.history }
    ensures calm { IsTrue (has_no_fails store.new) }
{
    let bugs = bugs_of(alloc, store, folder)?;
    let hash = hash_of(alloc, store, folder, bugs.as_slice())?;
    Ok(Digest {
        bugs: bugs.len() as u64,
        hash: Id::from_bytes(hash),
    })
}
