//! A store over real folders: plain files that are put whole, a lock on each folder, and syncs in the order in which files
//! name each other.
#![tactic(auto)]

mod claim;
mod disk;
mod failure;
mod folders;
mod lock;
mod packed;
mod place;
mod settled;
mod signals;
mod store;
mod temporary;
mod unsynced;
mod ways;

pub use claim::{Claim, Purpose};
pub use failure::{Call, Failure};
pub use lock::Locking;
pub use signals::{MOST_SIGNALS, again};
pub use store::FolderStore;
