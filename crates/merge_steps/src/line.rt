//! The lines of a merge, one for each tracked entity.
ghost use Rattle.std.specs.Prelude.{◌≡◌};
ghost use Rattle.merge_steps.specs.MergeLines.{is_refused, refused_in};

use dag_entity::EntityFault;
use gb_text::{Id, List, Name};
use identity::IdentityFault;
use sync_steps::{EntityWord, Line};

/// What a merge did with an entity. A refusal is of this entity alone: no ref of it changed.
#[derive(Clone, Copy, Debug, PartialEq, Eq)]
pub enum MergeOutcome {
    /// The tracked head is the local one, or lies below it.
    Nothing,
    /// There was no local head, and the tracked one is it now.
    New,
    /// The local head lay below the tracked one, which is the local one now.
    Forward,
    /// A merge commit over both is the local head now.
    Joined,
    /// This is wrong with both heads of a bug together. It is never `Memory` or `Disk`.
    InvalidBug(EntityFault),
    /// This is wrong with the tracked chain of an identity. It is never `Memory` or `Disk`.
    InvalidIdentity(IdentityFault),
    /// The tracked head of an identity has this name, and neither head is in the chain of the
    /// other.
    NotForward(Name),
}

impl MergeOutcome {
    /// Whether it is a refusal of the entity.
    pub fn is_refused(&self) -> bool
        ensures { result ≡ is_refused self.now }
    {
        match self {
            MergeOutcome::Nothing
            | MergeOutcome::New
            | MergeOutcome::Forward
            | MergeOutcome::Joined => false,
            MergeOutcome::InvalidBug(_)
            | MergeOutcome::InvalidIdentity(_)
            | MergeOutcome::NotForward(_) => true,
        }
    }
}

/// What a merge did with an entity, as it is printed.
#[derive(Clone, Copy, Debug, PartialEq, Eq)]
pub struct MergeLine {
    pub word: EntityWord,
    pub id: Id,
    pub outcome: MergeOutcome,
}

/// How many of the lines tell refusals.
pub fn count_refused(lines: &[MergeLine]) -> u64
    ensures { result ≡ refused_in lines.now }
{
    lines
        .iter()
        .filter(|line| line.outcome.is_refused())
        .count() as u64
}

/// What a pull did: the lines of its fetch, and those of its merge.
#[derive(Drop)]
pub struct Pulled {
    pub fetched: List<Line>,
    pub merged: List<MergeLine>,
}
