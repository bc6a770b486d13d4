//! The order of packs: by edit clock, then by pack id, then by the name of their commit.
ghost use Rattle.std.specs.Prelude.{◌≡◌, IsPermutation};
ghost use Rattle.commit_walk.specs.Distinct.{AreDistinct};
ghost use Rattle.dag_entity.specs.Order.{Rise, commits_of, rank_of};

use crate::entity::Placed;
use gb_text::{Id, Name};
use op_kind::OpKind;

/// Where a pack stands in the order: by edit clock, then by pack id, then by the name of its commit.
#[derive(Clone, Copy, PartialEq, Eq, PartialOrd, Ord)]
pub struct Rank {
    pub edit: u64,
    pub pack: Id,
    pub name: Name,
}

/// Puts the packs of commits into their order.
pub(crate) fn sort_packs<K: OpKind>(packs: &mut Vec<Placed<K>>)
    requires { AreDistinct (commits_of packs.old.items) }
    ensures same { IsPermutation packs.old.items packs.new.items }
    ensures rise { Rise packs.new.items }
{
    packs.sort_unstable_by_key(|placed| rank_of(placed));
}

// What the order compares.
fn rank_of<K: OpKind>(placed: &Placed<K>) -> Rank
    ensures { result ≡ rank_of placed.now }
{
    Rank {
        edit: placed.pack.edit.number(),
        pack: placed.pack.id,
        name: placed.commit,
    }
}
