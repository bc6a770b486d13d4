//! Why two heads are not joined.
use dag_entity::EntityFault;
use gb_text::Name;
use object_store::PutFault;

/// Why two heads are not joined.
#[derive(Clone, Copy, Debug, PartialEq, Eq, Drop)]
pub enum MergeFault {
    Memory,
    /// The store failed.
    Disk,
    /// This is wrong with the entity at both heads together; it is never `Memory` or `Disk`.
    Invalid(EntityFault),
    /// An object of the merge commit has this name, under which another text is stored.
    Taken(Name),
}

impl From<EntityFault> for MergeFault {
    ghost use Rattle.std.specs.Prelude.{◌≡◌};
    ghost use Rattle.entity_merge.specs.Stops.{merge_stop};

    ghost from_gives = { λ fault e. e ≡ merge_stop fault };

    fn from(fault: EntityFault) -> Self {
        match fault {
            EntityFault::Memory => MergeFault::Memory,
            EntityFault::Disk => MergeFault::Disk,
            fault => MergeFault::Invalid(fault),
        }
    }
}

// `Large` never comes: the objects of a merge commit are short.
impl From<PutFault> for MergeFault {
    ghost use Rattle.std.specs.Prelude.{◌≡◌};
    ghost use Rattle.entity_merge.specs.Stops.{put_stop};

    ghost from_gives = { λ fault e. e ≡ put_stop fault };

    fn from(fault: PutFault) -> Self {
        match fault {
            PutFault::Disk => MergeFault::Disk,
            PutFault::Taken(name) => MergeFault::Taken(name),
            PutFault::Memory | PutFault::Large(_) => MergeFault::Memory,
        }
    }
}
