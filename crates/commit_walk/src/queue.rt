//! The queue of a walk: names in the order in which they were met, each once.
ghost use Rattle.std.specs.Prelude.{◌≡◌, OnOk, [], ◌∷◌, slice_get};
ghost use Rattle.commit_walk.specs.Queues.{Adds, IsQueue};

use gb_text::Name;
use std::alloc::{AllocFailed, Global};
use std::collections::BTreeSet;

/// Names in the order in which they were added, none twice, and the set of them, by which a name
/// that is there is known. A name keeps its place.
#[derive(Drop)]
pub struct Queue {
    pub names: Vec<Name>,
    pub known: BTreeSet<Name>,
}

impl Queue {
    /// No names.
    pub fn new(alloc: Global) -> Queue
        ensures empty { result.names.items ≡ [] }
        ensures queue { IsQueue result }
    {
        Queue {
            names: Vec::new(alloc),
            known: BTreeSet::new(alloc),
        }
    }

    /// The name at a place.
    pub fn get(&self, place: usize) -> Option<Name>
        ensures { result ≡ slice_get self.now.names.items place }
    {
        self.names.get(place).copied()
    }

    /// Adds those of some names that are not there yet, in their order.
    pub fn add(&mut self, more: &[Name]) -> Result<(), AllocFailed<Name>>
        requires { IsQueue self.old }
        ensures queue { OnOk result (IsQueue self.new) }
        ensures adds { OnOk result (Adds self.old.names.items more.now self.new.names.items) }
    {
        for name in more {
            self.insert(*name)?;
        }
        Ok(())
    }

    // Adds a name that is not there yet.
    fn insert(&mut self, name: Name) -> Result<(), AllocFailed<Name>>
        requires { IsQueue self.old }
        ensures queue { OnOk result (IsQueue self.new) }
        ensures adds { OnOk result (Adds self.old.names.items (name ∷ []) self.new.names.items) }
    {
        if self.known.insert(name)? {
            self.names.push(name)?;
        }
        Ok(())
    }
}
