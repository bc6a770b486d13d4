//! Laws of what a chain of versions depends on, each the contract of a function that does nothing.
ghost use Rattle.std.specs.Prelude.{◌≡◌, ◌↔◌};
ghost use Rattle.gb_text.specs.declared.id.Id.{Id};
ghost use Rattle.gb_text.specs.declared.id.Name.{Name};
ghost use Rattle.object_store.specs.Held.{Objects};
ghost use Rattle.commit_walk.specs.Chain.{Meets};
ghost use Rattle.identity.specs.Agreeing.{SameChain};
ghost use Rattle.identity.specs.Persons.{IdentityFaultHolds, IsChain, Shows};
ghost use Rattle.identity.specs.declared.chain.Person.{Person};
ghost use Rattle.identity.specs.declared.fault.IdentityFault.{IdentityFault};

/// Stores that agree about what the chain from a head needs agree both ways, and have the same chain: the
/// same names are met, the same is wrong with it, its commits are the same, and its head shows the same
/// person.
pub fn agreeing_stores_have_the_same_chain()
    ensures both { (one two : Objects) (head : Name)
        → SameChain one two head → SameChain two one head }
    ensures met { (one two : Objects) (head name : Name)
        → SameChain one two head → Meets one head name ↔ Meets two head name }
    ensures faults { (one two : Objects) (id : Id) (head : Name) (fault : IdentityFault)
        → SameChain one two head
        → IdentityFaultHolds one id head fault ↔ IdentityFaultHolds two id head fault }
    ensures chain { (one two : Objects) (id : Id) (head : Name) → SameChain one two head
        → (chain : IsChain one id head)
        → (other : IsChain two id head) × (other.walk ≡ chain.walk) }
    ensures person { (one two : Objects) (id : Id) (head : Name) (person : Person)
        → SameChain one two head → Shows one id head person ↔ Shows two id head person }
{}
