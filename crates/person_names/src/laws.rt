//! Laws of names. No call of them does anything.
ghost use Rattle.std.specs.Prelude.{◌≡◌, ◌++◌, ◌∷◌, List, false};
ghost use Rattle.std.specs.List.{AllByRecursion};
ghost use Rattle.gb_text.specs.declared.id.Id.{Id as IdValue};
ghost use Rattle.bug_ops.specs.Snapshots.{same_id};
ghost use Rattle.identity.specs.declared.chain.Person.{Person as PersonValue};
ghost use Rattle.person_names.specs.Named.{name_among, short_of};

/// An id that no person has is named by its first seven digits.
pub fn unknown_persons_are_named_by_digits()
    ensures { (persons : List PersonValue) (id : IdValue)
        → AllByRecursion (λ person. same_id person.id id ≡ false) persons
        → name_among persons id ≡ short_of id }
{}

/// An id is named by the first person that has it, whoever follows.
pub fn the_first_person_with_an_id_names_it()
    ensures { (before after : List PersonValue) (person : PersonValue)
        → AllByRecursion (λ other. same_id other.id person.id ≡ false) before
        → name_among (before ++ person ∷ after) person.id ≡ person.name }
{}
