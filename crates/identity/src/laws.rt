//! Laws of version texts and of chains of versions. No call of them does anything.
ghost use Rattle.std.specs.Prelude.{◌≡◌, ◌↔◌, ℕ, List, length, Some, IsTrue};
ghost use Rattle.gb_text.specs.declared.id.Id.{Id};
ghost use Rattle.gb_text.specs.declared.id.Name.{Name};
ghost use Rattle.gb_text.specs.Digits.{IsId};
ghost use Rattle.gb_text.specs.Rules.{is_line_text, is_title_text};
ghost use Rattle.identity.specs.Version.{IsVersionText, MayBeWritten, version_id, version_of, version_text_of, written_version, person_name};
ghost use Rattle.object_store.specs.Held.{Objects};
ghost use Rattle.identity.specs.Commits.{HasNoVersion, HasVersion};
ghost use Rattle.object_store.specs.Growth.{OnlyGrew};
ghost use Rattle.identity.specs.Persons.{IdentityFaultHolds, IsChain, Shows};
ghost use Rattle.identity.specs.declared.version.Version.{Version as VersionValue};
ghost use Rattle.identity.specs.declared.chain.Person.{Person};
ghost use Rattle.identity.specs.declared.fault.IdentityFault.{IdentityFault};

/// A text is a version exactly when it is UTF-8 and an object whose members say what the version says.
pub fn versions_by_members()
    ensures { (text : List ℕ) (version : VersionValue)
        → (version_of text ≡ Some version) ↔ IsVersionText text version }
{}

/// A version written from a name, an email, a nonce and a time reads back as these, with no login
/// and no keys. Its person goes by the name.
pub fn written_versions_read_back()
    ensures version { (name email nonce : List ℕ) (time : ℕ) → MayBeWritten name email nonce time
        → version_of (version_text_of name email nonce time)
        ≡ Some (written_version name email nonce time) }
    ensures person { (name email nonce : List ℕ) (time : ℕ) → IsTrue (is_title_text name)
        → person_name (written_version name email nonce time) ≡ name }
{}

/// The name that a version's person goes by is a title, and the email a line.
pub fn versions_name_persons()
    ensures title { (text : List ℕ) (version : VersionValue) → version_of text ≡ Some version
        → IsTrue (is_title_text (person_name version)) }
    ensures line { (text : List ℕ) (version : VersionValue) → version_of text ≡ Some version
        → IsTrue (is_line_text version.email) }
{}

/// A valid chain has no fault, and a head whose version has no keys has no fault of the head alone.
/// So a refusal comes exactly where a fault holds.
pub fn valid_chains_have_no_fault()
    ensures chain { (objects : Objects) (id : Id) (head : Name) (fault : IdentityFault)
        → IsChain objects id head
        → IdentityFaultHolds objects id head fault → ⊥ }
    ensures last { (objects : Objects) (head : Name) (version : VersionValue)
        (fault : IdentityFault) → HasVersion objects head version
        → HasNoVersion objects head fault → ⊥ }
{}

/// The head of a valid chain shows a person, and so the head alone is enough to know whom.
pub fn valid_chains_show_a_person()
    ensures { (objects : Objects) (id : Id) (head : Name) → IsChain objects id head
        → (person : Person) × Shows objects id head person }
{}

/// A head shows at most one person. It is that of a valid chain for at most one id, with one number of
/// versions.
pub fn chains_are_determined()
    ensures persons { (objects : Objects) (id : Id) (head : Name) (one two : Person)
        → Shows objects id head one → Shows objects id head two → one ≡ two }
    ensures ids { (objects : Objects) (one two : Id) (head : Name) → IsChain objects one head
        → IsChain objects two head → one ≡ two }
    ensures counts { (objects : Objects) (id : Id) (head : Name)
        → (one two : IsChain objects id head) → length one.walk ≡ length two.walk }
{}

/// If objects are only added, a valid chain stays valid with the same commits, and a head shows the
/// same person.
pub fn valid_chains_stay_valid()
    ensures chain { (old new : Objects) → OnlyGrew old new → (id : Id) (head : Name)
        → (chain : IsChain old id head)
        → (later : IsChain new id head) × (later.walk ≡ chain.walk) }
    ensures person { (old new : Objects) → OnlyGrew old new
        → (id : Id) (head : Name) (person : Person) → Shows old id head person
        → Shows new id head person }
{}

/// The hash of a version text is an id.
pub fn version_ids_are_ids()
    ensures { (text : List ℕ) → IsId (version_id text) }
{}
