//! Laws of what a version may say, and of what the faults of a chain report. No call of them does anything.
ghost use Rattle.std.specs.Prelude.{◌≡◌, ◌≢◌, ◌≤◌, ◌-◌, ◌^◌, ◌↔◌, ℕ, List, [], ◌∷◌, length, true, codes, Some, IsTrue};
ghost use Rattle.sha2.specs.Sha256.{sha256};
ghost use Rattle.gb_text.specs.Rules.{is_line_text};
ghost use Rattle.gb_text.specs.declared.id.Id.{Id};
ghost use Rattle.gb_text.specs.declared.id.Name.{Name};
ghost use Rattle.git_object.specs.declared.commit.Commit.{Commit};
ghost use Rattle.json_span.specs.Parts.{elements_of};
ghost use Rattle.object_store.specs.Held.{Objects};
ghost use Rattle.object_store.specs.Typed.{commit_at};
ghost use Rattle.op_kind.specs.Members.{Fields, fields_at, values_of};
ghost use Rattle.commit_walk.specs.Chain.{Meets};
ghost use Rattle.identity.specs.Commits.{HasNoVersion, version_at, version_text_at};
ghost use Rattle.identity.specs.Persons.{IdentityFaultHolds, IsChain};
ghost use Rattle.identity.specs.Version.{version_of};
ghost use Rattle.identity.specs.declared.fault.IdentityFault.TheVariants as fault;
ghost use Rattle.identity.specs.declared.version.Version.{Version as VersionValue};

/// All four texts of a version are lines: its name, its email, its login and the address of its
/// picture. Its time is at most 2^63 - 1, and its nonce has 20 to 64 bytes.
pub fn versions_are_within_bounds()
    ensures name { (text : List ℕ) (version : VersionValue) → version_of text ≡ Some version
        → IsTrue (is_line_text version.name) }
    ensures email { (text : List ℕ) (version : VersionValue) → version_of text ≡ Some version
        → IsTrue (is_line_text version.email) }
    ensures login { (text : List ℕ) (version : VersionValue) → version_of text ≡ Some version
        → IsTrue (is_line_text version.login) }
    ensures picture { (text : List ℕ) (version : VersionValue) → version_of text ≡ Some version
        → IsTrue (is_line_text version.avatar_url) }
    ensures time { (text : List ℕ) (version : VersionValue) → version_of text ≡ Some version
        → version.time ≤ 2 ^ 63 - 1 }
    ensures nonce { (text : List ℕ) (version : VersionValue) → version_of text ≡ Some version
        → (20 ≤ length version.nonce) × (length version.nonce ≤ 64) }
{}

/// A version has keys if and only if its one member `pub_keys` is an array with an element.
pub fn keys_are_elements_of_pub_keys()
    ensures { (text : List ℕ) (version : VersionValue) (fields : Fields)
        → version_of text ≡ Some version → fields_at text ≡ Some fields
        → (version.has_keys ≡ true) ↔ ((value one : List ℕ) × (more : List (List ℕ))
        × (values_of (codes "pub_keys") fields ≡ value ∷ [])
        × (elements_of value ≡ Some (one ∷ more))) }
{}

/// Keys in any version that the walk from a head meets are a fault, which reports the commit that has
/// them. So no chain with such a version is valid.
pub fn keys_anywhere_refuse()
    ensures chain { (objects : Objects) (id : Id) (head name : Name)
        → IdentityFaultHolds objects id head (fault.KeysPresent name)
        ↔ (Meets objects head name × ((version : VersionValue)
        × (version_at objects name ≡ Some version) × (version.has_keys ≡ true))) }
    ensures last { (objects : Objects) (head name : Name)
        → HasNoVersion objects head (fault.KeysPresent name)
        ↔ ((name ≡ head) × ((version : VersionValue)
        × (version_at objects head ≡ Some version) × (version.has_keys ≡ true))) }
    ensures refused { (objects : Objects) (id : Id) (head name : Name) (version : VersionValue)
        → Meets objects head name → version_at objects name ≡ Some version
        → version.has_keys ≡ true → IsChain objects id head → ⊥ }
{}

/// A wrong id is reported as the id that was found: the SHA-256 of the text of the first version, which
/// is that of the commit without parents at the end of the walk, and is not the id that was asked for.
pub fn wrong_ids_report_what_was_found()
    ensures { (objects : Objects) (id : Id) (head : Name) (found : Id)
        → IdentityFaultHolds objects id head (fault.WrongId found)
        ↔ ((root : Name) × (commit : Commit) × (text : List ℕ) × (version : VersionValue)
        × Meets objects head root × (commit_at objects root ≡ Some commit)
        × (commit.parents ≡ []) × (version_text_at objects root ≡ Some text)
        × (version_of text ≡ Some version) × (found.bytes ≡ sha256 text) × (found ≢ id)) }
{}
