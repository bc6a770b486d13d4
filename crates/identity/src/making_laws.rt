//! Laws of new versions, each the contract of a function that does nothing.
ghost use Rattle.std.specs.Prelude.{ℕ, List, Option, Some};
ghost use Rattle.gb_text.specs.declared.id.Id.{Id};
ghost use Rattle.gb_text.specs.declared.id.Name.{Name};
ghost use Rattle.gb_store.specs.Files.{History, files_of};
ghost use Rattle.gb_store.specs.Moments.{Wrote};
ghost use Rattle.object_store.specs.Held.{Objects, objects_in};
ghost use Rattle.object_batch.specs.Batches.{MayBePut};
ghost use Rattle.object_batch.specs.Needs.{PutsAfterNeeds};
ghost use Rattle.commit_walk.specs.Chain.{Meets};
ghost use Rattle.identity.specs.Extending.{Extends};
ghost use Rattle.identity.specs.Making.{HasParent, HoldsVersion, after_version, made_of, version_objects};
ghost use Rattle.identity.specs.Persons.{IsChain};
ghost use Rattle.identity.specs.Version.{MayBeWritten, version_text_of, written_version};

/// After the objects of a new version are put, they are held, and the version begins the chain of its
/// identity or goes on with that of its parent. What stood under a parent's name stands below it.
pub fn new_versions_extend_their_chains()
    ensures held { (folder name email nonce : List ℕ) (now : ℕ) (parent : Option Name)
        (old : History)
        → MayBeWritten name email nonce now → HasParent (objects_in (files_of old) folder) parent
        → MayBePut folder (version_objects (version_text_of name email nonce now) parent now) old
        → HoldsVersion (objects_in (files_of (after_version folder
        (version_text_of name email nonce now) parent now old)) folder)
        (version_text_of name email nonce now) parent now (made_of
        (version_text_of name email nonce now) parent now) }
    ensures extends { (folder name email nonce : List ℕ) (now : ℕ) (parent : Option Name)
        (old : History)
        → MayBeWritten name email nonce now → HasParent (objects_in (files_of old) folder) parent
        → MayBePut folder (version_objects (version_text_of name email nonce now) parent now) old
        → Extends (objects_in (files_of old) folder)
        (objects_in (files_of (after_version folder
        (version_text_of name email nonce now) parent now old)) folder) parent
        (written_version name email nonce now) (made_of
        (version_text_of name email nonce now) parent now) }
    ensures below { (folder name email nonce : List ℕ) (now : ℕ) (head : Name) (old : History)
        → MayBeWritten name email nonce now
        → HasParent (objects_in (files_of old) folder) (Some head)
        → MayBePut folder (version_objects (version_text_of name email nonce now)
        (Some head) now) old
        → Meets (objects_in (files_of (after_version folder
        (version_text_of name email nonce now) (Some head) now old)) folder)
        (made_of (version_text_of name email nonce now) (Some head) now).head head }
    ensures parent { (objects : Objects) (id : Id) (head : Name) → IsChain objects id head
        → HasParent objects (Some head) }
{}

/// If the parent is held, each object of a new version is put after everything that it names.
pub fn new_versions_come_after_their_needs()
    ensures { (folder name email nonce : List ℕ) (now : ℕ) (parent : Option Name) (old : History)
        → MayBeWritten name email nonce now → HasParent (objects_in (files_of old) folder) parent
        → MayBePut folder (version_objects (version_text_of name email nonce now) parent now) old
        → Wrote (PutsAfterNeeds folder (version_objects
        (version_text_of name email nonce now) parent now)) old
        (after_version folder (version_text_of name email nonce now) parent now old) }
{}
