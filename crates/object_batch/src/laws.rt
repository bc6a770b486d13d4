//! Laws of putting several objects, each the contract of a function that does nothing.
ghost use Rattle.std.specs.Prelude.{◌≡◌, ◌↔◌, ◌<◌, ◌++◌, ℕ, List, Contains, Some, None, Err, codes, decimal, length, reverse};
ghost use Rattle.std.specs.List.{flat_map};
ghost use Rattle.hex.specs.Hex.{encode_lower};
ghost use Rattle.gb_text.specs.declared.id.Name.{Name};
ghost use Rattle.gb_store.specs.Files.{History, files_of};
ghost use Rattle.gb_store.specs.Moments.{Wrote};
ghost use Rattle.git_object.specs.Grammar.{commit_text};
ghost use Rattle.git_object.specs.declared.commit.Commit.{Commit as CommitValue};
ghost use Rattle.git_object.specs.declared.entry.Entry.{Entry as EntryValue};
ghost use Rattle.git_object.specs.declared.entry.Mode.TheVariants.{Plain, Exec, Link, Folder, Module};
ghost use Rattle.git_object.specs.declared.frame.Kind.TheVariants as kinds;
ghost use Rattle.git_object.specs.declared.object.Object.TheVariants.{Blob, Commit, Tree};
ghost use Rattle.git_object.specs.declared.tree.Tree.{Tree as TreeValue};
ghost use Rattle.object_store.specs.Growth.{OnlyGrew};
ghost use Rattle.object_store.specs.Held.{Objects, objects_in};
ghost use Rattle.object_store.specs.Typed.{HoldsAs, as_blob, as_commit, as_tree};
ghost use Rattle.object_store.specs.declared.fault.PutFault.TheVariants as put;
ghost use Rattle.object_batch.specs.Batches.{AllStand, BatchAnswers, CannotHave, HasLong, MayBePut, missing_writes};
ghost use Rattle.object_batch.specs.Commits.{written_commit};
ghost use Rattle.object_batch.specs.Needs.{AllHeld, InNeedOrder, IsHeldAs, IsWhole, LeadsTo, PutsAfterNeeds, Reference, kind_named};

/// Texts that may be put are not refused: no text is too long, and each name can have its text.
pub fn batches_are_put_or_refused()
    ensures long { (folder : List ℕ) (texts : List (List ℕ)) (old : History)
        → MayBePut folder texts old → HasLong texts → ⊥ }
    ensures taken { (folder : List ℕ) (texts : List (List ℕ)) (old : History) (name : Name)
        → MayBePut folder texts old → CannotHave folder texts old name → ⊥ }
{}

/// After the missing texts are put, each text is held under its name, and everything held before is
/// still held.
pub fn batches_are_held()
    ensures held { (folder : List ℕ) (texts : List (List ℕ)) (old : History)
        → MayBePut folder texts old
        → AllStand (objects_in (files_of (reverse (missing_writes folder texts
        (files_of old)) ++ old)) folder)
        texts }
    ensures kept { (folder : List ℕ) (texts : List (List ℕ)) (old : History)
        → MayBePut folder texts old
        → OnlyGrew (objects_in (files_of old) folder)
        (objects_in (files_of (reverse (missing_writes folder texts
        (files_of old)) ++ old)) folder) }
{}

/// If each text names only objects that are held or come before it, each missing text is written
/// after everything that it names.
pub fn batches_come_after_their_needs()
    ensures { (folder : List ℕ) (texts : List (List ℕ)) (old : History) → MayBePut folder texts old
        → InNeedOrder (objects_in (files_of old) folder) texts
        → Wrote (PutsAfterNeeds folder texts) old
        (reverse (missing_writes folder texts (files_of old)) ++ old) }
{}

/// If everything that a commit names is held, its tree is a tree and each parent a commit, and it
/// names nothing else. A blob names nothing.
pub fn commits_need_their_tree_and_parents()
    ensures tree { (held : Objects) (commit : CommitValue) → AllHeld held (Commit commit)
        → HoldsAs as_tree held commit.tree }
    ensures parent { (held : Objects) (commit : CommitValue) (parent : Name)
        → AllHeld held (Commit commit) → Contains commit.parents parent
        → HoldsAs as_commit held parent }
    ensures only { (held : Objects) (commit : CommitValue) → HoldsAs as_tree held commit.tree
        → ((parent : Name) → Contains commit.parents parent → HoldsAs as_commit held parent)
        → AllHeld held (Commit commit) }
    ensures blob { (held : Objects) (content : List ℕ) → AllHeld held (Blob content) }
{}

/// If everything that a tree names is held, each file and link is a blob and each folder a tree, and
/// it names nothing else.
pub fn trees_need_their_entries()
    ensures plain { (held : Objects) (tree : TreeValue) (entry : EntryValue)
        → AllHeld held (Tree tree) → Contains tree.entries entry → entry.mode ≡ Plain
        → HoldsAs as_blob held entry.object }
    ensures exec { (held : Objects) (tree : TreeValue) (entry : EntryValue)
        → AllHeld held (Tree tree) → Contains tree.entries entry → entry.mode ≡ Exec
        → HoldsAs as_blob held entry.object }
    ensures link { (held : Objects) (tree : TreeValue) (entry : EntryValue)
        → AllHeld held (Tree tree) → Contains tree.entries entry → entry.mode ≡ Link
        → HoldsAs as_blob held entry.object }
    ensures folder { (held : Objects) (tree : TreeValue) (entry : EntryValue)
        → AllHeld held (Tree tree) → Contains tree.entries entry → entry.mode ≡ Folder
        → HoldsAs as_tree held entry.object }
    ensures only { (held : Objects) (tree : TreeValue)
        → ((entry : EntryValue) → Contains tree.entries entry
        → kind_named entry.mode ≡ Some kinds.Blob → HoldsAs as_blob held entry.object)
        → ((entry : EntryValue) → Contains tree.entries entry
        → kind_named entry.mode ≡ Some kinds.Tree → HoldsAs as_tree held entry.object)
        → AllHeld held (Tree tree) }
    ensures module_free { kind_named Module ≡ None }
{}

/// In a whole folder everything that a held object leads to is held, with its kind.
pub fn what_is_led_to_is_held()
    ensures { (held : Objects) (from to : Reference) → IsWhole held
        → IsHeldAs held from.name from.kind → LeadsTo held from to
        → IsHeldAs held to.name to.kind }
{}

/// Each object leads to itself, paths compose, and paths stay while objects are only added.
pub fn paths_compose()
    ensures none { (held : Objects) (one : Reference) → LeadsTo held one one }
    ensures then { (held : Objects) (from mid to : Reference)
        → LeadsTo held from mid → LeadsTo held mid to → LeadsTo held from to }
    ensures stays { (old new : Objects) (from to : Reference) → OnlyGrew old new
        → LeadsTo old from to → LeadsTo new from to }
{}

/// A commit is written with this text, by Git's object format. Its parents are in the given order,
/// and its message ends in a line feed.
pub fn written_commits_have_this_text()
    ensures { (tree : Name) (parents : List Name) (now : ℕ)
        → commit_text (written_commit tree parents now)
        ≡ codes "tree " ++ encode_lower tree.bytes ++ codes "\n"
        ++ flat_map
        (λ (parent : Name). (codes "parent " ++ encode_lower parent.bytes) ++ codes "\n") parents
        ++ codes "author git-bug <git-bug@localhost> " ++ decimal now ++ codes " +0000\n"
        ++ codes "committer git-bug <git-bug@localhost> " ++ decimal now ++ codes " +0000\n"
        ++ codes "\ngit-bug\n" }
{}

/// A batch is refused as large only with the number 4,194,305, if a text has more than 4,194,304
/// bytes, and then nothing is written.
pub fn long_batches_are_refused()
    ensures { (folder : List ℕ) (texts : List (List ℕ)) (old new : History) (count : ℕ)
        → BatchAnswers folder texts old new (Err (put.Large count))
        ↔ ((count ≡ 4194305) × ((text : List ℕ) × Contains texts text × (4194304 < length text))
        × (new ≡ old)) }
{}
