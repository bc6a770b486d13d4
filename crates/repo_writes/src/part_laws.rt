//! Laws of what a clock has seen that rises, of which row a bug gets, and of what each part of soundness
//! says, each the contract of a function that does nothing.
ghost use Rattle.std.specs.Prelude.{◌≡◌, ◌≢◌, ◌⊎◌, ◌<◌, [], ◌∷◌, List, ℕ, Some};
ghost use Rattle.gb_text.specs.Digits.{IsId, IsName};
ghost use Rattle.gb_text.specs.declared.id.Id.{Id};
ghost use Rattle.gb_text.specs.declared.id.Name.{Name};
ghost use Rattle.gb_store.specs.Files.{Files, written};
ghost use Rattle.gb_store.specs.declared.store.Change.{Change};
ghost use Rattle.git_object.specs.declared.commit.Commit.{Commit as CommitValue};
ghost use Rattle.git_object.specs.declared.object.Object.{Object as ObjectValue};
ghost use Rattle.object_store.specs.Held.{object_at, objects_in};
ghost use Rattle.object_store.specs.Typed.{commit_at};
ghost use Rattle.ref_store.specs.Refs.{Bad, Head};
ghost use Rattle.lamport.specs.Clock.{seen_by};
ghost use Rattle.bug_ops.specs.Kind.{bug_kind};
ghost use Rattle.bug_ops.specs.declared.op.BugOp.{BugOp as OpValue};
ghost use Rattle.dag_entity.specs.Entities.{IsOperationList, IsRootClock};
ghost use Rattle.dag_entity.specs.Faults.{EntityFaultHolds};
ghost use Rattle.dag_entity.specs.Nodes.{IsNodeBelow, edit_at};
ghost use Rattle.dag_entity.specs.declared.entity.Loaded.{Loaded as LoadedValue};
ghost use Rattle.dag_entity.specs.declared.fault.EntityFault.{EntityFault as EntityFaultValue};
ghost use Rattle.dag_entity.specs.declared.fault.EntityFault.TheVariants.{AuthorUnknown};
ghost use Rattle.identity.specs.Persons.{IsChain};
ghost use Rattle.repo_state.specs.Bugs.{IsLocal};
ghost use Rattle.repo_state.specs.Clocks.{clock_at};
ghost use Rattle.repo_state.specs.Rows.{stored_row};
ghost use Rattle.repo_state.specs.Sides.{head_at};
ghost use Rattle.repo_state.specs.Sound.{HasPart};
ghost use Rattle.repo_state.specs.Sound as part;
ghost use Rattle.repo_state.specs.declared.clocks.ClockFile.TheVariants as file;
ghost use Rattle.remote_name.specs.declared.remote.RemoteName.{RemoteName as RemoteNameValue};
ghost use Rattle.repo_state.specs.declared.side.HeadEntry.{HeadEntry as HeadEntryValue};
ghost use Rattle.repo_state.specs.declared.side.Side.TheVariants as side;
ghost use Rattle.repo_writes.specs.Kinds.{IsWrite};
ghost use Rattle.row_text.specs.declared.row.HeadRow.{HeadRow as HeadRowValue};
ghost use Rattle.snapshot.specs.LastMention.{snapshot_of};

/// A clock that rises has seen that of a bug: the edit clock of the bug's head, or the create clock of
/// its root.
pub fn clocks_see_heads()
    ensures edit { (folder : List ℕ) (files : Files) (change : Change)
        → IsWrite folder files change
        → clock_at files folder file.BugsEdit < clock_at (written files change) folder file.BugsEdit
        → (bug : HeadEntryValue) × (number : ℕ)
        × (head_at files folder side.Bugs bug.id ≡ Head bug.name)
        × (edit_at (objects_in files folder) bug.name ≡ Some number)
        × (clock_at (written files change) folder file.BugsEdit
        ≡ seen_by (clock_at files folder file.BugsEdit) number) }
    ensures create { (folder : List ℕ) (files : Files) (change : Change)
        → IsWrite folder files change → clock_at files folder file.BugsCreate
        < clock_at (written files change) folder file.BugsCreate
        → (bug : HeadEntryValue) × (number : ℕ)
        × (head_at files folder side.Bugs bug.id ≡ Head bug.name)
        × IsRootClock bug_kind (objects_in files folder) (bug.name ∷ []) number
        × (clock_at (written files change) folder file.BugsCreate
        ≡ seen_by (clock_at files folder file.BugsCreate) number) }
{}

/// A write leaves the stored row of a bug, or the bug gets one of its present head, and the row that was
/// stored before, if any, is of another head.
pub fn rows_are_of_present_heads()
    ensures { (folder : List ℕ) (files : Files) (change : Change) (id : Id)
        → IsWrite folder files change → IsId id
        → (stored_row (written files change) folder id ≡ stored_row files folder id)
        ⊎ ((row : HeadRowValue) × (stored_row (written files change) folder id ≡ Some row)
        × (head_at files folder side.Bugs id ≡ Head row.head)
        × ((stored : HeadRowValue) → stored_row files folder id ≡ Some stored
        → stored.head ≢ row.head)) }
{}

/// What each part of soundness says. Each file at the path of a name is an object that the name holds.
/// The chain of a local identity is valid. Nothing is wrong with a local bug but perhaps an unknown
/// author; and by the part on authors, each author is a local identity. A tracking ref names a commit
/// that is held. No such ref is bad. A stored row that reads is what the operations below its head say,
/// and nothing is wrong there but perhaps an unknown author; and by the part on rows, the bugs are sound.
pub fn parts_say_what_they_keep()
    ensures objects { (folder : List ℕ) (files : Files) (name : Name) (text : List ℕ)
        → HasPart part.Objects folder files → IsName name
        → objects_in files folder name ≡ Some text
        → (object : ObjectValue) × (object_at (objects_in files folder) name ≡ Some object) }
    ensures identities { (folder : List ℕ) (files : Files) (id : Id) (head : Name)
        → HasPart part.Identities folder files → IsId id
        → head_at files folder side.Identities id ≡ Head head
        → IsChain (objects_in files folder) id head }
    ensures bugs { (folder : List ℕ) (files : Files) (id : Id) (head : Name)
        (found : EntityFaultValue) → HasPart part.Bugs folder files → IsId id
        → head_at files folder side.Bugs id ≡ Head head
        → ((author : Id) → found ≢ AuthorUnknown author)
        → EntityFaultHolds bug_kind (objects_in files folder) id (head ∷ []) [] found → ⊥ }
    ensures authors { (folder : List ℕ) (files : Files) (id : Id) (head : Name)
        (node : LoadedValue OpValue) → HasPart part.Authors folder files → IsId id
        → head_at files folder side.Bugs id ≡ Head head
        → IsNodeBelow bug_kind (objects_in files folder) (head ∷ []) node
        → IsLocal files folder node.placed.pack.author }
    ensures tracking { (folder : List ℕ) (remote : RemoteNameValue) (files : Files) (id : Id)
        (head : Name) → HasPart part.Tracking folder files → IsId id
        → head_at files folder (side.RemoteBugs remote) id ≡ Head head
        → (commit : CommitValue) × (commit_at (objects_in files folder) head ≡ Some commit) }
    ensures rows { (folder : List ℕ) (files : Files) (id : Id) (row : HeadRowValue)
        → HasPart part.Rows folder files → IsId id → stored_row files folder id ≡ Some row
        → ((found : EntityFaultValue) → ((author : Id) → found ≢ AuthorUnknown author)
        → EntityFaultHolds bug_kind (objects_in files folder) id (row.head ∷ []) [] found → ⊥)
        × ((ops : List OpValue)
        × IsOperationList bug_kind (objects_in files folder) (row.head ∷ []) ops
        × (row.row ≡ (snapshot_of ops).row)) }
    ensures bugs_by_rows { (folder : List ℕ) (files : Files)
        → HasPart part.Rows folder files → HasPart part.Bugs folder files }
    ensures refs { (folder : List ℕ) (files : Files) (id : Id) → IsId id
        → (HasPart part.Identities folder files → head_at files folder side.Identities id ≢ Bad)
        × (HasPart part.Bugs folder files → head_at files folder side.Bugs id ≢ Bad) }
{}
