//! Laws of copies between sound folders whose trees are flat and small, each the contract of a
//! function that does nothing.
ghost use Rattle.std.specs.Prelude.{◌≡◌, ◌<◌, ◌^◌, ℕ, Bool, true, List, Option, Contains, Ok};
ghost use Rattle.std.specs.List.{AllByRecursion};
ghost use Rattle.gb_text.specs.Digits.{IsId, IsName};
ghost use Rattle.gb_text.specs.Overlap.{Overlap};
ghost use Rattle.gb_text.specs.declared.id.Id.{Id};
ghost use Rattle.gb_text.specs.declared.id.Name.{Name};
ghost use Rattle.gb_store.specs.Files.{Files, History, files_of};
ghost use Rattle.gb_store.specs.Moments.{WroteBy};
ghost use Rattle.git_object.specs.declared.frame.Kind.TheVariants.{Commit};
ghost use Rattle.object_store.specs.Growth.{OnlyGrew};
ghost use Rattle.object_store.specs.Held.{Objects, objects_after, objects_in};
ghost use Rattle.object_batch.specs.Batches.{AllStand};
ghost use Rattle.object_batch.specs.Needs.{IsHeldAs, IsWhole};
ghost use Rattle.commit_walk.specs.Below.{IsParent};
ghost use Rattle.op_pack.specs.declared.pack.Pack.{Pack};
ghost use Rattle.bug_ops.specs.Kind.{bug_kind};
ghost use Rattle.bug_ops.specs.declared.op.BugOp.{BugOp};
ghost use Rattle.dag_entity.specs.Appending.{MayBeAppended, appended_name, appended_objects, appended_tree};
ghost use Rattle.dag_entity.specs.Folders.{HaveOneText};
ghost use Rattle.identity.specs.Making.{HoldsVersion, version_tree};
ghost use Rattle.identity.specs.declared.making.Made.{Made};
ghost use Rattle.ref_store.specs.Refs.{Head};
ghost use Rattle.remote_copy.specs.Causes.{CauseHolds};
ghost use Rattle.remote_copy.specs.declared.fault.CopyFault.{CopyFault};
ghost use Rattle.remote_name.specs.declared.remote.RemoteName.{RemoteName};
ghost use Rattle.repo_state.specs.Sides.{head_at};
ghost use Rattle.repo_state.specs.Sound.{AreWhole, IsSound};
ghost use Rattle.sync_steps.specs.Fetching.{FetchAnswers};
ghost use Rattle.sync_steps.specs.Lines.{is_refused};
ghost use Rattle.sync_steps.specs.Places.{local_side};
ghost use Rattle.sync_steps.specs.Pushing.{PushAnswers};
ghost use Rattle.sync_steps.specs.declared.line.EntityWord.{EntityWord as WordValue};
ghost use Rattle.sync_steps.specs.declared.line.Line.{Line as LineValue};
ghost use Rattle.sync_steps.specs.declared.line.Outcome.TheVariants as outcome;
ghost use Rattle.sync_writes.specs.Kinds.{FetchWrites, HadCause};
ghost use Rattle.merge_steps.specs.Pulling.{PullAnswers};
ghost use Rattle.merge_steps.specs.declared.line.Pulled.{Pulled};
ghost use Rattle.copy_limits.specs.Flat.{HasFlatEntities, HasFlatTree, HasFlatTrees, IsFlat};

/// The trees that commands and merges make are flat: that of a version, and that of a pack.
pub fn made_trees_are_flat()
    ensures version { (blob : Name) → IsFlat (version_tree blob) }
    ensures pack { (edit : ℕ) (create : Option ℕ) (ops : Name)
        → IsFlat (appended_tree edit create ops) }
{}

/// So a commit that is made has a flat tree: that of a version, if it is held, and that of a pack
/// of a bug, if its objects stand.
pub fn made_commits_have_flat_trees()
    ensures version { (objects : Objects) (version : List ℕ) (parent : Option Name) (now : ℕ)
        (made : Made) → HoldsVersion objects version parent now made
        → HasFlatTree objects made.head }
    ensures pack { (objects : Objects) (parents : List Name) (pack : Pack BugOp) (now : ℕ)
        → MayBeAppended bug_kind pack → now < 2 ^ 64 → AllByRecursion IsName parents
        → AllStand objects (appended_objects bug_kind parents pack now)
        → HasFlatTree objects (appended_name bug_kind parents pack now) }
{}

/// If the trees below a head are flat, they stay so while objects are only added. They are so in
/// each store that holds the head and all that its objects name, and no other text under a name. A
/// commit with a flat tree, and with such trees below each parent, has such trees below it.
pub fn flat_trees_stay()
    ensures grown { (old new : Objects) (head : Name) → OnlyGrew old new → HasFlatTrees old head
        → HasFlatTrees new head }
    ensures over { (objects : Objects) (head : Name) → HasFlatTree objects head
        → ((low : Name) → IsParent objects head low → HasFlatTrees objects low)
        → HasFlatTrees objects head }
    ensures alike { (source target : Objects) (head : Name) → HaveOneText source target
        → IsWhole target → IsHeldAs target head Commit → HasFlatTrees source head
        → HasFlatTrees target head }
{}

/// Nothing keeps a head of a sound folder, of an identity or of a bug, from being copied into
/// another whose objects are whole, if the trees below it are flat and the two have no two texts
/// under one name.
pub fn flat_entities_are_copied()
    ensures { (closed : Bool) (source : List ℕ) (files : Files) (target : Objects)
        (word : WordValue) (id : Id) (head : Name) (why : CopyFault)
        → IsSound source files → AreWhole target → HaveOneText (objects_in files source) target
        → IsId id → head_at files source (local_side word) id ≡ Head head
        → HasFlatTrees (objects_in files source) head
        → CauseHolds closed (objects_in files source) target head why → ⊥ }
{}

/// Two sound folders have no two texts under one name, and the one from which is copied has flat
/// trees. Then no line of a fetch, or of the fetch of a pull, refuses an entity; and a line of a
/// push does only if the peer's head is not below the local one.
pub fn exchanges_of_flat_entities_refuse_no_copy()
    ensures fetch { (own peer : List ℕ) (remote : RemoteName) (old new : History)
        (lines : List LineValue) (line : LineValue) → (Overlap own peer → ⊥)
        → IsSound own (files_of old) → IsSound peer (files_of old)
        → HasFlatEntities peer (files_of old)
        → HaveOneText (objects_after new own) (objects_after new peer)
        → FetchAnswers own peer remote old new (Ok lines) → Contains lines line
        → is_refused line.outcome ≡ true → ⊥ }
    ensures push { (own peer : List ℕ) (old new : History) (lines : List LineValue)
        (line : LineValue) → (Overlap own peer → ⊥)
        → IsSound own (files_of old) → IsSound peer (files_of old)
        → HasFlatEntities own (files_of old)
        → HaveOneText (objects_after new own) (objects_after new peer)
        → PushAnswers own peer old new (Ok lines) → Contains lines line
        → is_refused line.outcome ≡ true
        → (other : Name) × (line.outcome ≡ outcome.NotForward other) }
    ensures pull { (own peer : List ℕ) (remote : RemoteName) (now : ℕ) (old new : History)
        (pulled : Pulled) (line : LineValue) → (Overlap own peer → ⊥) → now < 2 ^ 64
        → IsSound own (files_of old) → IsSound peer (files_of old)
        → HasFlatEntities peer (files_of old)
        → HaveOneText (objects_after new own) (objects_after new peer)
        → PullAnswers own peer remote now old new (Ok pulled) → Contains pulled.fetched line
        → is_refused line.outcome ≡ true → ⊥ }
{}

/// Nothing kept a head of such a peer from being copied, at any moment of what a fetch wrote so
/// far.
pub fn flat_entities_had_no_cause()
    ensures { (own peer : List ℕ) (remote : RemoteName) (entry now : History) (word : WordValue)
        (id : Id) (head : Name) → (Overlap own peer → ⊥)
        → WroteBy (FetchWrites own peer remote) entry now
        → IsSound own (files_of entry) → IsSound peer (files_of entry)
        → HasFlatEntities peer (files_of entry)
        → HaveOneText (objects_after now own) (objects_after now peer)
        → IsId id → head_at (files_of now) peer (local_side word) id ≡ Head head
        → HadCause own peer entry now head → ⊥ }
{}
