//! Laws of the packs of commits, each the contract of a function that does nothing.
ghost use Rattle.std.specs.Prelude.{◌≡◌, ◌⊎◌, ◌↔◌, ◌<◌, ◌≤◌, ℕ, List, Some, None, Ok, Err, length};
ghost use Rattle.gb_text.specs.declared.id.Name.{Name as NameValue};
ghost use Rattle.git_object.specs.declared.object.Object.{Object};
ghost use Rattle.git_object.specs.declared.tree.Tree.{Tree};
ghost use Rattle.object_store.specs.Growth.{OnlyGrew};
ghost use Rattle.object_store.specs.Held.{Objects, object_at};
ghost use Rattle.object_store.specs.Typed.{as_blob, as_tree, blob_at, tree_at};
ghost use Rattle.op_kind.specs.declared.fault.OpFault.{OpFault as OpFaultValue};
ghost use Rattle.op_kind.specs.declared.place.TheConstants.{VERSION};
ghost use Rattle.op_pack.specs.Heads.{HeadFault, ops_of};
ghost use Rattle.op_pack.specs.Packs.{PackTextFault};
ghost use Rattle.op_pack.specs.declared.fault.PackFault.TheVariants as pack;
ghost use Rattle.op_pack.specs.declared.pack.Pack.{Pack as PackValue};
ghost use Rattle.commit_pack.specs.Answers.{PackAnswers};
ghost use Rattle.commit_pack.specs.Packs.{CommitPackFaultHolds, IsPackUnder, NamesOps, PackNeeds, pack_under};
ghost use Rattle.commit_pack.specs.declared.fault.CommitPackFault.{CommitPackFault as FaultValue};
ghost use Rattle.commit_pack.specs.declared.fault.CommitPackFault.TheVariants as fault;

use op_kind::OpKind;

/// The pack computed from a tree's name has the head that the tree gives and the text of the blob
/// that its file `ops` names.
pub fn packs_of_commits_are_exact<K: OpKind>()
    ensures found { (objects : Objects) (tree : NameValue) (pack : PackValue K)
        → pack_under K.meaning objects tree ≡ Some pack
        → IsPackUnder K.meaning objects tree pack }
    ensures only { (objects : Objects) (tree : NameValue) (pack : PackValue K)
        → IsPackUnder K.meaning objects tree pack
        → pack_under K.meaning objects tree ≡ Some pack }
{}

/// A commit has a pack or a fault, and never both.
pub fn a_commit_has_a_pack_or_fails<K: OpKind>()
    ensures either { (objects : Objects) (tree : NameValue)
        → ((pack : PackValue K) × (pack_under K.meaning objects tree ≡ Some pack))
        ⊎ ((fault : FaultValue) × CommitPackFaultHolds K.meaning objects tree fault) }
    ensures never_both { (objects : Objects) (tree : NameValue) (pack : PackValue K)
        (fault : FaultValue) → pack_under K.meaning objects tree ≡ Some pack
        → CommitPackFaultHolds K.meaning objects tree fault → ⊥ }
{}

/// If objects are only added, a commit keeps its pack.
pub fn packs_of_commits_stay<K: OpKind>()
    ensures { (old new : Objects) (tree : NameValue) (pack : PackValue K) → OnlyGrew old new
        → pack_under K.meaning old tree ≡ Some pack
        → pack_under K.meaning new tree ≡ Some pack }
{}

/// Reading a pack returns the pack of the commit, or out of memory, a fault of the disk or a fault
/// that holds.
pub fn pack_answers_say_what_is_held<K: OpKind>()
    ensures pack { (objects : Objects) (tree : NameValue) (pack : PackValue K)
        → PackAnswers K.meaning objects tree (Ok pack)
        → pack_under K.meaning objects tree ≡ Some pack }
    ensures refused { (objects : Objects) (tree : NameValue) (why : FaultValue)
        → PackAnswers K.meaning objects tree (Err why)
        → ((why ≡ fault.Memory) ⊎ (why ≡ fault.Disk))
        ⊎ CommitPackFaultHolds K.meaning objects tree why }
{}

/// What each fault says of the files. `Missing`, `Large` and `Damaged` are of an object that the
/// pack needs: no file, one of more than 4,194,304 bytes, one that is no object. A pack needs the
/// tree and what the tree's file `ops` names. The others are an object that is not a tree, faults
/// of the tree, an `ops` that is not a blob, or faults of its text, with their numbers. Want of
/// memory and faults of the disk are no faults of the files.
pub fn commit_pack_faults_are_exact<K: OpKind>()
    ensures needs { (objects : Objects) (tree at : NameValue) → PackNeeds objects tree at
        ↔ ((at ≡ tree) ⊎ NamesOps objects tree at) }
    ensures names_ops { (objects : Objects) (tree ops : NameValue) → NamesOps objects tree ops
        ↔ ((held : Tree) × (tree_at objects tree ≡ Some held) × (ops_of held ≡ Some ops)) }
    ensures memory { (objects : Objects) (tree : NameValue)
        → CommitPackFaultHolds K.meaning objects tree fault.Memory → ⊥ }
    ensures disk { (objects : Objects) (tree : NameValue)
        → CommitPackFaultHolds K.meaning objects tree fault.Disk → ⊥ }
    ensures missing { (objects : Objects) (tree at : NameValue)
        → CommitPackFaultHolds K.meaning objects tree (fault.Missing at)
        ↔ (PackNeeds objects tree at × (objects at ≡ None)) }
    ensures large { (objects : Objects) (tree at : NameValue)
        → CommitPackFaultHolds K.meaning objects tree (fault.Large at)
        ↔ (PackNeeds objects tree at
        × ((text : List ℕ) × (objects at ≡ Some text) × (4194304 < length text))) }
    ensures damaged { (objects : Objects) (tree at : NameValue)
        → CommitPackFaultHolds K.meaning objects tree (fault.Damaged at)
        ↔ (PackNeeds objects tree at
        × ((text : List ℕ) × (objects at ≡ Some text) × (length text ≤ 4194304)
        × (object_at objects at ≡ None))) }
    ensures bad_tree { (objects : Objects) (tree : NameValue)
        → CommitPackFaultHolds K.meaning objects tree fault.BadTree
        ↔ ((object : Object) × (object_at objects tree ≡ Some object)
        × (as_tree object ≡ None)) }
    ensures version { (objects : Objects) (tree : NameValue) (number : ℕ)
        → CommitPackFaultHolds K.meaning objects tree (fault.UnknownVersion number)
        ↔ ((held : Tree) × (tree_at objects tree ≡ Some held)
        × HeadFault held (pack.UnknownVersion number)) }
    ensures no_ops { (objects : Objects) (tree : NameValue)
        → CommitPackFaultHolds K.meaning objects tree fault.NoOps
        ↔ (((held : Tree) × (tree_at objects tree ≡ Some held) × HeadFault held pack.NoOps)
        ⊎ ((ops : NameValue) × NamesOps objects tree ops
        × ((object : Object) × (object_at objects ops ≡ Some object)
        × (as_blob object ≡ None)))) }
    ensures bad_clock { (objects : Objects) (tree : NameValue)
        → CommitPackFaultHolds K.meaning objects tree fault.BadClock
        ↔ ((held : Tree) × (tree_at objects tree ≡ Some held) × HeadFault held pack.BadClock) }
    ensures bad_pack { (objects : Objects) (tree : NameValue)
        → CommitPackFaultHolds K.meaning objects tree fault.BadPack
        ↔ ((ops : NameValue) × NamesOps objects tree ops
        × ((text : List ℕ) × (blob_at objects ops ≡ Some text)
        × PackTextFault K.meaning VERSION text pack.BadPack)) }
    ensures bad_operation { (objects : Objects) (tree : NameValue) (index : ℕ)
        (why : OpFaultValue)
        → CommitPackFaultHolds K.meaning objects tree (fault.BadOperation index why)
        ↔ ((ops : NameValue) × NamesOps objects tree ops
        × ((text : List ℕ) × (blob_at objects ops ≡ Some text)
        × PackTextFault K.meaning VERSION text (pack.BadOperation index why))) }
    ensures too_large { (objects : Objects) (tree : NameValue) (count : ℕ)
        → CommitPackFaultHolds K.meaning objects tree (fault.TooLarge count)
        ↔ ((ops : NameValue) × NamesOps objects tree ops
        × ((text : List ℕ) × (blob_at objects ops ≡ Some text)
        × PackTextFault K.meaning VERSION text (pack.TooLarge count))) }
{}
