//! Laws of commits that are added to an entity, each the contract of a function that does nothing.
ghost use Rattle.std.specs.Prelude.{◌<◌, ◌^◌, ℕ, List, Option};
ghost use Rattle.std.specs.List.{AllByRecursion};
ghost use Rattle.gb_text.specs.Digits.{IsId, IsName};
ghost use Rattle.gb_text.specs.declared.id.Name.{Name as NameValue};
ghost use Rattle.gb_store.specs.Files.{History, files_of};
ghost use Rattle.gb_store.specs.Moments.{Wrote};
ghost use Rattle.git_object.specs.Grammar.{IsSortedForm};
ghost use Rattle.object_store.specs.Growth.{OnlyGrew};
ghost use Rattle.object_store.specs.Held.{Objects, objects_after};
ghost use Rattle.object_batch.specs.Batches.{AllStand, MayBePut};
ghost use Rattle.object_batch.specs.Needs.{PutsAfterNeeds};
ghost use Rattle.op_pack.specs.Heads.{tree_with};
ghost use Rattle.op_pack.specs.declared.pack.Pack.{Pack as PackValue};
ghost use Rattle.dag_entity.specs.Appending.{AreHeld, CanBeRead, MayBeAppended, after_append, appended_node, appended_objects, appended_tree};
ghost use Rattle.dag_entity.specs.Nodes.{IsNode};

use op_kind::OpKind;

/// If the four objects of a commit are stored, its name holds the commit with its parents and its
/// pack. So it is after they are put.
pub fn appended_commits_have_their_nodes<K: OpKind>()
    ensures stand { (objects : Objects) (parents : List NameValue) (pack : PackValue K) (now : ℕ)
        → MayBeAppended K.meaning pack → CanBeRead K.meaning pack → IsId pack.author
        → now < 2 ^ 64 → AllByRecursion IsName parents
        → AllStand objects (appended_objects K.meaning parents pack now)
        → IsNode K.meaning objects (appended_node K.meaning parents pack now) }
    ensures put { (folder : List ℕ) (parents : List NameValue) (pack : PackValue K) (now : ℕ)
        (old : History)
        → MayBeAppended K.meaning pack → CanBeRead K.meaning pack → IsId pack.author
        → now < 2 ^ 64 → AllByRecursion IsName parents
        → MayBePut folder (appended_objects K.meaning parents pack now) old
        → IsNode K.meaning
        (objects_after (after_append K.meaning folder parents pack now old) folder)
        (appended_node K.meaning parents pack now) }
    ensures kept { (folder : List ℕ) (parents : List NameValue) (pack : PackValue K) (now : ℕ)
        (old : History)
        → MayBePut folder (appended_objects K.meaning parents pack now) old
        → OnlyGrew (objects_after old folder)
        (objects_after (after_append K.meaning folder parents pack now old) folder) }
{}

/// If the parents are held, each object of a commit is put after everything that it names.
pub fn appended_commits_come_after_their_needs<K: OpKind>()
    ensures { (folder : List ℕ) (parents : List NameValue) (pack : PackValue K) (now : ℕ)
        (old : History)
        → MayBeAppended K.meaning pack → now < 2 ^ 64
        → AreHeld (objects_after old folder) parents
        → MayBePut folder (appended_objects K.meaning parents pack now) old
        → Wrote (PutsAfterNeeds folder (appended_objects K.meaning parents pack now)) old
        (after_append K.meaning folder parents pack now old) }
{}

/// The tree that is written is the one that `tree_for` makes, with its entries in the order of their
/// names. The names of parents that are held are names.
pub fn appended_parts_are_plain()
    ensures tree { (edit : ℕ) (create : Option ℕ) (ops : NameValue)
        → IsSortedForm (tree_with edit create ops) (appended_tree edit create ops) }
    ensures parents { (objects : Objects) (parents : List NameValue)
        → AreHeld objects parents → AllByRecursion IsName parents }
{}
