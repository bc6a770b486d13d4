//! Laws of what a bug is. No call of them does anything.
ghost use Rattle.std.specs.Prelude.{◌≡◌, ◌≢◌, ◌<◌, ◌^◌, ◌||◌, ◌&&◌, ℕ, length, true, false, not, List, [], ◌∷◌, ◌++◌};
ghost use Rattle.std.specs.List.{AllByRecursion};
ghost use Rattle.std.specs.List.Sorted.{IsStrictlySortedBy};
ghost use Rattle.std.specs.Option.{option_or, unwrap_or};
ghost use Rattle.gb_text.specs.declared.id.Id.{Id as IdValue};
ghost use Rattle.gb_text.specs.declared.id.Name.{Name as NameValue};
ghost use Rattle.op_kind.specs.Fold.{row_from, state_from};
ghost use Rattle.op_kind.specs.Pairs.{AreInKeyOrder};
ghost use Rattle.op_kind.specs.declared.place.Common.{Common as CommonValue};
ghost use Rattle.op_kind.specs.declared.place.Pair.{Pair as PairValue};
ghost use Rattle.bug_ops.specs.Kind.{bug_kind};
ghost use Rattle.bug_ops.specs.Mentions.{is_among, StandOnce};
ghost use Rattle.bug_ops.specs.Snapshots.{by_bytes, is_seen, one_more, with_person};
ghost use Rattle.bug_ops.specs.declared.op.BugOp.{BugOp as OpValue};
ghost use Rattle.bug_ops.specs.declared.op.BugOp.TheVariants.{AddComment, Create, SetTitle, SetStatus, EditComment};
ghost use Rattle.bug_ops.specs.declared.op.BugOp.TheVariants.{LabelChange, NoOp, SetMetadata};
ghost use Rattle.bug_ops.specs.declared.op.BugStatus.{BugStatus as StatusValue};
ghost use Rattle.bug_ops.specs.declared.op.BugStatus.TheVariants.{Opened};
ghost use Rattle.snapshot.specs.CommentEdits.{AreEdited};
ghost use Rattle.snapshot.specs.LastMention.{IsBugList, IsLater, snapshot_of};
ghost use Rattle.snapshot.specs.LastMention.{labels_of, label_is_on, each_once};
ghost use Rattle.snapshot.specs.LastMention.{first_of_each, first_value};

/// One operation more is one step of the fold.
pub fn one_more_operation_is_one_step()
    ensures { (ops : List OpValue) (op : OpValue) → IsBugList ops → IsLater op
        → bug_kind.state_after (snapshot_of ops) op ≡ snapshot_of (ops ++ op ∷ []) }
{}

/// More operations are followed by the row of a bug: it is the row before them, one step further for
/// each, in their order. They are those of a bug again.
pub fn more_operations_are_followed_by_the_row()
    ensures one { (ops : List OpValue) (op : OpValue) → IsBugList ops → IsLater op
        → bug_kind.row_after (snapshot_of ops).row op ≡ (snapshot_of (ops ++ op ∷ [])).row }
    ensures all { (ops more : List OpValue) → IsBugList ops → AllByRecursion IsLater more
        → row_from bug_kind (snapshot_of ops).row more ≡ (snapshot_of (ops ++ more)).row }
    ensures bug { (ops more : List OpValue) → IsBugList ops → AllByRecursion IsLater more
        → IsBugList (ops ++ more) }
{}

/// Folding the operations of a bug gives what they say by their last mentions.
pub fn snapshots_are_those_of_the_fold()
    ensures { (ops : List OpValue) → IsBugList ops
        → state_from bug_kind bug_kind.initial ops ≡ snapshot_of ops }
{}

/// A no-op changes nothing but who acted, and the clock and the time of the last operation.
pub fn a_no_op_changes_who_acted_and_when()
    ensures { (ops : List OpValue) (common : CommonValue) → IsBugList ops
        → let old = snapshot_of ops in
        let new = snapshot_of (ops ++ NoOp common ∷ []) in
        new ≡ record old {
          row = record old.row {
            actors = new.row.actors;
            edit = new.row.edit;
            last = new.row.last;
          };
        } }
{}

/// Operations are a bug's if the first may be first and satisfies its rules, and each other one may
/// follow. One that may follow can be added.
pub fn operations_that_keep_the_rules_are_a_bug()
    ensures read { (op : OpValue) (later : List OpValue) → bug_kind.is_opening op ≡ true
        → bug_kind.KeepsRules op
        → AllByRecursion (λ (o : OpValue). bug_kind.is_following o ≡ true) later
        → IsBugList (op ∷ later) }
    ensures more { (ops : List OpValue) (op : OpValue) → IsBugList ops
        → bug_kind.is_following op ≡ true → IsBugList (ops ++ op ∷ []) }
{}

/// The labels of a bug are the one list that ascends in byte order and has exactly the labels that
/// are on.
pub fn labels_are_those_that_are_on()
    ensures ascend { (ops : List OpValue) → IsStrictlySortedBy by_bytes (labels_of ops) }
    ensures same { (ops : List OpValue) (label : List ℕ)
        → is_among (labels_of ops) label ≡ label_is_on ops label }
    ensures only { (ops : List OpValue) (labels : List (List ℕ))
        → IsStrictlySortedBy by_bytes labels
        → ((label : List ℕ) → is_among labels label ≡ label_is_on ops label)
        → labels ≡ labels_of ops }
{}

/// The metadata of a bug ascends by key, with the first value that was set under each key.
pub fn metadata_have_the_first_value_of_each_key()
    ensures ascend { (pairs : List PairValue) → AreInKeyOrder (first_of_each pairs) }
    ensures same { (pairs : List PairValue) (key : List ℕ)
        → first_value (first_of_each pairs) key ≡ first_value pairs key }
    ensures begun { (op : OpValue) → IsBugList (op ∷ [])
        → (snapshot_of (op ∷ [])).row.metadata ≡ (bug_kind.common_of op).metadata }
    ensures set { (ops : List OpValue) (common : CommonValue) (pairs : List PairValue)
        (key : List ℕ) → IsBugList ops → let old = snapshot_of ops in
        first_value (snapshot_of (ops ++ SetMetadata common old.row.id pairs ∷ [])).row.metadata key
        ≡ option_or (first_value old.row.metadata key) (first_value pairs key) }
    ensures others { (ops : List OpValue) (common : CommonValue) (target : IdValue)
        (pairs : List PairValue) → IsBugList ops → target ≢ (snapshot_of ops).row.id
        → (snapshot_of (ops ++ SetMetadata common target pairs ∷ [])).row.metadata
        ≡ (snapshot_of ops).row.metadata }
{}

/// Each person is listed once, in the order of first appearance, and nobody else is.
pub fn persons_stand_once()
    ensures once { (ids : List IdValue) → StandOnce (each_once ids) }
    ensures same { (ids : List IdValue) (id : IdValue)
        → is_seen (each_once ids) id ≡ is_seen ids id }
    ensures last { (ids : List IdValue) (id : IdValue) → is_seen ids id ≡ false
        → each_once (ids ++ id ∷ []) ≡ each_once ids ++ id ∷ [] }
    ensures again { (ids : List IdValue) (id : IdValue) → is_seen ids id ≡ true
        → each_once (ids ++ id ∷ []) ≡ each_once ids }
{}

/// A bug has the title and the status that were set last.
pub fn what_was_set_last_holds()
    ensures title { (ops : List OpValue) (common : CommonValue) (title was : List ℕ)
        → IsBugList ops
        → (snapshot_of (ops ++ SetTitle common title was ∷ [])).row.title ≡ title }
    ensures status { (ops : List OpValue) (common : CommonValue) (status : StatusValue)
        → IsBugList ops
        → (snapshot_of (ops ++ SetStatus common status ∷ [])).row.status ≡ status }
{}

/// After an edit of a comment each comment keeps its place, id, author and time; only the target's
/// message changes. Nothing else changes but who acted, and the clock and the time of the last
/// operation.
pub fn edits_of_comments_reach_their_target()
    ensures comments { (ops : List OpValue) (common : CommonValue) (target : IdValue)
        (message : List ℕ) (files : List NameValue) → IsBugList ops
        → AreEdited target message (snapshot_of ops).list
        (snapshot_of (ops ++ EditComment common target message files ∷ [])).list }
    ensures rest { (ops : List OpValue) (common : CommonValue) (target : IdValue)
        (message : List ℕ) (files : List NameValue) → IsBugList ops
        → let old = snapshot_of ops in
        let new = snapshot_of (ops ++ EditComment common target message files ∷ []) in
        new ≡ record {
          row = record old.row {
            actors = new.row.actors;
            edit = new.row.edit;
            last = new.row.last;
          };
          list = new.list;
        } }
{}

/// The comments of fewer than 2^64 operations are counted exactly.
pub fn comments_are_counted()
    ensures { (ops : List OpValue) → length ops < 2 ^ 64
        → (snapshot_of ops).row.comments ≡ length (snapshot_of ops).list }
{}

/// The author of an operation has acted, whatever its type. The clock and the time of the last
/// operation are its own, also where it is an edit of a comment.
pub fn each_operation_tells_who_acted_and_when()
    ensures { (ops : List OpValue) (op : OpValue) → IsBugList ops → IsLater op
        → let old = (snapshot_of ops).row in
        let new = (snapshot_of (ops ++ op ∷ [])).row in
        let common = bug_kind.common_of op in
        (new.actors ≡ with_person old.actors common.place.author)
        × (new.edit ≡ common.place.edit) × (new.last ≡ common.time) }
{}

/// A comment comes after the others, whatever files and metadata it has. Its author takes part, and one
/// comment more is counted.
pub fn each_comment_is_added()
    ensures { (ops : List OpValue) (common : CommonValue) (message : List ℕ)
        (files : List NameValue) → IsBugList ops
        → let old = snapshot_of ops in
        let new = snapshot_of (ops ++ AddComment common message files ∷ []) in
        new ≡ record {
          row = record old.row {
            actors = new.row.actors;
            edit = new.row.edit;
            last = new.row.last;
            participants = with_person old.row.participants common.place.author;
            comments = one_more old.row.comments;
          };
          list = old.list ++ record {
            id = common.place.id;
            author = common.place.author;
            time = common.time;
            message = message;
          } ∷ [];
        } }
{}

/// A bug begins with a creation, with any files and metadata, and with no other operation. Each other
/// operation may follow.
pub fn all_but_a_creation_may_follow()
    ensures first { (common : CommonValue) (title message : List ℕ) (files : List NameValue)
        → bug_kind.is_opening (Create common title message files) ≡ true }
    ensures only { (op : OpValue) → bug_kind.is_opening op ≡ true
        → (common : CommonValue) × (title : List ℕ) × (message : List ℕ)
        × (files : List NameValue) × (op ≡ Create common title message files) }
    ensures follow { (op : OpValue) → bug_kind.is_following op ≡ not (bug_kind.is_opening op) }
{}

/// A bug of one creation, whatever files and metadata it has: its title, open, no label, its message as
/// the one comment, its author alone, its clocks, its time and its metadata.
pub fn a_creation_begins_a_bug()
    ensures { (common : CommonValue) (title message : List ℕ) (files : List NameValue)
        → IsBugList (Create common title message files ∷ [])
        → snapshot_of (Create common title message files ∷ []) ≡ record {
          row = record {
            id = common.place.id;
            title = title;
            status = Opened;
            labels = [];
            author = common.place.author;
            actors = common.place.author ∷ [];
            participants = common.place.author ∷ [];
            create = unwrap_or common.place.create 0;
            edit = common.place.edit;
            first = common.time;
            last = common.time;
            comments = 1;
            metadata = common.metadata;
          };
          list = record {
            id = common.place.id;
            author = common.place.author;
            time = common.time;
            message = message;
          } ∷ [];
        } }
{}

/// A title, a status, a change of labels and new metadata each change their own field, and beside it
/// only who acted and the clock and the time of the last operation, whoever wrote the operation. The
/// metadata that such an operation itself has are not those of the bug. A label is on after a change of
/// labels if and only if it is added or was on, and is not removed.
pub fn each_operation_changes_its_own_alone()
    ensures title { (ops : List OpValue) (common : CommonValue) (title was : List ℕ)
        → IsBugList ops → let old = snapshot_of ops in
        let new = snapshot_of (ops ++ SetTitle common title was ∷ []) in
        new ≡ record old {
          row = record old.row {
            actors = new.row.actors;
            edit = new.row.edit;
            last = new.row.last;
            title = title;
          };
        } }
    ensures status { (ops : List OpValue) (common : CommonValue) (status : StatusValue)
        → IsBugList ops → let old = snapshot_of ops in
        let new = snapshot_of (ops ++ SetStatus common status ∷ []) in
        new ≡ record old {
          row = record old.row {
            actors = new.row.actors;
            edit = new.row.edit;
            last = new.row.last;
            status = status;
          };
        } }
    ensures labels { (ops : List OpValue) (common : CommonValue) (added removed : List (List ℕ))
        → IsBugList ops → let old = snapshot_of ops in
        let new = snapshot_of (ops ++ LabelChange common added removed ∷ []) in
        new ≡ record old {
          row = record old.row {
            actors = new.row.actors;
            edit = new.row.edit;
            last = new.row.last;
            labels = new.row.labels;
          };
        } }
    ensures on { (ops : List OpValue) (common : CommonValue) (added removed : List (List ℕ))
        (label : List ℕ) → IsBugList ops
        → is_among (snapshot_of (ops ++ LabelChange common added removed ∷ [])).row.labels label
        ≡ ((is_among added label || is_among (snapshot_of ops).row.labels label)
        && not (is_among removed label)) }
    ensures metadata { (ops : List OpValue) (common : CommonValue) (target : IdValue)
        (pairs : List PairValue) → IsBugList ops → let old = snapshot_of ops in
        let new = snapshot_of (ops ++ SetMetadata common target pairs ∷ []) in
        new ≡ record old {
          row = record old.row {
            actors = new.row.actors;
            edit = new.row.edit;
            last = new.row.last;
            metadata = new.row.metadata;
          };
        } }
{}
