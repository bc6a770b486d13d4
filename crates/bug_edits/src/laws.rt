//! Laws of the edits of bugs, each the contract of a function that does nothing.
ghost use Rattle.std.specs.Prelude.{◌≡◌, ◌≢◌, [], ◌∷◌, ◌++◌, ◌||◌, ◌&&◌, true, not, List, ℕ, Some, Ok, Err};
ghost use Rattle.std.specs.List.{AllByRecursion};
ghost use Rattle.std.specs.List.Sorted.{IsStrictlySortedBy};
ghost use Rattle.std.specs.Option.{option_or};
ghost use Rattle.sha2.specs.Sha256.{sha256};
ghost use Rattle.gb_text.specs.Digits.{IsId};
ghost use Rattle.gb_text.specs.declared.id.Id.{Id as IdValue};
ghost use Rattle.gb_text.specs.declared.ruled.Message.{Message as MessageValue};
ghost use Rattle.gb_text.specs.declared.ruled.Title.{Title as TitleValue};
ghost use Rattle.op_kind.specs.declared.place.Common.{Common as CommonValue};
ghost use Rattle.op_kind.specs.declared.place.Place.{Place as PlaceValue};
ghost use Rattle.bug_ops.specs.Kind.{bug_kind};
ghost use Rattle.bug_ops.specs.Mentions.{is_among};
ghost use Rattle.bug_ops.specs.Snapshots.{by_bytes, one_more, with_person};
ghost use Rattle.bug_ops.specs.declared.op.BugOp.{BugOp as OpValue};
ghost use Rattle.bug_ops.specs.declared.op.BugOp.TheVariants.{LabelChange, SetTitle};
ghost use Rattle.bug_ops.specs.declared.op.BugStatus.{BugStatus as StatusValue};
ghost use Rattle.bug_ops.specs.declared.snapshot.Snapshot.{Snapshot as SnapshotValue};
ghost use Rattle.snapshot.specs.CommentEdits.{AreEdited};
ghost use Rattle.snapshot.specs.LastMention.{IsBugList, first_value, snapshot_of};
ghost use Rattle.bug_edits.specs.EditLaws.{with_op};
ghost use Rattle.bug_edits.specs.EditTable.{KeepsAllElse, edit_op, named_off, named_on, row_of};
ghost use Rattle.bug_edits.specs.NewOps.{IsOfTheMoment, create_op, edited_comment_op, nonce_from, texts_of};
ghost use Rattle.bug_edits.specs.declared.edit.BugEdit.{BugEdit as BugEditValue};
ghost use Rattle.bug_edits.specs.declared.edit.BugEdit.TheVariants as kind;
ghost use Rattle.bug_edits.specs.declared.edit.NoChange.{NoChange as NoChangeValue};
ghost use Rattle.bug_edits.specs.declared.moment.Moment.{Moment as MomentValue};

/// With the operation that an edit adds, a bug says what the edit's row claims: it has the title,
/// status, labels, comment or metadata that the edit's arguments ask for.
pub fn edits_say_what_they_change()
    ensures each { (moment : MomentValue) (ops : List OpValue) (op : OpValue) → IsBugList ops
        → (place : PlaceValue) (edit : BugEditValue)
        → edit_op moment edit (snapshot_of ops) ≡ Ok op
        → (row_of edit).Says moment place (snapshot_of ops) (with_op ops place op) }
    ensures title { (moment : MomentValue) (ops : List OpValue) (op : OpValue) → IsBugList ops
        → (place : PlaceValue) (title : TitleValue)
        → edit_op moment (kind.Title title) (snapshot_of ops) ≡ Ok op
        → (with_op ops place op).row.title ≡ title.text }
    ensures status { (moment : MomentValue) (ops : List OpValue) (op : OpValue) → IsBugList ops
        → (place : PlaceValue) (status : StatusValue)
        → edit_op moment (kind.Status status) (snapshot_of ops) ≡ Ok op
        → (with_op ops place op).row.status ≡ status }
    ensures added { (moment : MomentValue) (ops : List OpValue) (op : OpValue) → IsBugList ops
        → (place : PlaceValue) (labels : List TitleValue)
        → edit_op moment (kind.AddLabels labels) (snapshot_of ops) ≡ Ok op → (label : List ℕ)
        → is_among (with_op ops place op).row.labels label
        ≡ (is_among (texts_of labels) label || is_among (snapshot_of ops).row.labels label) }
    ensures removed { (moment : MomentValue) (ops : List OpValue) (op : OpValue) → IsBugList ops
        → (place : PlaceValue) (labels : List TitleValue)
        → edit_op moment (kind.RemoveLabels labels) (snapshot_of ops) ≡ Ok op → (label : List ℕ)
        → is_among (with_op ops place op).row.labels label
        ≡ (is_among (snapshot_of ops).row.labels label && not (is_among (texts_of labels) label)) }
    ensures comment { (moment : MomentValue) (ops : List OpValue) (op : OpValue) → IsBugList ops
        → (place : PlaceValue) (message : MessageValue)
        → edit_op moment (kind.Comment message) (snapshot_of ops) ≡ Ok op
        → (with_op ops place op).list ≡ (snapshot_of ops).list ++ record {
          id = place.id;
          author = place.author;
          time = moment.now;
          message = message.text;
        } ∷ [] }
    ensures metadata { (moment : MomentValue) (ops : List OpValue) (op : OpValue) → IsBugList ops
        → (place : PlaceValue) (key : TitleValue) (value : MessageValue)
        → edit_op moment (kind.Metadata key value) (snapshot_of ops) ≡ Ok op → (other : List ℕ)
        → first_value (with_op ops place op).row.metadata other
        ≡ option_or (first_value (snapshot_of ops).row.metadata other)
        (first_value (record { key = key.text; value = value.text } ∷ []) other) }
{}

/// What an edit does not mention stays as it was. Only who acted, and the clock and the time of the
/// last operation, follow every edit.
pub fn edits_keep_all_else()
    ensures { (moment : MomentValue) (ops : List OpValue) (op : OpValue) → IsBugList ops
        → (place : PlaceValue) (edit : BugEditValue)
        → edit_op moment edit (snapshot_of ops) ≡ Ok op
        → KeepsAllElse (row_of edit) (snapshot_of ops) (with_op ops place op) }
{}

/// After an edit its author is last among those who acted, unless already listed, and the last clock and
/// time are the edit's. The author of a comment is so last among those who took part, and one comment
/// more is counted.
pub fn edits_tell_who_acted_and_when()
    ensures acted { (moment : MomentValue) (ops : List OpValue) (op : OpValue) → IsBugList ops
        → (place : PlaceValue) (edit : BugEditValue)
        → edit_op moment edit (snapshot_of ops) ≡ Ok op
        → let old = (snapshot_of ops).row in
        let new = (with_op ops place op).row in
        (new.actors ≡ with_person old.actors place.author) × (new.edit ≡ place.edit)
        × (new.last ≡ moment.now) }
    ensures took_part { (moment : MomentValue) (ops : List OpValue) (op : OpValue) → IsBugList ops
        → (place : PlaceValue) (message : MessageValue)
        → edit_op moment (kind.Comment message) (snapshot_of ops) ≡ Ok op
        → let old = (snapshot_of ops).row in
        let new = (with_op ops place op).row in
        (new.participants ≡ with_person old.participants place.author)
        × (new.comments ≡ one_more old.comments) }
{}

/// An edit of labels or status adds no operation, for a reason that the bug gives, exactly when it would
/// change nothing. Any other edit always adds one.
pub fn edits_that_change_nothing_are_refused()
    ensures refused { (moment : MomentValue) (edit : BugEditValue) (bug : SnapshotValue)
        (why : NoChangeValue) → (row_of edit).ChangesNothing why bug
        → edit_op moment edit bug ≡ Err why }
    ensures only { (moment : MomentValue) (edit : BugEditValue) (bug : SnapshotValue)
        (why : NoChangeValue) → edit_op moment edit bug ≡ Err why
        → (row_of edit).ChangesNothing why bug }
{}

/// Labels that change ascend in byte order, each once.
pub fn changed_labels_ascend()
    ensures put_on { (on named : List (List ℕ))
        → IsStrictlySortedBy by_bytes (named_off on named) }
    ensures taken_off { (on named : List (List ℕ))
        → IsStrictlySortedBy by_bytes (named_on on named) }
{}

/// An edit of labels writes exactly the labels that it changes.
pub fn labels_that_change_are_written()
    ensures adds { (moment : MomentValue) (labels : List TitleValue) (bug : SnapshotValue)
        (op : OpValue) → edit_op moment (kind.AddLabels labels) bug ≡ Ok op
        → (common : CommonValue)
        × (op ≡ LabelChange common (named_off bug.row.labels (texts_of labels)) []) }
    ensures takes { (moment : MomentValue) (labels : List TitleValue) (bug : SnapshotValue)
        (op : OpValue) → edit_op moment (kind.RemoveLabels labels) bug ≡ Ok op
        → (common : CommonValue)
        × (op ≡ LabelChange common [] (named_on bug.row.labels (texts_of labels))) }
    ensures off { (on named : List (List ℕ)) (label : List ℕ)
        → is_among (named_off on named) label ≡ (not (is_among on label) && is_among named label) }
    ensures on { (on named : List (List ℕ)) (label : List ℕ)
        → is_among (named_on on named) label ≡ (is_among on label && is_among named label) }
{}

/// An operation that a command makes has the command's time and seed, and neither metadata of its own
/// nor files. A title's names the title that the bug had. Unlike seeds give unlike nonces, but for two
/// texts with one SHA-256.
pub fn operations_are_made_anew()
    ensures added { (moment : MomentValue) (edit : BugEditValue) (bug : SnapshotValue)
        (op : OpValue) → edit_op moment edit bug ≡ Ok op → IsOfTheMoment moment op }
    ensures begun { (moment : MomentValue) (title : TitleValue) (message : MessageValue)
        → IsOfTheMoment moment (create_op moment title message) }
    ensures before { (moment : MomentValue) (title : TitleValue) (bug : SnapshotValue)
        (op : OpValue) → edit_op moment (kind.Title title) bug ≡ Ok op
        → (common : CommonValue) × (op ≡ SetTitle common title.text bug.row.title) }
    ensures nonces { (one other : List ℕ) → one ≢ other → nonce_from one ≡ nonce_from other
        → (text : List ℕ) × (second : List ℕ) × (text ≢ second)
        × (sha256 text ≡ sha256 second) }
{}

/// With an edit of a comment, the comment with this id has the message, and each other is as it was.
/// Nothing else changes but who acted, and the clock and the time of the last operation. The operation has
/// the command's time and seed, and neither metadata of its own nor files; it may follow others, and
/// satisfies the rules if the id is 32 bytes.
pub fn edited_comments_have_the_message()
    ensures comments { (moment : MomentValue) (ops : List OpValue) (place : PlaceValue)
        (comment : IdValue) (message : MessageValue) → IsBugList ops
        → AreEdited comment message.text (snapshot_of ops).list
        (with_op ops place (edited_comment_op moment comment message)).list }
    ensures rest { (moment : MomentValue) (ops : List OpValue) (place : PlaceValue)
        (comment : IdValue) (message : MessageValue) → IsBugList ops
        → (with_op ops place (edited_comment_op moment comment message)).row
        ≡ record (snapshot_of ops).row {
          actors = with_person (snapshot_of ops).row.actors place.author;
          edit = place.edit;
          last = moment.now;
        } }
    ensures anew { (moment : MomentValue) (comment : IdValue) (message : MessageValue)
        → IsOfTheMoment moment (edited_comment_op moment comment message) }
    ensures follows { (moment : MomentValue) (comment : IdValue) (message : MessageValue)
        → bug_kind.is_following (edited_comment_op moment comment message) ≡ true }
    ensures rules { (moment : MomentValue) (comment : IdValue) (message : MessageValue)
        → IsId comment → bug_kind.KeepsRules (edited_comment_op moment comment message) }
{}

/// An operation that a command makes satisfies the rules of bugs' operations, if those of the bug do and
/// its id is 32 bytes. One that begins a bug always does. One that an edit adds may follow others.
pub fn operations_keep_the_rules()
    ensures added { (moment : MomentValue) (edit : BugEditValue) (ops : List OpValue)
        (op : OpValue) → AllByRecursion (λ (o : OpValue). bug_kind.KeepsRules o) ops
        → IsId (snapshot_of ops).row.id → edit_op moment edit (snapshot_of ops) ≡ Ok op
        → bug_kind.KeepsRules op }
    ensures begun { (moment : MomentValue) (title : TitleValue) (message : MessageValue)
        → bug_kind.KeepsRules (create_op moment title message) }
    ensures follows { (moment : MomentValue) (edit : BugEditValue) (bug : SnapshotValue)
        (op : OpValue) → edit_op moment edit bug ≡ Ok op → bug_kind.is_following op ≡ true }
{}
