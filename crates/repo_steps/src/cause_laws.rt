//! Laws of what each refusal says, and of the heads that a command sets, each the contract of a
//! function that does nothing.
ghost use Rattle.std.specs.Prelude.{◌≡◌, ◌≤◌, ◌+◌, List, ℕ, length, None, Ok, All, IsTrue, Contains, Result};
ghost use Rattle.gb_text.specs.Digits.{IsId};
ghost use Rattle.gb_text.specs.declared.id.Id.{Id};
ghost use Rattle.gb_text.specs.declared.id.Name.{Name};
ghost use Rattle.gb_store.specs.Files.{History, files_of};
ghost use Rattle.gb_store.specs.declared.store.Change.{Change as ChangeValue};
ghost use Rattle.gb_store.specs.Moments.{AllMoments};
ghost use Rattle.object_batch.specs.Batches.{CannotHave, HasLong};
ghost use Rattle.gb_text.specs.declared.decimal.TheConstants.{GREATEST_TIME};
ghost use Rattle.commit_walk.specs.declared.below.TheConstants.{MOST_COMMITS};
ghost use Rattle.object_store.specs.Texts.{IsShort};
ghost use Rattle.object_store.specs.declared.read.TheConstants.{MOST_BYTES};
ghost use Rattle.bug_ops.specs.Kind.{bug_kind};
ghost use Rattle.bug_ops.specs.declared.op.BugOp.{BugOp as OpValue};
ghost use Rattle.dag_entity.specs.Entities.{ops_in};
ghost use Rattle.repo_state.specs.Sides.{has_ref};
ghost use Rattle.repo_state.specs.Users.{BadUser, NoUser, User, user_at};
ghost use Rattle.repo_steps.specs.declared.env.Env.{Env as EnvValue};
ghost use Rattle.repo_steps.specs.declared.refusal.Refusal.TheVariants as refusal;
ghost use Rattle.repo_steps.specs.declared.refusal.Stop.{Stop as StopValue};
ghost use Rattle.repo_state.specs.declared.side.Side.TheVariants as side;
ghost use Rattle.repo_steps.specs.BugDoings.{HasBug, HasCommented, bug_says, comment_growth, edit_growth, longer_bug, new_bug, op_ids};
ghost use Rattle.repo_steps.specs.Checks.{FirstFails};
ghost use Rattle.repo_steps.specs.Doings.{EditAnswers, Refused, doing_of};
ghost use Rattle.repo_steps.specs.Picked.{Picked};
ghost use Rattle.repo_steps.specs.PeopleDoings.{new_made, new_user};
ghost use Rattle.repo_steps.specs.Own.{IsOwn};
ghost use Rattle.repo_steps.specs.Writes.{IsOldOrSet, IsWriteOf};
ghost use Rattle.bug_edits.specs.declared.edit.BugEdit.{BugEdit as BugEditValue};
ghost use Rattle.words.specs.declared.edit.Edit.{Edit as EditValue};
ghost use Rattle.words.specs.declared.edit.Edit.TheVariants.{New, OfBug, OfComment, UserEdit, UserNew};
ghost use Rattle.bug_edits.specs.EditTable.{edit_op};
ghost use Rattle.bug_edits.specs.NewOps.{create_op, edited_comment_op, op_id};
ghost use Rattle.gb_text.specs.declared.ruled.Line.{Line};
ghost use Rattle.gb_text.specs.declared.ruled.Message.{Message};
ghost use Rattle.gb_text.specs.declared.ruled.Title.{Title};

/// What is so where a command is refused. `no user`: no user file exists. `entity exists`: a ref of the
/// id that the new person or bug has exists. `repeated operation`: an operation of the bug has the id
/// that is reported. `name taken`: an object that the command makes cannot have that name. `too large`
/// by bytes: an object that the command makes is too long.
pub fn refusals_have_their_causes()
    ensures no_user { (env : EnvValue) (command : EditValue) (old : History)
        → Refused env command old refusal.NoUser
        → user_at (files_of old) env.folder ≡ NoUser }
    ensures person { (env : EnvValue) (old : History) (name : Title) (email : Line) (id : Id)
        → Refused env (UserNew name email) old (refusal.EntityExists id)
        → (id ≡ (new_made env name email None).id)
        × IsTrue (has_ref (files_of old) env.folder side.Identities id) }
    ensures bug { (env : EnvValue) (old : History) (title : Title) (message : Message) (id : Id)
        → Refused env (New title message) old (refusal.EntityExists id)
        → (id ≡ op_id (create_op env.moment title message))
        × IsTrue (has_ref (files_of old) env.folder side.Bugs id) }
    ensures operation { (env : EnvValue) (old : History) (edit : BugEditValue) (word : List ℕ)
        (id : Id) → Refused env (OfBug word edit) old (refusal.RepeatedOperation id)
        → (bug : HasBug env.folder (files_of old) word)
        × Contains (op_ids (ops_in bug_kind bug.entity.packs)) id }
    ensures comment { (env : EnvValue) (old : History) (message : Message) (word : List ℕ)
        (id : Id) → Refused env (OfComment word message) old (refusal.RepeatedOperation id)
        → (comment : Id) × (bug : HasCommented env.folder (files_of old) word comment)
        × Contains (op_ids (ops_in bug_kind bug.entity.packs)) id }
    ensures name { (env : EnvValue) (command : EditValue) (picked : Picked) (old : History)
        (name : Name)
        → FirstFails (doing_of env command picked old).checks (refusal.NameTaken name)
        → CannotHave env.folder (doing_of env command picked old).objects old name }
    ensures size { (env : EnvValue) (command : EditValue) (picked : Picked) (old : History)
        → FirstFails (doing_of env command picked old).checks
        (refusal.TooLarge (MOST_BYTES + 1))
        → HasLong (doing_of env command picked old).objects }
{}

/// The other way: a command is refused for a cause wherever all checks before it pass. Without a user no
/// version is added, no bug begins and no bug gets an edit. A new person or a new bug is refused where
/// one of its objects is too large, or else a ref of its id exists. An edit of a bug that has room, or of
/// a comment of one, is refused where one of its objects is too large, or else the bug has the operation, or else a name of an
/// object is taken.
pub fn causes_refuse()
    ensures user_for_a_version { (env : EnvValue) (old : History) (name : Title) (email : Line)
        → user_at (files_of old) env.folder ≡ NoUser
        → Refused env (UserEdit name email) old refusal.NoUser }
    ensures user_for_a_bug { (env : EnvValue) (old : History) (title : Title) (message : Message)
        → user_at (files_of old) env.folder ≡ NoUser
        → Refused env (New title message) old refusal.NoUser }
    ensures user_for_an_edit { (env : EnvValue) (old : History) (edit : BugEditValue)
        (word : List ℕ)
        → user_at (files_of old) env.folder ≡ NoUser
        → Refused env (OfBug word edit) old refusal.NoUser }
    ensures user_for_a_comment { (env : EnvValue) (old : History) (message : Message)
        (word : List ℕ)
        → user_at (files_of old) env.folder ≡ NoUser
        → Refused env (OfComment word message) old refusal.NoUser }
    ensures person { (env : EnvValue) (old : History) (name : Title) (email : Line)
        → (user_at (files_of old) env.folder ≡ BadUser → ⊥)
        → let objects = (new_user env name email old).objects in
        let id = (new_made env name email None).id in
        (HasLong objects
        → Refused env (UserNew name email) old (refusal.TooLarge (MOST_BYTES + 1)))
        × (All IsShort objects → IsTrue (has_ref (files_of old) env.folder side.Identities id)
        → Refused env (UserNew name email) old (refusal.EntityExists id)) }
    ensures bug { (env : EnvValue) (old : History) (title : Title) (message : Message) (user : Id)
        → user_at (files_of old) env.folder ≡ User user
        → let objects = (new_bug env title message old).objects in
        let id = op_id (create_op env.moment title message) in
        (HasLong objects → Refused env (New title message) old (refusal.TooLarge (MOST_BYTES + 1)))
        × (All IsShort objects → IsTrue (has_ref (files_of old) env.folder side.Bugs id)
        → Refused env (New title message) old (refusal.EntityExists id)) }
    ensures edit { (env : EnvValue) (old : History) (edit : BugEditValue) (word : List ℕ)
        (user : Id)
        → user_at (files_of old) env.folder ≡ User user
        → (bug : HasBug env.folder (files_of old) word) (op : OpValue)
        → edit_op env.moment edit (bug_says bug.entity) ≡ Ok op
        → (bug.entity.edit ≡ GREATEST_TIME → ⊥) → (MOST_COMMITS ≤ length bug.entity.packs → ⊥)
        → let objects = (longer_bug env (edit_growth env edit word) bug.bug op old).objects in
        let has = Contains (op_ids (ops_in bug_kind bug.entity.packs)) (op_id op) in
        (HasLong objects
        → Refused env (OfBug word edit) old (refusal.TooLarge (MOST_BYTES + 1)))
        × (All IsShort objects → has
        → Refused env (OfBug word edit) old (refusal.RepeatedOperation (op_id op)))
        × (All IsShort objects → (has → ⊥) → (name : Name)
        → CannotHave env.folder objects old name
        → Refused env (OfBug word edit) old (refusal.NameTaken name)) }
    ensures message { (env : EnvValue) (old : History) (message : Message) (word : List ℕ)
        (user comment : Id)
        → user_at (files_of old) env.folder ≡ User user
        → (bug : HasCommented env.folder (files_of old) word comment)
        → (bug.entity.edit ≡ GREATEST_TIME → ⊥) → (MOST_COMMITS ≤ length bug.entity.packs → ⊥)
        → let op = edited_comment_op env.moment comment message in
        let growth = comment_growth env message word comment in
        let objects = (longer_bug env growth bug.bug op old).objects in
        let has = Contains (op_ids (ops_in bug_kind bug.entity.packs)) (op_id op) in
        (HasLong objects
        → Refused env (OfComment word message) old (refusal.TooLarge (MOST_BYTES + 1)))
        × (All IsShort objects → has
        → Refused env (OfComment word message) old (refusal.RepeatedOperation (op_id op)))
        × (All IsShort objects → (has → ⊥) → (name : Name)
        → CannotHave env.folder objects old name
        → Refused env (OfComment word message) old (refusal.NameTaken name)) }
{}

/// At each moment of a command the ref of each identity, and of each bug, has the head that it had when
/// the command began, or one that the command sets.
pub fn heads_are_old_or_set()
    ensures identities { (env : EnvValue) (command : EditValue) (old new : History)
        (result : Result Id StopValue) → EditAnswers env command old new result
        → (id : Id) → IsId id → AllMoments (IsOldOrSet env command old side.Identities id) old new }
    ensures bugs { (env : EnvValue) (command : EditValue) (old new : History)
        (result : Result Id StopValue) → EditAnswers env command old new result
        → (id : Id) → IsId id → AllMoments (IsOldOrSet env command old side.Bugs id) old new }
{}

/// What the writes of a command are: an object whose text it makes; the head that it sets, which is a
/// first version, a root, or a commit whose one parent is the present head; a clock that has seen the
/// one that the pack of its commit has; or the user whose id it reports.
pub fn writes_are_what_their_command_makes()
    ensures { (env : EnvValue) (command : EditValue) (entry : History) (earlier : List ChangeValue)
        (change : ChangeValue) (write : IsWriteOf env command entry earlier change)
        → IsOwn env (doing_of env command write.picked entry) entry change }
{}
