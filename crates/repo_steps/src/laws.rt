//! Laws of the commands that edit, each the contract of a function that does nothing.
ghost use Rattle.std.specs.Prelude.{◌≡◌, ◌≢◌, ◌≤◌, ◌<◌, ◌+◌, length, [], ◌∷◌, ◌++◌, List, ℕ, Some, Result, Ok};
ghost use Rattle.bug_ops.specs.declared.op.BugOp.{BugOp as OpValue};
ghost use Rattle.bug_edits.specs.declared.edit.BugEdit.{BugEdit as BugEditValue};
ghost use Rattle.gb_text.specs.declared.decimal.TheConstants.{GREATEST_TIME};
ghost use Rattle.gb_text.specs.declared.id.Id.{Id};
ghost use Rattle.gb_text.specs.declared.id.Name.{Name};
ghost use Rattle.gb_store.specs.Files.{Files, History, files_of};
ghost use Rattle.gb_store.specs.Moments.{Wrote, WroteBy};
ghost use Rattle.gb_store.specs.declared.store.Change.{Change};
ghost use Rattle.object_store.specs.Held.{objects_in};
ghost use Rattle.ref_store.specs.Refs.{Head};
ghost use Rattle.repo_state.specs.Clocks.{clock_at, clock_write};
ghost use Rattle.repo_state.specs.Comments.{FindsComment, FindsNoComment};
ghost use Rattle.repo_state.specs.Finds.{Finds, Many, Nothing};
ghost use Rattle.repo_state.specs.Sides.{head_at};
ghost use Rattle.repo_state.specs.Sound.{IsSound};
ghost use Rattle.repo_state.specs.declared.stop.Missed.{Missed as MissedValue};
ghost use Rattle.repo_steps.specs.Stops.{number_of, of_missed};
ghost use Rattle.repo_state.specs.Users.{User, user_at};
ghost use Rattle.repo_state.specs.declared.clocks.ClockFile.{ClockFile as ClockFileValue};
ghost use Rattle.repo_state.specs.declared.clocks.ClockFile.TheVariants as file;
ghost use Rattle.lamport.specs.declared.clock.TheConstants.{CAP};
ghost use Rattle.commit_walk.specs.declared.below.TheConstants.{MOST_COMMITS};
ghost use Rattle.dag_entity.specs.Nodes.{edit_at};
ghost use Rattle.repo_steps.specs.declared.env.Env.{Env as EnvValue};
ghost use Rattle.repo_steps.specs.declared.refusal.Refusal.{Refusal as RefusalValue};
ghost use Rattle.repo_steps.specs.declared.refusal.Refusal.TheVariants as refusal;
ghost use Rattle.repo_steps.specs.declared.refusal.Stop.{Stop as StopValue};
ghost use Rattle.repo_state.specs.declared.side.Side.{Side as SideValue};
ghost use Rattle.repo_state.specs.declared.side.Side.TheVariants as side;
ghost use Rattle.repo_steps.specs.Checks.{FirstFails};
ghost use Rattle.repo_steps.specs.Ranks.{SomeFails, rank_of};
ghost use Rattle.repo_steps.specs.Doings.{Done, EditAnswers, MayStep, Refused, doing_of};
ghost use Rattle.repo_steps.specs.Writes.{IsWriteOf};
ghost use Rattle.repo_writes.specs.Kinds.{IsWrite};
ghost use Rattle.repo_steps.specs.Steps.{BugBegins, BugGrows, Steps};
ghost use Rattle.repo_steps.specs.BugDoings.{HasBug, HasCommented, bug_says, comment_growth, edit_growth};
ghost use Rattle.repo_steps.specs.Grown.{EndsWithTheEdit, begun_says};
ghost use Rattle.repo_steps.specs.Picked.{Picked};
ghost use Rattle.repo_state.specs.Bugs.{IsBug};
ghost use Rattle.repo_state.specs.declared.comments.CommentEntry.{CommentEntry as CommentEntryValue};
ghost use Rattle.repo_state.specs.declared.side.HeadEntry.{HeadEntry as HeadEntryValue};
ghost use Rattle.snapshot.specs.CommentEdits.{AreEdited};
ghost use Rattle.dag_entity.specs.declared.entity.Entity.{Entity as EntityValue};
ghost use Rattle.words.specs.declared.edit.Edit.{Edit as EditValue};
ghost use Rattle.words.specs.declared.edit.Edit.TheVariants.{New, OfBug, OfComment, UserSet};
ghost use Rattle.bug_edits.specs.EditTable.{edit_op};
ghost use Rattle.bug_edits.specs.NewOps.{create_op};
ghost use Rattle.gb_text.specs.declared.ruled.Message.{Message};
ghost use Rattle.gb_text.specs.declared.ruled.Title.{Title};

/// Whatever a command answers, each of its writes is of one of the six kinds when it is made.
pub fn edits_write_by_kinds()
    ensures { (env : EnvValue) (command : EditValue) (old new : History)
        (result : Result Id StopValue)
        → EditAnswers env command old new result
        → Wrote (IsWrite env.folder) old new }
{}

/// Whatever a command answers, each of its writes is the next of those that it computes from the files
/// at entry, where every check of it passes, and is of a kind at its moment. So a call puts no object,
/// sets no head and raises no clock but its own, in its own order.
pub fn edits_write_their_own()
    ensures { (env : EnvValue) (command : EditValue) (old new : History)
        (result : Result Id StopValue)
        → EditAnswers env command old new result
        → WroteBy (IsWriteOf env command) old new }
{}

/// A done command has made its step and returned the step's id.
pub fn done_edits_make_their_step()
    ensures { (env : EnvValue) (command : EditValue) (old new : History) (id : Id)
        → Done env command old new id
        → Steps env command (files_of old) (files_of new) id }
{}

/// A command whose argument finds no bug, no person or no comment is refused for that, after the checks
/// that come first; and so it is where the argument finds several, with the two least.
pub fn words_that_find_not_one_are_refused()
    ensures bugs { (env : EnvValue) (edit : BugEditValue) (word : List ℕ) (old : History)
        (user : Id)
        → user_at (files_of old) env.folder ≡ User user
        → Finds (files_of old) env.folder side.Bugs word Nothing
        → Refused env (OfBug word edit) old refusal.NotFound }
    ensures persons { (env : EnvValue) (word : List ℕ) (old : History)
        → Finds (files_of old) env.folder side.Identities word Nothing
        → Refused env (UserSet word) old refusal.NotFound }
    ensures several_bugs { (env : EnvValue) (edit : BugEditValue) (word : List ℕ) (old : History)
        (user least next : Id)
        → user_at (files_of old) env.folder ≡ User user
        → Finds (files_of old) env.folder side.Bugs word (Many least next)
        → Refused env (OfBug word edit) old (refusal.Ambiguous least next) }
    ensures several_persons { (env : EnvValue) (word : List ℕ) (old : History) (least next : Id)
        → Finds (files_of old) env.folder side.Identities word (Many least next)
        → Refused env (UserSet word) old (refusal.Ambiguous least next) }
    ensures comments { (env : EnvValue) (message : Message) (word : List ℕ) (old : History)
        (user : Id) (why : MissedValue)
        → user_at (files_of old) env.folder ≡ User user
        → FindsNoComment (files_of old) env.folder word why
        → Refused env (OfComment word message) old (of_missed why) }
{}

/// An edit is refused for a full clock only if the head has the last edit clock, and for too many
/// commits only if the bug has the most. Where its words keep their rules, there is a user and it adds
/// an operation, it is refused so wherever one or the other is so, for the clock where both are.
pub fn full_bugs_are_refused()
    ensures clock_only { (env : EnvValue) (edit : BugEditValue) (word : List ℕ) (old : History)
        (name : Name) → Refused env (OfBug word edit) old (refusal.ClockFull name)
        → (bug : HasBug env.folder (files_of old) word) × (name ≡ bug.bug.name)
        × (edit_at (objects_in (files_of old) env.folder) bug.bug.name ≡ Some GREATEST_TIME) }
    ensures commits_only { (env : EnvValue) (edit : BugEditValue) (word : List ℕ) (old : History)
        → Refused env (OfBug word edit) old (refusal.TooLarge (MOST_COMMITS + 1))
        → (bug : HasBug env.folder (files_of old) word) × (MOST_COMMITS ≤ length bug.entity.packs) }
    ensures clock { (env : EnvValue) (edit : BugEditValue) (word : List ℕ) (old : History)
        (user : Id)
        → user_at (files_of old) env.folder ≡ User user
        → (bug : HasBug env.folder (files_of old) word) (op : OpValue)
        → edit_op env.moment edit (bug_says bug.entity) ≡ Ok op
        → edit_at (objects_in (files_of old) env.folder) bug.bug.name ≡ Some GREATEST_TIME
        → Refused env (OfBug word edit) old (refusal.ClockFull bug.bug.name) }
    ensures commits { (env : EnvValue) (edit : BugEditValue) (word : List ℕ) (old : History)
        (user : Id)
        → user_at (files_of old) env.folder ≡ User user
        → (bug : HasBug env.folder (files_of old) word) (op : OpValue)
        → edit_op env.moment edit (bug_says bug.entity) ≡ Ok op
        → edit_at (objects_in (files_of old) env.folder) bug.bug.name ≢ Some GREATEST_TIME
        → MOST_COMMITS ≤ length bug.entity.packs
        → Refused env (OfBug word edit) old (refusal.TooLarge (MOST_COMMITS + 1)) }
    ensures comment_clock_only { (env : EnvValue) (message : Message) (word : List ℕ)
        (old : History) (name : Name)
        → Refused env (OfComment word message) old (refusal.ClockFull name)
        → (comment : Id) × (bug : HasCommented env.folder (files_of old) word comment)
        × (name ≡ bug.bug.name)
        × (edit_at (objects_in (files_of old) env.folder) bug.bug.name ≡ Some GREATEST_TIME) }
    ensures comment_commits_only { (env : EnvValue) (message : Message) (word : List ℕ)
        (old : History)
        → Refused env (OfComment word message) old (refusal.TooLarge (MOST_COMMITS + 1))
        → (comment : Id) × (bug : HasCommented env.folder (files_of old) word comment)
        × (MOST_COMMITS ≤ length bug.entity.packs) }
    ensures comment_clock { (env : EnvValue) (message : Message) (word : List ℕ) (old : History)
        (user comment : Id)
        → user_at (files_of old) env.folder ≡ User user
        → (bug : HasCommented env.folder (files_of old) word comment)
        → edit_at (objects_in (files_of old) env.folder) bug.bug.name ≡ Some GREATEST_TIME
        → Refused env (OfComment word message) old (refusal.ClockFull bug.bug.name) }
    ensures comment_commits { (env : EnvValue) (message : Message) (word : List ℕ) (old : History)
        (user comment : Id)
        → user_at (files_of old) env.folder ≡ User user
        → (bug : HasCommented env.folder (files_of old) word comment)
        → edit_at (objects_in (files_of old) env.folder) bug.bug.name ≢ Some GREATEST_TIME
        → MOST_COMMITS ≤ length bug.entity.packs
        → Refused env (OfComment word message) old (refusal.TooLarge (MOST_COMMITS + 1)) }
{}

/// The last writes of `new` are the create clock and then the edit clock, each one higher, if neither
/// is at its cap.
pub fn create_clocks_are_written_first()
    ensures { (env : EnvValue) (title : Title) (message : Message) (picked : Picked)
        (old : History) (user : Id)
        → user_at (files_of old) env.folder ≡ User user
        → clock_at (files_of old) env.folder file.BugsCreate < CAP
        → clock_at (files_of old) env.folder file.BugsEdit < CAP
        → let create = clock_at (files_of old) env.folder file.BugsCreate in
        let edit = clock_at (files_of old) env.folder file.BugsEdit in
        (before : List Change) × ((doing_of env (New title message) picked old).writes
        ≡ before ++ clock_write env.folder file.BugsCreate (create + 1)
        ∷ clock_write env.folder file.BugsEdit (edit + 1) ∷ []) }
{}

/// Read back after an edit, the bug says what it said before with the edit's operation after all
/// others. A new bug says its title, its message and who made it when, and nothing else.
pub fn written_bugs_are_read_so()
    ensures grown { (env : EnvValue) (edit : BugEditValue) (word : List ℕ) (old new : Files)
        (told : Id) (step : BugGrows env (edit_growth env edit word) old new told)
        (now : HasBug env.folder new word)
        → EndsWithTheEdit env (edit_growth env edit word) old new told step now.entity }
    ensures edited { (env : EnvValue) (message : Message) (word : List ℕ) (comment : Id)
        (old new : Files) (told : Id)
        (step : BugGrows env (comment_growth env message word comment) old new told)
        (bug : HeadEntryValue) (entity : EntityValue OpValue) → bug.id ≡ step.bug.bug.id
        → head_at new env.folder side.Bugs bug.id ≡ Head bug.name
        → IsBug new env.folder bug entity
        → EndsWithTheEdit env (comment_growth env message word comment) old new told step entity }
    ensures begun { (env : EnvValue) (title : Title) (message : Message) (old new : Files)
        (told : Id)
        (step : BugBegins env (create_op env.moment title message) old new told) (bug : HeadEntryValue)
        (entity : EntityValue OpValue) → bug.id ≡ told
        → head_at new env.folder side.Bugs told ≡ Head bug.name
        → IsBug new env.folder bug entity
        → bug_says entity ≡ begun_says env old title message step.user told }
{}

/// Read back after another message was given to a comment, the comment that the argument found has the
/// message, and each other comment of the bug is as it was.
pub fn edited_comments_are_read_so()
    ensures { (env : EnvValue) (message : Message) (word : List ℕ) (old new : Files) (told : Id)
        → Steps env (OfComment word message) old new told
        → (found : CommentEntryValue) × FindsComment old env.folder word found
        × ((bug : HeadEntryValue) (entity : EntityValue OpValue) → bug.id ≡ found.bug.id
        → head_at new env.folder side.Bugs bug.id ≡ Head bug.name
        → IsBug new env.folder bug entity
        → (before : EntityValue OpValue) × IsBug old env.folder found.bug before
        × AreEdited found.comment message.text (bug_says before).list (bug_says entity).list) }
{}

/// A command that may be done has no refusal, and a refused command has one number of refusal. So a
/// refusal comes exactly where its reason holds and no earlier one does.
pub fn refusals_are_determined()
    ensures done { (env : EnvValue) (command : EditValue) (old : History) (refusal : RefusalValue)
        → MayStep env command old → Refused env command old refusal → ⊥ }
    ensures one { (env : EnvValue) (command : EditValue) (old : History)
        (first second : RefusalValue)
        → Refused env command old first → Refused env command old second
        → number_of first ≡ number_of second }
{}

/// Of the causes that hold, one that comes first in the order of refusals is reported. Damage is
/// told where a file is read, and has no place in it.
pub fn refusals_are_told_in_order()
    ensures { (env : EnvValue) (command : EditValue) (picked : Picked) (old : History)
        (told other : RefusalValue) (first later : ℕ)
        → FirstFails (doing_of env command picked old).checks told
        → SomeFails (doing_of env command picked old).checks other
        → rank_of told ≡ Some first → rank_of other ≡ Some later → first ≤ later }
{}

/// In a sound folder no command that edits is refused for damage. So there it is done wherever no other
/// reason to refuse it holds, unless the store fails or memory runs out.
pub fn sound_folders_are_not_damaged()
    ensures { (env : EnvValue) (command : EditValue) (old : History) (path : List ℕ)
        → IsSound env.folder (files_of old) → Refused env command old (refusal.Damaged path) → ⊥ }
{}

/// From the same files, every step of a command returns the same id and leaves the same heads, user
/// and clocks.
pub fn steps_are_determined()
    ensures told { (env : EnvValue) (command : EditValue) (old one two : Files) (first second : Id)
        → Steps env command old one first → Steps env command old two second → first ≡ second }
    ensures heads { (env : EnvValue) (command : EditValue) (old one two : Files) (first second : Id)
        → Steps env command old one first → Steps env command old two second
        → (of : SideValue) (id : Id) → head_at one env.folder of id ≡ head_at two env.folder of id }
    ensures user { (env : EnvValue) (command : EditValue) (old one two : Files) (first second : Id)
        → Steps env command old one first → Steps env command old two second
        → user_at one env.folder ≡ user_at two env.folder }
    ensures clocks { (env : EnvValue) (command : EditValue) (old one two : Files)
        (first second : Id)
        → Steps env command old one first → Steps env command old two second
        → (which : ClockFileValue)
        → clock_at one env.folder which ≡ clock_at two env.folder which }
{}
