//! Laws of runs, each the contract of a function that does nothing.
ghost use Rattle.std.specs.Prelude.{◌≡◌, ◌⊎◌, ◌≤◌, ◌+◌, ◌++◌, [], IsTrue, Contains, List, ℕ, Result, Ok, Err, codes};
ghost use Rattle.hex.specs.Hex.{encode_lower};
ghost use Rattle.gb_text.specs.declared.id.Id.{Id};
ghost use Rattle.gb_text.specs.declared.ruled.Line.{Line};
ghost use Rattle.gb_text.specs.declared.ruled.Message.{Message};
ghost use Rattle.gb_text.specs.declared.ruled.Title.{Title};
ghost use Rattle.gb_store.specs.Files.{Files, History, files_of};
ghost use Rattle.gb_store.specs.Moments.{AllMoments};
ghost use Rattle.ref_packing.specs.Answers.{Packs};
ghost use Rattle.repo_state.specs.Sound.{IsSound};
ghost use Rattle.repo_state.specs.Sides.{head_at};
ghost use Rattle.repo_state.specs.declared.side.Side.{Side as SideValue};
ghost use Rattle.repo_state.specs.declared.side.Side.TheVariants as side;
ghost use Rattle.repo_writes.specs.Kept.{LosesNothing};
ghost use Rattle.bug_edits.specs.declared.edit.BugEdit.{BugEdit as BugEditValue};
ghost use Rattle.repo_steps.specs.Steps.{Steps};
ghost use Rattle.words.specs.declared.edit.Edit.{Edit as Edits};
ghost use Rattle.words.specs.declared.edit.Edit.TheVariants as edits;
ghost use Rattle.repo_steps.specs.declared.env.Env.{Env};
ghost use Rattle.repo_steps.specs.declared.refusal.Refusal.{Refusal};
ghost use Rattle.repo_steps.specs.declared.refusal.Stop.{Stop};
ghost use Rattle.repo_steps.specs.declared.refusal.Stop.TheVariants as stop;
ghost use Rattle.bug_run.specs.Alike.{FindsAlike, FindsCommentAlike};
ghost use Rattle.bug_run.specs.Printed.{IsTold};
ghost use Rattle.bug_run.specs.Reads.{ReadsCommand};
ghost use Rattle.bug_run.specs.Run.{Call, CommandAnswers, RunAnswers, env_at, packed_line};
ghost use Rattle.bug_run.specs.Runs.{AreAllSound, AreApart, Runs};
ghost use Rattle.bug_run.specs.Served.{HasCause, ShowsOperations};
ghost use Rattle.bug_run.specs.Answer.{Answer};
ghost use Rattle.bug_run.specs.declared.status.Refused.TheVariants as refused;
ghost use Rattle.bug_run.specs.declared.status.Status.{Status as StatusValue};
ghost use Rattle.bug_run.specs.declared.status.Status.TheVariants as status;
ghost use Rattle.words.specs.declared.words.Asked.TheVariants as asked;
ghost use Rattle.words.specs.declared.words.BadWord.{BadWord as BadWordValue};
ghost use Rattle.words.specs.declared.words.Command.{Command};
ghost use Rattle.words.specs.declared.words.Command.TheVariants as ask;
ghost use Rattle.words.specs.declared.words.Request.{Request};

/// Whatever is run over folders of which no two overlap, by whatever arguments, and wherever each run
/// stops: sound folders stay sound, if each push into one of them is from one of them. No object of such a
/// folder is lost, everything below the head of an identity or of a bug stays below it, and no clock falls,
/// sound or not.
pub fn runs_keep_folders()
    ensures sound { (folders : List (List ℕ)) (old new : History) → AreApart folders
        → Runs folders old new → AreAllSound folders (files_of old)
        → AreAllSound folders (files_of new) }
    ensures kept { (folders : List (List ℕ)) (old new : History) → AreApart folders
        → Runs folders old new → (folder : List ℕ) → Contains folders folder
        → LosesNothing folder (files_of old) (files_of new) }
{}

/// Where there were no files at all, each of these folders is sound whatever was run.
pub fn runs_from_nothing_are_sound()
    ensures { (folders : List (List ℕ)) (new : History) → AreApart folders → Runs folders [] new
        → AreAllSound folders (files_of new) }
{}

/// In a sound folder a command is done wherever nothing is a cause to refuse it, but where the store
/// fails, the output fails or memory runs out. An edit has a cause where a check of it fails, a command
/// that reads a bug where its argument finds none or several, and the list of people has none.
pub fn sound_folders_are_served()
    ensures { (call : Call) (old new : History) (before after : List ℕ) (answer : StatusValue)
        (request : Request) → IsTrue call.store_tells → call.asked ≡ asked.Request request
        → IsSound request.folder (files_of old)
        → (HasCause (env_at call.moment request.folder) request.command old → ⊥)
        → RunAnswers call old new before after answer
        → (answer ≡ status.Done) ⊎ ((answer ≡ status.Memory)
        ⊎ ((answer ≡ status.DiskFault) ⊎ (answer ≡ status.OutFault))) }
{}

/// What `show` prints, where it is done: the fields that the operations of the operation commits below
/// the bug's head give, in order of edit clock, pack id and name, with the names of the folder's people.
/// It writes nothing.
pub fn show_prints_the_operations_in_order()
    ensures { (call : Call) (old new : History) (before after word folder : List ℕ)
        → IsTrue call.store_tells → IsTrue call.sink_tells
        → call.asked ≡ asked.Request (record { folder = folder; command = ask.Show word })
        → RunAnswers call old new before after status.Done
        → (text : List ℕ) × ShowsOperations (files_of old) folder word text
        × (after ≡ before ++ text) × (new ≡ old) }
{}

/// From the same files, arguments, time and seed a command prints at most one text, whichever writes led
/// to these files. And where it may be done, no refusal has a cause: so whether it is done or refused is
/// determined, but for want of memory and faults of the disk. A command that edits nothing has one
/// refusal too, so that all that it tells is determined.
pub fn answers_are_determined()
    ensures told { (env : Env) (command : Command) (old elder one two : History)
        (first second : Answer) → files_of old ≡ files_of elder
        → CommandAnswers env command old one (Ok first)
        → CommandAnswers env command elder two (Ok second) → first ≡ second }
    ensures refused { (env : Env) (command : Command) (old one two : History) (answer : Answer)
        (refusal : Refusal) → CommandAnswers env command old one (Ok answer)
        → CommandAnswers env command old two (Err (stop.Refused refusal)) → ⊥ }
    ensures one_refusal { (env : Env) (command : Command) (old elder one two : History)
        (first second : Refusal) → files_of old ≡ files_of elder
        → ((edit : Edits) → command ≡ ask.Edit edit → ⊥)
        → CommandAnswers env command old one (Err (stop.Refused first))
        → CommandAnswers env command elder two (Err (stop.Refused second)) → first ≡ second }
{}

/// The answer to a command depends on an argument for a bug, an identity or a comment only by what that
/// finds. Two arguments that find the same give the same answers, and the same writes.
pub fn answers_depend_on_what_words_find()
    ensures show { (env : Env) (old new : History) (word other : List ℕ)
        (result : Result Answer Stop) → FindsAlike (files_of old) env.folder side.Bugs word other
        → CommandAnswers env (ask.Show word) old new result
        → CommandAnswers env (ask.Show other) old new result }
    ensures log { (env : Env) (old new : History) (word other : List ℕ)
        (result : Result Answer Stop) → FindsAlike (files_of old) env.folder side.Bugs word other
        → CommandAnswers env (ask.Log word) old new result
        → CommandAnswers env (ask.Log other) old new result }
    ensures edit { (env : Env) (old new : History) (word other : List ℕ) (edit : BugEditValue)
        (result : Result Answer Stop) → FindsAlike (files_of old) env.folder side.Bugs word other
        → CommandAnswers env (ask.Edit (edits.OfBug word edit)) old new result
        → CommandAnswers env (ask.Edit (edits.OfBug other edit)) old new result }
    ensures comment { (env : Env) (old new : History) (word other : List ℕ) (message : Message)
        (result : Result Answer Stop) → FindsCommentAlike (files_of old) env.folder word other
        → CommandAnswers env (ask.Edit (edits.OfComment word message)) old new result
        → CommandAnswers env (ask.Edit (edits.OfComment other message)) old new result }
    ensures user { (env : Env) (old new : History) (word other : List ℕ)
        (result : Result Answer Stop)
        → FindsAlike (files_of old) env.folder side.Identities word other
        → CommandAnswers env (ask.Edit (edits.UserSet word)) old new result
        → CommandAnswers env (ask.Edit (edits.UserSet other)) old new result }
{}

/// A done command that edits prints the line of the id of what it made, and no refusal.
pub fn edits_tell_what_they_made()
    ensures { (env : Env) (edit : Edits) (old new : History) (answer : Answer)
        → CommandAnswers env (ask.Edit edit) old new (Ok answer)
        → (id : Id) × Steps env edit (files_of old) (files_of new) id
        × (answer.text ≡ encode_lower id.bytes ++ codes "\n") × (answer.refused ≡ 0) }
{}

/// A pack of the refs changes no ref of a bug, of an identity or of a remote's, at any moment, whether or
/// not it is done. Where it is done, each loose ref of a bug and of an identity was moved, and it prints how
/// many those were.
pub fn packs_change_no_head()
    ensures heads { (call : Call) (old new : History) (before after folder : List ℕ)
        (answer : StatusValue) (of : SideValue) (id : Id) → IsTrue call.store_tells
        → call.asked ≡ asked.Request (record { folder = folder; command = ask.PackRefs })
        → RunAnswers call old new before after answer
        → AllMoments (λ files. head_at files folder of id ≡ head_at (files_of old) folder of id)
        old new }
    ensures done { (call : Call) (old new : History) (before after folder : List ℕ)
        → IsTrue call.store_tells → IsTrue call.sink_tells
        → call.asked ≡ asked.Request (record { folder = folder; command = ask.PackRefs })
        → RunAnswers call old new before after status.Done
        → (count : ℕ) × Packs folder old new count × (after ≡ before ++ packed_line count) }
{}

/// Commands that read no chain and no bug read few objects: `user-new` at most three, `new` four,
/// `user-set` and `pack-refs` none.
pub fn edits_read_few_objects()
    ensures person { (files : Files) (folder : List ℕ) (name : Title) (email : Line)
        (before after : ℕ)
        → ReadsCommand files folder (ask.Edit (edits.UserNew name email)) ⊥ before after
        → after ≤ before + 3 }
    ensures bug { (files : Files) (folder : List ℕ) (title : Title) (message : Message)
        (before after : ℕ)
        → ReadsCommand files folder (ask.Edit (edits.New title message)) ⊥ before after
        → after ≤ before + 4 }
    ensures user { (files : Files) (folder id : List ℕ) (before after : ℕ)
        → ReadsCommand files folder (ask.Edit (edits.UserSet id)) ⊥ before after
        → after ≡ before }
    ensures pack { (files : Files) (folder : List ℕ) (before after : ℕ)
        → ReadsCommand files folder ask.PackRefs ⊥ before after → after ≡ before }
{}

/// What the arguments alone decide, over every store: the usage is reported if and only if they give no
/// command, and a refusal by arguments if and only if they alone give it. Only the sink and a lack of
/// memory may keep each from being told.
pub fn words_decide_first()
    ensures usage { (call : Call) (old new : History) (before after : List ℕ)
        (answer : StatusValue) → call.asked ≡ asked.Nothing
        → RunAnswers call old new before after answer → IsTold status.Usage answer }
    ensures only_usage { (call : Call) (old new : History) (before after : List ℕ)
        → RunAnswers call old new before after status.Usage → call.asked ≡ asked.Nothing }
    ensures refused { (call : Call) (old new : History) (before after : List ℕ)
        (answer : StatusValue) (bad : BadWordValue) → call.asked ≡ asked.Refused bad
        → RunAnswers call old new before after answer
        → IsTold (status.Refused (refused.ByWords bad)) answer }
    ensures only_refused { (call : Call) (old new : History) (before after : List ℕ)
        (bad : BadWordValue)
        → RunAnswers call old new before after (status.Refused (refused.ByWords bad))
        → call.asked ≡ asked.Refused bad }
{}
