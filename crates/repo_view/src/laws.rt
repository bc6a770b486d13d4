//! Laws of what is shown of a folder, each the contract of a function that does nothing.
ghost use Rattle.std.specs.Prelude.{◌≡◌, ◌++◌, [], ◌∷◌, List, ℕ, Option, Some, Ok, Err, codes, decimal};
ghost use Rattle.std.specs.List.{flat_map};
ghost use Rattle.hex.specs.Hex.{encode_lower};
ghost use Rattle.bug_ops.specs.Kind.{bug_kind};
ghost use Rattle.bug_ops.specs.declared.op.BugOp.{BugOp as OpValue};
ghost use Rattle.snapshot.specs.LastMention.{snapshot_of};
ghost use Rattle.dag_entity.specs.Entities.{IsOperationList};
ghost use Rattle.dag_entity.specs.Faults.{EntityFaultHolds};
ghost use Rattle.dag_entity.specs.declared.entity.Entity.{Entity as EntityValue};
ghost use Rattle.dag_entity.specs.declared.entity.Placed.{Placed as PlacedValue};
ghost use Rattle.dag_entity.specs.declared.fault.EntityFault.{EntityFault};
ghost use Rattle.identity.specs.declared.chain.Person.{Person as PersonValue};
ghost use Rattle.render.specs.Show.{show_text_of};
ghost use Rattle.render.specs.Users.{is_user, star};
ghost use Rattle.gb_store.specs.Files.{Files};
ghost use Rattle.gb_text.specs.Folder.{joined};
ghost use Rattle.gb_text.specs.declared.id.Id.{Id};
ghost use Rattle.object_store.specs.Held.{objects_in};
ghost use Rattle.repo_state.specs.Answers.{HasBadPerson, IsUser};
ghost use Rattle.repo_state.specs.Bugs.{AreLocal, FindsBug, IsBug, IsDamagedBug};
ghost use Rattle.repo_state.specs.People.{ArePeople};
ghost use Rattle.repo_state.specs.Finds.{Finds, One};
ghost use Rattle.repo_state.specs.Sides.{ref_place};
ghost use Rattle.repo_state.specs.Sound.{IsSound};
ghost use Rattle.repo_state.specs.declared.side.HeadEntry.{HeadEntry};
ghost use Rattle.repo_state.specs.declared.side.Side.TheVariants as side;
ghost use Rattle.repo_state.specs.declared.stop.FindStop.TheVariants as stop;
ghost use Rattle.repo_state.specs.declared.stop.Missed.{Missed};
ghost use Rattle.repo_state.specs.declared.stop.Missed.TheVariants as missed;
ghost use Rattle.repo_state.specs.declared.stop.ReadStop.TheVariants as read;
ghost use Rattle.repo_view.specs.Log.{LogAnswers};
ghost use Rattle.repo_view.specs.Shown.{AgreeOnAuthors, HaveSameCommits, ShowAnswers, UsersAnswers};

/// If `log` may print a text, nothing is wrong with the bug's entity, and it is neither not found nor
/// damaged. So `log` answers `NotFound` or `Damaged` exactly where its cause holds.
pub fn a_log_has_no_fault()
    ensures fault { (files : Files) (folder word text : List ℕ) (bug : HeadEntry)
        (authors : List Id) (fault : EntityFault) → LogAnswers files folder word (Ok text)
        → FindsBug files folder word bug → AreLocal files folder authors
        → EntityFaultHolds bug_kind (objects_in files folder) bug.id (bug.name ∷ []) authors fault
        → ⊥ }
    ensures missed { (files : Files) (folder word text : List ℕ) (why : Missed)
        → LogAnswers files folder word (Ok text)
        → LogAnswers files folder word (Err (stop.Missed why)) → ⊥ }
{}

/// For the same files and arguments `log` has at most one text, and misses the bug in one way.
pub fn logs_are_determined()
    ensures told { (files : Files) (folder word one two : List ℕ)
        → LogAnswers files folder word (Ok one) → LogAnswers files folder word (Ok two)
        → one ≡ two }
    ensures missed { (files : Files) (folder word : List ℕ) (one two : Missed)
        → LogAnswers files folder word (Err (stop.Missed one))
        → LogAnswers files folder word (Err (stop.Missed two)) → one ≡ two }
{}

/// In a sound folder `log` reports no damage.
pub fn sound_folders_have_logs()
    ensures { (files : Files) (folder word path : List ℕ) → IsSound folder files
        → LogAnswers files folder word (Err (stop.Missed (missed.Damaged path))) → ⊥ }
{}

/// If `show` may print a text, nothing is wrong with the bug's entity, and neither it nor a person is
/// damaged. So `show` answers `NotFound` or `Damaged` exactly where its cause holds.
pub fn a_shown_bug_has_no_fault()
    ensures fault { (files : Files) (folder word text : List ℕ) (bug : HeadEntry)
        (authors : List Id) (fault : EntityFault) → ShowAnswers files folder word (Ok text)
        → FindsBug files folder word bug → AreLocal files folder authors
        → EntityFaultHolds bug_kind (objects_in files folder) bug.id (bug.name ∷ []) authors fault
        → ⊥ }
    ensures missed { (files : Files) (folder word text : List ℕ) (why : Missed)
        → ShowAnswers files folder word (Ok text)
        → ShowAnswers files folder word (Err (stop.Missed why)) → ⊥ }
{}

/// If `users` may print a text, no person and no user file is damaged.
pub fn shown_people_are_not_damaged()
    ensures { (files : Files) (folder text path : List ℕ) → UsersAnswers files folder (Ok text)
        → UsersAnswers files folder (Err (read.Damaged path)) → ⊥ }
{}

/// A damaged bug is reported before any damaged person, and a damaged person before the user file.
pub fn the_first_damage_is_told()
    ensures show { (files : Files) (folder word path : List ℕ) (id : Id)
        → Finds files folder side.Bugs word (One id) → IsDamagedBug files folder id
        → ShowAnswers files folder word (Err (stop.Missed (missed.Damaged path)))
        → path ≡ joined folder (ref_place side.Bugs id) }
    ensures users { (files : Files) (folder path other : List ℕ) → HasBadPerson files folder other
        → UsersAnswers files folder (Err (read.Damaged path))
        → HasBadPerson files folder path }
{}

/// For the same files and arguments `show` and `users` have at most one text, `show` misses in one
/// way, and `users` reports one path. So of several damaged identities one is reported.
pub fn shown_texts_are_determined()
    ensures show { (files : Files) (folder word one two : List ℕ)
        → ShowAnswers files folder word (Ok one) → ShowAnswers files folder word (Ok two)
        → one ≡ two }
    ensures users { (files : Files) (folder one two : List ℕ)
        → UsersAnswers files folder (Ok one) → UsersAnswers files folder (Ok two) → one ≡ two }
    ensures show_missed { (files : Files) (folder word : List ℕ) (one two : Missed)
        → ShowAnswers files folder word (Err (stop.Missed one))
        → ShowAnswers files folder word (Err (stop.Missed two)) → one ≡ two }
    ensures users_damaged { (files : Files) (folder one two : List ℕ)
        → UsersAnswers files folder (Err (read.Damaged one))
        → UsersAnswers files folder (Err (read.Damaged two)) → one ≡ two }
{}

/// Bugs with the same operation commits are shown as the same text, if both folders have the same
/// names for their authors. The edges between the commits, commits without operations and all else
/// in the folders have no part in it.
pub fn same_commits_are_shown_the_same()
    ensures { (files others : Files) (folder place word words one two : List ℕ)
        (bug top : HeadEntry) → FindsBug files folder word bug → FindsBug others place words top
        → HaveSameCommits files folder bug others place top
        → AgreeOnAuthors files folder bug others place
        → ShowAnswers files folder word (Ok one) → ShowAnswers others place words (Ok two)
        → one ≡ two }
{}

/// In a sound folder neither `show` nor `users` reports damage.
pub fn sound_folders_are_shown()
    ensures show { (files : Files) (folder word path : List ℕ) → IsSound folder files
        → ShowAnswers files folder word (Err (stop.Missed (missed.Damaged path))) → ⊥ }
    ensures users { (files : Files) (folder path : List ℕ) → IsSound folder files
        → UsersAnswers files folder (Err (read.Damaged path)) → ⊥ }
{}

/// The texts of `log`, `show` and `users`, line by line. A log has a line for each commit of the
/// entity of the bug that the word finds, in the order of its packs: the edit clock, a space, the
/// name. A bug is shown by the list of its operations, with the names of the people of the folder.
/// People have a line each, in the order of ids: the id, the name and the email with TABs between, and
/// a star for the user.
pub fn texts_tell_what_stands_there()
    ensures log { (files : Files) (folder word text : List ℕ)
        → LogAnswers files folder word (Ok text) → (bug : HeadEntry)
        × FindsBug files folder word bug × (entity : EntityValue OpValue)
        × IsBug files folder bug entity
        × (text ≡ flat_map (λ (p : PlacedValue OpValue). decimal p.pack.edit ++ codes " "
        ++ encode_lower p.commit.bytes ++ codes "\n") entity.packs) }
    ensures show { (files : Files) (folder word text : List ℕ) (people : List PersonValue)
        → ArePeople files folder people → ShowAnswers files folder word (Ok text)
        → (bug : HeadEntry) × FindsBug files folder word bug × (ops : List OpValue)
        × IsOperationList bug_kind (objects_in files folder) (bug.name ∷ []) ops
        × (text ≡ show_text_of (snapshot_of ops) people) }
    ensures users { (files : Files) (folder text : List ℕ) (people : List PersonValue)
        (user : Option Id) → ArePeople files folder people → IsUser files folder user
        → UsersAnswers files folder (Ok text)
        → text ≡ flat_map (λ (p : PersonValue). encode_lower p.id.bytes ++ codes "\t" ++ p.name
        ++ codes "\t" ++ p.email ++ star (is_user user p.id) ++ codes "\n") people }
{}
