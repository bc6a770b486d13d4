//! Laws of what commands that edit read, each the contract of a function that does nothing.
ghost use Rattle.std.specs.Prelude.{◌≡◌, ◌≤◌, ◌+◌, Bool, IsTrue, List, ℕ};
ghost use Rattle.gb_store.specs.Files.{Files};
ghost use Rattle.gb_text.specs.declared.id.Id.{Id as IdValue};
ghost use Rattle.gb_text.specs.declared.ruled.Line.{Line as LineValue};
ghost use Rattle.gb_text.specs.declared.ruled.Message.{Message as MessageValue};
ghost use Rattle.gb_text.specs.declared.ruled.Title.{Title as TitleValue};
ghost use Rattle.bug_edits.specs.declared.edit.BugEdit.{BugEdit as BugEditValue};
ghost use Rattle.repo_edit.specs.Reads.{ReadsFor};
ghost use Rattle.repo_state.specs.Comments.{IsSought};
ghost use Rattle.repo_state.specs.Finds.{Finds, Nothing};
ghost use Rattle.repo_state.specs.declared.side.Side.TheVariants as side;
ghost use Rattle.words.specs.declared.edit.Edit.TheVariants.{New, OfBug, OfComment, UserNew, UserSet};

/// What is read, whether the command is done or not: of `user-new` at most the three objects of a
/// version, of `new` the four of a first commit, of `user-set` none, of an edit of a bug none where the word
/// finds no bug, and of an edit of a comment none where no bug has to be read to find it.
pub fn commands_read_what_they_need()
    ensures user_new { (files : Files) (folder : List ℕ) (name : TitleValue) (email : LineValue)
        (done : Bool) (before after : ℕ)
        → ReadsFor files folder (UserNew name email) (IsTrue done) before after
        → after ≤ before + 3 }
    ensures new { (files : Files) (folder : List ℕ) (title : TitleValue) (message : MessageValue)
        (done : Bool) (before after : ℕ)
        → ReadsFor files folder (New title message) (IsTrue done) before after
        → after ≤ before + 4 }
    ensures user_set { (files : Files) (folder word : List ℕ) (done : Bool) (before after : ℕ)
        → ReadsFor files folder (UserSet word) (IsTrue done) before after → after ≡ before }
    ensures not_found { (files : Files) (folder word : List ℕ) (edit : BugEditValue)
        (done : Bool) (before after : ℕ) → Finds files folder side.Bugs word Nothing
        → ReadsFor files folder (OfBug word edit) (IsTrue done) before after → after ≡ before }
    ensures none_sought { (files : Files) (folder word : List ℕ) (message : MessageValue)
        (done : Bool) (before after : ℕ) → ((id : IdValue) → IsSought files folder word id → ⊥)
        → ReadsFor files folder (OfComment word message) (IsTrue done) before after
        → after ≡ before }
{}
