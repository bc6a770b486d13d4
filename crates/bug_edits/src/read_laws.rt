//! Laws of the names of edits and of their arguments, each the contract of a function that does
//! nothing.
ghost use Rattle.std.specs.Prelude.{◌≡◌, ◌∷◌, ℕ, List, IsSome, Some, Ok, Err, length, true};
ghost use Rattle.bug_edits.specs.EditTable.{name_of, name_read, row_of};
ghost use Rattle.bug_edits.specs.EditWords.{IsCountedEdit, IsFirstBad, all_keep, edit_named, kept_of_bug};
ghost use Rattle.bug_edits.specs.Given.{HasTitles, given_texts};
ghost use Rattle.bug_edits.specs.declared.edit.BugEdit.{BugEdit as BugEditValue};
ghost use Rattle.bug_edits.specs.declared.names.EditName.{EditName as NameValue};

/// The edits by their names and their numbers of arguments after that of the bug. No other
/// arguments give an edit. The text of a name is read as that name, and no other text is.
pub fn only_these_are_edits()
    ensures named { (name : List ℕ) (words : List (List ℕ))
        → IsSome (edit_named name words) → IsCountedEdit name (length words) }
    ensures each { (name : List ℕ) (words : List (List ℕ))
        → IsCountedEdit name (length words) → IsSome (edit_named name words) }
    ensures read { (edit : NameValue) → name_read (name_of edit) ≡ Some edit }
    ensures only { (name : List ℕ) (edit : NameValue)
        → name_read name ≡ Some edit → name ≡ name_of edit }
{}

/// Each edit is read of the name and of the arguments that its row says, where an edit of labels
/// names one or more.
pub fn edits_are_read_as_their_rows_say()
    ensures { (edit : BugEditValue) → HasTitles (row_of edit).words
        → edit_named (name_of (row_of edit).name) (given_texts (row_of edit).words)
        ≡ Some (Ok edit) }
{}

/// An edit is refused with the place of the first argument that breaks its rule, where that of the
/// bug is at 1.
pub fn first_bad_words_of_edits_are_told()
    ensures first { (name bug : List ℕ) (words : List (List ℕ)) (place : ℕ)
        → edit_named name words ≡ Some (Err place)
        → IsFirstBad (kept_of_bug name (bug ∷ words)) place }
    ensures none { (name bug : List ℕ) (words : List (List ℕ)) (edit : BugEditValue)
        → edit_named name words ≡ Some (Ok edit)
        → all_keep (kept_of_bug name (bug ∷ words)) ≡ true }
{}
