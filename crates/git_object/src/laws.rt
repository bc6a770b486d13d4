//! Laws of the format, each the contract of a function that does nothing.
ghost use Rattle.std.specs.Prelude.{◌≡◌, ◌≢◌, ◌↔◌, ◌++◌, ℕ, List, Some, codes};
ghost use Rattle.gb_text.specs.Digits.{IsName};
ghost use Rattle.git_object.specs.Grammar.{IsObjectText, IsContent, IsTreeText, IsCommitText, IsSortedForm, framed, kind_of, kind_text, mode_text, object_name, sort_key};
ghost use Rattle.git_object.specs.Reading.{frame_of, object_of, object_with, tree_of, commit_of};
ghost use Rattle.git_object.specs.declared.entry.Entry.{Entry as EntryValue};
ghost use Rattle.git_object.specs.declared.entry.Mode.TheVariants.{Plain, Exec, Link, Folder, Module};
ghost use Rattle.git_object.specs.declared.frame.Kind.{Kind as KindValue};
ghost use Rattle.git_object.specs.declared.frame.Kind.TheVariants as kinds;
ghost use Rattle.git_object.specs.declared.object.Object.{Object as ObjectValue};
ghost use Rattle.git_object.specs.declared.tree.Tree.{Tree as TreeValue};
ghost use Rattle.git_object.specs.declared.commit.Commit.{Commit as CommitValue};

/// The functions that compute a text's value answer exactly what the grammar has.
pub fn values_are_exact()
    ensures frames { (text : List ℕ) (kind : KindValue) (content : List ℕ)
        → (frame_of text ≡ Some (kind, content)) ↔ (text ≡ framed kind content) }
    ensures trees { (content : List ℕ) (t : TreeValue)
        → (tree_of content ≡ Some t) ↔ IsTreeText content t }
    ensures commits { (content : List ℕ) (c : CommitValue)
        → (commit_of content ≡ Some c) ↔ IsCommitText content c }
    ensures contents { (kind : KindValue) (content : List ℕ) (o : ObjectValue)
        → (object_with kind content ≡ Some o) ↔ ((kind ≡ kind_of o) × IsContent content o) }
    ensures objects { (text : List ℕ) (o : ObjectValue)
        → (object_of text ≡ Some o) ↔ IsObjectText text o }
{}

/// The text of a kind and a content reads as the object of that kind with that content.
pub fn frames_read_through()
    ensures { (kind : KindValue) (content : List ℕ)
        → object_of (framed kind content) ≡ object_with kind content }
{}

/// A text has at most one value.
pub fn each_text_has_one_value()
    ensures frames { (k j : KindValue) (content other : List ℕ) → framed k content ≡ framed j other
        → (k ≡ j) × (content ≡ other) }
    ensures trees { (content : List ℕ) (t u : TreeValue) → IsTreeText content t
        → IsTreeText content u → t ≡ u }
    ensures commits { (content : List ℕ) (c d : CommitValue) → IsCommitText content c
        → IsCommitText content d → c ≡ d }
    ensures objects { (text : List ℕ) (o p : ObjectValue) → IsObjectText text o
        → IsObjectText text p → o ≡ p }
{}

/// A value has at most one text, and a tree has one in the writer's order.
pub fn each_value_has_one_text()
    ensures trees { (t sorted also : TreeValue) (content other : List ℕ) → IsSortedForm t sorted
        → IsSortedForm t also → IsTreeText content sorted → IsTreeText other also
        → content ≡ other }
    ensures commits { (content other : List ℕ) (c : CommitValue) → IsCommitText content c
        → IsCommitText other c → content ≡ other }
    ensures objects { (text other : List ℕ) (o : ObjectValue) → IsObjectText text o
        → IsObjectText other o → text ≡ other }
{}

/// The hash of a text is an object name.
pub fn hashed_texts_have_names()
    ensures { (text : List ℕ) → IsName (object_name text) }
{}

/// Modes have the digits, and kinds the words, of Git's object format.
pub fn modes_and_kinds_have_gits_texts()
    ensures plain { mode_text Plain ≡ codes "100644" }
    ensures exec { mode_text Exec ≡ codes "100755" }
    ensures link { mode_text Link ≡ codes "120000" }
    ensures folder { mode_text Folder ≡ codes "40000" }
    ensures module { mode_text Module ≡ codes "160000" }
    ensures blob { kind_text kinds.Blob ≡ codes "blob" }
    ensures tree { kind_text kinds.Tree ≡ codes "tree" }
    ensures commit { kind_text kinds.Commit ≡ codes "commit" }
{}

/// The key by which an entry is sorted is its name, followed by a slash if and only if the entry
/// is a folder. A module is not one (Git's object format).
pub fn folders_alone_are_sorted_with_a_slash()
    ensures folder { (entry : EntryValue) → entry.mode ≡ Folder
        → sort_key entry ≡ entry.name ++ codes "/" }
    ensures others { (entry : EntryValue) → entry.mode ≢ Folder → sort_key entry ≡ entry.name }
{}
