//! Laws of folders, of the order of ids and names, and of ascending lists, each the contract of a
//! function that does nothing.
ghost use Rattle.std.specs.Prelude.{◌≡◌, ◌≢◌, ◌<◌, ◌≤◌, ◌↔◌, ◌==◌, ◌&&◌, not, ℕ, List, [], ◌∷◌, ◌++◌, take, codes, Some, None, Result, Ok, Err, true, false, Contains};
ghost use Rattle.std.specs.Char.{is_whitespace};
ghost use Rattle.std.specs.Cmp.Lexicographic.{slice_cmp};
ghost use Rattle.std.specs.List.{AllPairs, list_all, list_any};
ghost use Rattle.std.specs.List.Sorted.{IsStrictlySortedBy};
ghost use Rattle.std.specs.Ordering.{nat_cmp};
ghost use Rattle.std.specs.Str.{IsUtf8, chars};
ghost use Rattle.hex.specs.Hex.{encode_lower};
ghost use Rattle.gb_text.specs.Digits.{IsId, IsName};
ghost use Rattle.gb_text.specs.Folder.{folder_of, FolderAnswers, is_rooted, joined};
ghost use Rattle.gb_text.specs.LineEnd.{line_of as without_line_end_of};
ghost use Rattle.gb_text.specs.Overlap.{Overlap};
ghost use Rattle.gb_text.specs.Ruled.{line_of, message_of, title_of};
ghost use Rattle.gb_text.specs.Rules.{is_control, is_line_text, is_message_text, is_title_text};
ghost use Rattle.gb_text.specs.declared.folder.FolderFault.{FolderFault as FolderFaultValue};
ghost use Rattle.gb_text.specs.declared.folder.FolderFault.TheVariants as fault;
ghost use Rattle.gb_text.specs.declared.id.Id.{Id as IdValue};
ghost use Rattle.gb_text.specs.declared.id.Name.{Name as NameValue};
ghost use Rattle.gb_text.specs.declared.ruled.Line.{Line as LineValue};
ghost use Rattle.gb_text.specs.declared.ruled.Message.{Message as MessageValue};
ghost use Rattle.gb_text.specs.declared.ruled.Title.{Title as TitleValue};

use crate::{Id, Name};

/// Folders with a path in common overlap.
pub fn folders_apart_share_no_path()
    ensures { (one two rest other : List ℕ) → is_rooted rest ≡ false → is_rooted other ≡ false
        → joined one rest ≡ joined two other → Overlap one two }
{}

/// A folder overlaps itself, and two folders overlap one another.
pub fn folders_overlap_each_other()
    ensures itself { (one : List ℕ) → Overlap one one }
    ensures mutual { (one two : List ℕ) → Overlap one two → Overlap two one }
{}

/// A folder that overlaps a rooted one is rooted.
pub fn rooted_folders_are_apart()
    ensures { (one two : List ℕ) → Overlap one two → take 1 one ≡ codes "/"
        → take 1 two ≡ codes "/" }
{}

/// A word that names no folder is answered with `BadFolder`, and only such a word is. The text of a
/// folder is that of the folder that the word names.
pub fn bad_folders_are_answered_so()
    ensures bad { (word : List ℕ) (answer : Result (List ℕ) FolderFaultValue)
        → folder_of word ≡ None → FolderAnswers (folder_of word) answer
        → answer ≡ Err fault.BadFolder }
    ensures only { (word : List ℕ) → FolderAnswers (folder_of word) (Err fault.BadFolder)
        → folder_of word ≡ None }
    ensures read { (word text : List ℕ) → FolderAnswers (folder_of word) (Ok text)
        → folder_of word ≡ Some text }
{}

/// Paths below one folder differ if their parts below the folder differ.
pub fn paths_keep_their_rest()
    ensures { (folder one two : List ℕ) → joined folder one ≡ joined folder two → one ≡ two }
{}

/// A folder's text, if it is not empty, reads again as that folder.
pub fn folders_read_again()
    ensures { (word folder : List ℕ) → IsUtf8 word → folder_of word ≡ Some folder → folder ≢ []
        → folder_of folder ≡ Some folder }
{}

/// Ids are in the order of their bytes, and in that of their texts.
pub fn ids_are_in_order_of_their_texts()
    ensures bytes { (one two : IdValue)
        → ⟦<Id as Ord>⟧.cmp one two ≡ slice_cmp nat_cmp one.bytes two.bytes }
    ensures texts { (one two : IdValue) → IsId one → IsId two → ⟦<Id as Ord>⟧.cmp one two
        ≡ slice_cmp nat_cmp (encode_lower one.bytes) (encode_lower two.bytes) }
{}

/// Names are in the order of their bytes, and in that of their texts.
pub fn names_are_in_order_of_their_texts()
    ensures bytes { (one two : NameValue)
        → ⟦<Name as Ord>⟧.cmp one two ≡ slice_cmp nat_cmp one.bytes two.bytes }
    ensures texts { (one two : NameValue) → IsName one → IsName two → ⟦<Name as Ord>⟧.cmp one two
        ≡ slice_cmp nat_cmp (encode_lower one.bytes) (encode_lower two.bytes) }
{}

/// A strictly ascending list has no item twice, and is the only such list of its items.
pub fn ascending_lists_are_their_items<T: Ord>()
    ensures once { (items : List T) → IsStrictlySortedBy T.cmp items
        → AllPairs (λ one other. one ≢ other) items }
    ensures same { (items others : List T) → IsStrictlySortedBy T.cmp items
        → IsStrictlySortedBy T.cmp others
        → ((item : T) → Contains items item ↔ Contains others item) → items ≡ others }
{}

/// A line, a title or a message is what its text is read as, and a text that breaks the rule is none.
pub fn ruled_texts_read_back()
    ensures lines { (line : LineValue) → line_of line.text ≡ Some line }
    ensures titles { (title : TitleValue) → title_of title.text ≡ Some title }
    ensures messages { (message : MessageValue) → message_of message.text ≡ Some message }
    ensures no_line { (text : List ℕ) → is_line_text text ≡ false → line_of text ≡ None }
    ensures no_title { (text : List ℕ) → is_title_text text ≡ false → title_of text ≡ None }
    ensures no_message { (text : List ℕ) → is_message_text text ≡ false
        → message_of text ≡ None }
{}

/// The control characters are U+0000 to U+001F and U+007F to U+009F.
pub fn controls_by_number()
    ensures low { (c : ℕ) → c < 0x20 → is_control c ≡ true }
    ensures ascii { (c : ℕ) → 0x20 ≤ c → c < 0x7f → is_control c ≡ false }
    ensures high { (c : ℕ) → 0x7f ≤ c → c < 0xa0 → is_control c ≡ true }
    ensures beyond { (c : ℕ) → 0xa0 ≤ c → is_control c ≡ false }
{}

/// A line has no control character. A title is a line that is not all white space. A message has no
/// control character but TAB, LF and CR.
pub fn ruled_texts_by_their_characters()
    ensures lines { (text : List ℕ) → is_line_text text ≡ not (list_any is_control (chars text)) }
    ensures titles { (text : List ℕ) → is_title_text text
        ≡ (is_line_text text && not (list_all is_whitespace (chars text))) }
    ensures messages { (text : List ℕ) → is_message_text text
        ≡ not (list_any (λ c. is_control c && (not (c == 9) && (not (c == 10) && not (c == 13))))
        (chars text)) }
{}

/// A line's end is one LF at the end of the text. A text that ends in another byte, such as CR, has
/// no line end.
pub fn line_ends_are_one_line_feed()
    ensures dropped { (text : List ℕ) → without_line_end_of (text ++ 10 ∷ []) ≡ text }
    ensures kept { (text : List ℕ) (last : ℕ) → last ≢ 10
        → without_line_end_of (text ++ last ∷ []) ≡ text ++ last ∷ [] }
    ensures empty { without_line_end_of [] ≡ [] }
{}
