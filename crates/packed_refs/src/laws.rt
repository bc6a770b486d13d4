//! Laws of packed refs, each the contract of a function that does nothing.
ghost use Rattle.std.specs.Prelude.{◌≡◌, ◌≢◌, ◌++◌, ◌∷◌, ◌↔◌, ℕ, List, All, Contains, Some, None, []};
ghost use Rattle.gb_text.specs.Digits.{IsId};
ghost use Rattle.gb_text.specs.declared.id.Id.{Id};
ghost use Rattle.hex.specs.Hex.{encode_lower};
ghost use Rattle.packed_refs.specs.Lines.{HasNoLineFeed, lines_of, text_of};
ghost use Rattle.packed_refs.specs.Packed.{PackedRef, head_of, heads_in, id_below, id_head_of, packed_refs};
ghost use Rattle.packed_refs.specs.Written.{IsPackable, packed_text};

/// A name has the head of its last line, and none where no line has it.
pub fn the_last_line_counts()
    ensures some { (before after : List PackedRef) (one : PackedRef)
        → ((later : PackedRef) → Contains after later → later.name ≢ one.name)
        → head_of one.name (before ++ one ∷ after) ≡ Some one.head }
    ensures none { (refs : List PackedRef) (name : List ℕ)
        → ((one : PackedRef) → Contains refs one → one.name ≢ name)
        → head_of name refs ≡ None }
{}

/// The text of lines without a line feed in them, each ended by one, has these lines; so has the
/// text without the last line feed, where the last line is not empty.
pub fn lines_are_ended_by_line_feeds()
    ensures every { (lines : List (List ℕ)) → All HasNoLineFeed lines
        → lines_of (text_of lines) ≡ lines }
    ensures last { (lines : List (List ℕ)) (last : List ℕ)
        → All HasNoLineFeed lines → HasNoLineFeed last → last ≢ []
        → lines_of (text_of lines ++ last) ≡ lines ++ last ∷ [] }
{}

/// An id's ref is below a dir where its name is the dir, a slash and the 64 digits of the id.
pub fn names_below_a_dir_are_ids()
    ensures { (dir name : List ℕ) (id : Id)
        → (id_below dir name ≡ Some id) ↔ ((name ≡ dir ++ 47 ∷ encode_lower id.bytes) × IsId id) }
{}

/// The last of the heads in a dir that has an id is the head of the id's ref.
pub fn heads_in_a_dir_are_heads()
    ensures { (dir : List ℕ) (refs : List PackedRef) (id : Id) → IsId id
        → head_of (dir ++ 47 ∷ encode_lower id.bytes) refs ≡ id_head_of id (heads_in dir refs) }
{}

/// The text that refs are written as has these refs again, in their order; and the refs that a
/// packed text has can be written again.
pub fn packed_texts_read_back()
    ensures written { (refs : List PackedRef) → All IsPackable refs
        → packed_refs (packed_text refs) ≡ Some refs }
    ensures read { (text : List ℕ) (refs : List PackedRef) → packed_refs text ≡ Some refs
        → All IsPackable refs }
{}
