//! Laws of a folder's state, each the contract of a function that does nothing.
ghost use Rattle.std.specs.Prelude.{◌≡◌, ◌≢◌, ◌↔◌, ◌⊎◌, ◌≤◌, ◌++◌, [], List, ℕ, IsTrue, Some, None, map, reverse};
ghost use Rattle.hex.specs.Hex.{encode_lower};
ghost use Rattle.gb_text.specs.Digits.{IsId, IsName};
ghost use Rattle.gb_text.specs.Folder.{joined};
ghost use Rattle.gb_text.specs.declared.id.Id.{Id};
ghost use Rattle.gb_text.specs.declared.id.Name.{Name};
ghost use Rattle.gb_store.specs.Files.{Files, History, Put, files_of, written};
ghost use Rattle.gb_store.specs.ObjectPath.{object_place};
ghost use Rattle.git_object.specs.declared.frame.Kind.TheVariants as kinds;
ghost use Rattle.object_store.specs.Held.{objects_in};
ghost use Rattle.object_batch.specs.Needs.{IsHeldAs, LeadsTo, Reference};
ghost use Rattle.ref_store.specs.Refs.{Head};
ghost use Rattle.ref_store.specs.Setting.{ref_write};
ghost use Rattle.lamport.specs.Clock.{seen_by};
ghost use Rattle.lamport.specs.declared.clock.TheConstants.{CAP};
ghost use Rattle.repo_state.specs.Clocks.{clock_at, clock_write, see_writes};
ghost use Rattle.repo_state.specs.Finds.{Finding, Finds, Fits, IsDetermined, Many, Nothing, One, head_finder, id_finder};
ghost use Rattle.repo_state.specs.Sides.{AllRead, AreHeads, AreIds, IsBefore, has_ref, head_at, ref_place};
ghost use Rattle.repo_state.specs.Sound.{IsSound};
ghost use Rattle.repo_state.specs.Users.{BadUser, User, user_at, user_entry, user_write};
ghost use Rattle.repo_state.specs.declared.clocks.ClockFile.{ClockFile};
ghost use Rattle.repo_state.specs.declared.side.HeadEntry.{HeadEntry};
ghost use Rattle.repo_state.specs.declared.side.Side.{Side as SideValue};
ghost use Rattle.repo_state.specs.declared.side.Side.TheVariants as side;

/// A folder without files is sound, whatever is stored elsewhere.
pub fn an_empty_folder_is_sound()
    ensures { (folder : List ℕ) (files : Files)
        → ((place : List ℕ) → files (joined folder place) ≡ None) → IsSound folder files }
{}

/// In a sound folder the head of each ref, also of a remote, is a held commit, and everything that it
/// leads to is held.
pub fn sound_folders_hold_what_heads_lead_to()
    ensures { (folder : List ℕ) (files : Files) (of : SideValue) (id : Id) (head : Name)
        (one : Reference) → IsSound folder files → IsId id → head_at files folder of id ≡ Head head
        → LeadsTo (objects_in files folder) (record { name = head; kind = kinds.Commit }) one
        → IsHeldAs (objects_in files folder) one.name one.kind }
{}

/// `ids` gives the ids of the heads that `heads` gives, in the same order. There are heads to answer
/// exactly where every ref of the side reads.
pub fn ids_are_those_of_the_heads()
    ensures same { (files : Files) (folder : List ℕ) (of : SideValue) (ids : List Id)
        (heads : List HeadEntry) → AreIds files folder of ids
        → AreHeads files folder of heads → ids ≡ map (λ (e : HeadEntry). e.id) heads }
    ensures reads { (files : Files) (folder : List ℕ) (of : SideValue) (ids : List Id)
        → AreIds files folder of ids
        → ((heads : List HeadEntry) × AreHeads files folder of heads) ↔ AllRead files folder of }
{}

/// The user with its head is the user whose ref reads.
pub fn users_have_their_heads()
    ensures has { (files : Files) (folder : List ℕ) (user : HeadEntry)
        → user_entry files folder ≡ Some user → (user_at files folder ≡ User user.id)
        × (head_at files folder side.Identities user.id ≡ Head user.name) }
    ensures back { (files : Files) (folder : List ℕ) (id : Id) (head : Name)
        → user_at files folder ≡ User id → head_at files folder side.Identities id ≡ Head head
        → user_entry files folder ≡ Some (record { id = id; name = head }) }
{}

/// A head that was set reads back and all other state reads as before, except that a user file may
/// name a local identity only now. The user that was set reads as it was set where its ref stands,
/// and every head and the clocks as before. A clock that was set to at most 2^62 reads as it was set,
/// and every head, the user and the other clock as before.
pub fn heads_and_user_are_a_map()
    ensures same { (files : Files) (folder : List ℕ) (of : SideValue) (id : Id) (head : Name)
        → IsName head
        → head_at (written files (ref_write folder (ref_place of id) head)) folder of id
        ≡ Head head }
    ensures other { (files : Files) (folder : List ℕ) (of : SideValue) (id other : Id)
        (head : Name) → IsId id → IsId other → id ≢ other
        → head_at (written files (ref_write folder (ref_place of id) head)) folder of other
        ≡ head_at files folder of other }
    ensures other_side { (files : Files) (folder : List ℕ) (of on : SideValue) (id other : Id)
        (head : Name) → of ≢ on
        → head_at (written files (ref_write folder (ref_place of id) head)) folder on other
        ≡ head_at files folder on other }
    ensures user { (files : Files) (folder : List ℕ) (of : SideValue) (id : Id) (head : Name)
        → (user_at files folder ≡ BadUser → ⊥)
        → user_at (written files (ref_write folder (ref_place of id) head)) folder
        ≡ user_at files folder }
    ensures user_by_side { (files : Files) (folder : List ℕ) (of : SideValue) (id : Id)
        (head : Name) → of ≢ side.Identities
        → user_at (written files (ref_write folder (ref_place of id) head)) folder
        ≡ user_at files folder }
    ensures set_user { (files : Files) (folder : List ℕ) (id : Id) → IsId id
        → IsTrue (has_ref files folder side.Identities id)
        → user_at (written files (user_write folder id)) folder ≡ User id }
    ensures heads { (files : Files) (folder : List ℕ) (of : SideValue) (id user : Id)
        → head_at (written files (user_write folder user)) folder of id
        ≡ head_at files folder of id }
    ensures set_clock { (files : Files) (folder : List ℕ) (which : ClockFile) (n : ℕ) → n ≤ CAP
        → clock_at (written files (clock_write folder which n)) folder which ≡ n }
    ensures other_clock { (files : Files) (folder : List ℕ) (which other : ClockFile) (n : ℕ)
        → which ≢ other → clock_at (written files (clock_write folder which n)) folder other
        ≡ clock_at files folder other }
    ensures heads_by_clock { (files : Files) (folder : List ℕ) (of : SideValue) (id : Id)
        (which : ClockFile) (n : ℕ)
        → head_at (written files (clock_write folder which n)) folder of id
        ≡ head_at files folder of id }
    ensures user_by_clock { (files : Files) (folder : List ℕ) (which : ClockFile) (n : ℕ)
        → user_at (written files (clock_write folder which n)) folder ≡ user_at files folder }
    ensures clocks_by_head { (files : Files) (folder : List ℕ) (of : SideValue) (id : Id)
        (head : Name) (which : ClockFile)
        → clock_at (written files (ref_write folder (ref_place of id) head)) folder which
        ≡ clock_at files folder which }
    ensures clocks_by_user { (files : Files) (folder : List ℕ) (user : Id) (which : ClockFile)
        → clock_at (written files (user_write folder user)) folder which
        ≡ clock_at files folder which }
{}

/// A clock file that sees a number reads as a clock that has seen it, whatever the file said before.
pub fn clocks_read_as_they_were_seen()
    ensures { (old : History) (folder : List ℕ) (which : ClockFile) (number : ℕ)
        → clock_at (files_of (reverse (see_writes folder which
        (clock_at (files_of old) folder which) number) ++ old)) folder which
        ≡ seen_by (clock_at (files_of old) folder which) number }
{}

/// Putting an object leaves each head, the user and each clock. A head, a user or a clock that is set
/// leaves all that stands at the paths of objects.
pub fn objects_and_state_are_apart()
    ensures heads { (files : Files) (folder text : List ℕ) (of : SideValue) (id : Id) (name : Name)
        → head_at (written files (Put (joined folder (object_place name)) text)) folder of id
        ≡ head_at files folder of id }
    ensures user { (files : Files) (folder text : List ℕ) (name : Name)
        → user_at (written files (Put (joined folder (object_place name)) text)) folder
        ≡ user_at files folder }
    ensures clocks { (files : Files) (folder text : List ℕ) (which : ClockFile) (name : Name)
        → clock_at (written files (Put (joined folder (object_place name)) text)) folder which
        ≡ clock_at files folder which }
    ensures by_head { (files : Files) (folder : List ℕ) (of : SideValue) (id : Id) (head : Name)
        → objects_in (written files (ref_write folder (ref_place of id) head)) folder
        ≡ objects_in files folder }
    ensures by_user { (files : Files) (folder : List ℕ) (user : Id)
        → objects_in (written files (user_write folder user)) folder ≡ objects_in files folder }
    ensures by_clock { (files : Files) (folder : List ℕ) (which : ClockFile) (n : ℕ)
        → objects_in (written files (clock_write folder which n)) folder
        ≡ objects_in files folder }
{}

/// An argument fits an id if it is some of the id's first digits, at least one, and the id has a ref. What
/// it finds is one thing: the only id that it fits, nothing, or several, and then the two least are named.
/// All 64 digits of an id find it.
pub fn words_find_ids_by_their_first_digits()
    ensures fits { (files : Files) (folder : List ℕ) (of : SideValue) (word : List ℕ) (id : Id)
        → Fits files folder of word id ↔ (IsId id × IsTrue (has_ref files folder of id)
        × (word ≢ []) × ((rest : List ℕ) × (encode_lower id.bytes ≡ word ++ rest))) }
    ensures determined { (files : Files) (folder : List ℕ) (of : SideValue) (word : List ℕ)
        (one other : Finding) → Finds files folder of word one → Finds files folder of word other
        → one ≡ other }
    ensures some { (files : Files) (folder : List ℕ) (of : SideValue) (word : List ℕ)
        (ids : List Id) → AreIds files folder of ids
        → (finding : Finding) × Finds files folder of word finding }
    ensures one { (files : Files) (folder : List ℕ) (of : SideValue) (word : List ℕ) (id : Id)
        → Finds files folder of word (One id) ↔ (Fits files folder of word id
        × ((other : Id) → Fits files folder of word other → other ≡ id)) }
    ensures several { (files : Files) (folder : List ℕ) (of : SideValue) (word : List ℕ)
        (least next : Id) → Finds files folder of word (Many least next)
        → IsBefore least next
        × ((other : Id) → Fits files folder of word other
        → (other ≡ least) ⊎ (other ≡ next) ⊎ IsBefore next other) }
    ensures whole { (files : Files) (folder : List ℕ) (of : SideValue) (id : Id) → IsId id
        → IsTrue (has_ref files folder of id)
        → Finds files folder of (encode_lower id.bytes) (One id) }
{}

/// Where an argument finds one id, a longer one finds the same id if it fits it, and else nothing. Where
/// an argument finds nothing, so does a longer one.
pub fn longer_words_find_the_same()
    ensures one { (files : Files) (folder : List ℕ) (of : SideValue) (word more : List ℕ)
        (id other : Id) → Finds files folder of word (One id)
        → Finds files folder of (word ++ more) (One other) → other ≡ id }
    ensures same { (files : Files) (folder : List ℕ) (of : SideValue) (word more : List ℕ)
        (id : Id) → Finds files folder of word (One id)
        → (rest : List ℕ) × (encode_lower id.bytes ≡ (word ++ more) ++ rest)
        → Finds files folder of (word ++ more) (One id) }
    ensures several { (files : Files) (folder : List ℕ) (of : SideValue) (word more : List ℕ)
        (id least next : Id) → Finds files folder of word (One id)
        → Finds files folder of (word ++ more) (Many least next) → ⊥ }
    ensures nothing { (files : Files) (folder : List ℕ) (of : SideValue) (word more : List ℕ)
        → Finds files folder of word Nothing → word ≢ []
        → Finds files folder of (word ++ more) Nothing }
{}

/// A finder of ids, or of entities with their heads, finds one value, or fails in one way, and never
/// both.
pub fn finders_are_determined()
    ensures ids { (of : SideValue) (files : Files) (folder word : List ℕ)
        → IsDetermined (id_finder of files folder word) }
    ensures heads { (of : SideValue) (files : Files) (folder word : List ℕ)
        → IsDetermined (head_finder of files folder word) }
{}
