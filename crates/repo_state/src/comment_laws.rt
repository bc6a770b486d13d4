//! Laws of what an argument finds that is the first digits of a comment's id. No call of them does anything.
ghost use Rattle.std.specs.Prelude.{◌≡◌, ◌≢◌, ◌↔◌, ◌++◌, [], Contains, IsTrue, List, ℕ, true};
ghost use Rattle.hex.specs.Hex.{encode_lower};
ghost use Rattle.gb_text.specs.Digits.{IsId};
ghost use Rattle.gb_text.specs.PrefixText.{is_prefix_text};
ghost use Rattle.gb_text.specs.declared.id.Id.{Id as IdValue};
ghost use Rattle.gb_store.specs.Files.{Files};
ghost use Rattle.bug_ops.specs.Kind.{bug_kind};
ghost use Rattle.bug_ops.specs.declared.op.BugOp.{BugOp};
ghost use Rattle.dag_entity.specs.Entities.{ops_in};
ghost use Rattle.dag_entity.specs.declared.entity.Entity.{Entity};
ghost use Rattle.repo_state.specs.Comments.{AllSoughtAreWhole, FindsComment, FindsNoComment};
ghost use Rattle.repo_state.specs.Comments.{FitsComment, IsSought, IsWholeBug};
ghost use Rattle.repo_state.specs.Comments.{bug_digits, comment_digits, comment_finder, comment_ids};
ghost use Rattle.repo_state.specs.Finds.{IsDetermined};
ghost use Rattle.repo_state.specs.Sides.{has_ref};
ghost use Rattle.repo_state.specs.declared.comments.CommentEntry.{CommentEntry as CommentValue};
ghost use Rattle.repo_state.specs.declared.side.Side.TheVariants as side;
ghost use Rattle.repo_state.specs.declared.stop.Missed.TheVariants as missed;

/// An argument fits a comment if and only if it is some of the first digits of the comment's id, at least
/// one, and nothing is wrong with the comment's bug. A bug is read if and only if it has a ref and its id
/// begins with the argument's digits at a bug's places. What an argument finds is one thing: the only
/// comment that it fits, or one reason why there is none. All 64 digits of a comment's id find the comment,
/// if no other comment has the same id and nothing is wrong with the bugs that are read.
pub fn comments_are_found_by_their_first_digits()
    ensures fits { (files : Files) (folder word : List ℕ) (c : CommentValue) → IsId c.comment
        → FitsComment files folder word c ↔ (IsId c.bug.id × (word ≢ [])
        × ((rest : List ℕ) × (comment_digits c ≡ word ++ rest))
        × ((entity : Entity BugOp) × IsWholeBug files folder c.bug entity
        × Contains (comment_ids (ops_in bug_kind entity.packs)) c.comment)) }
    ensures bugs { (files : Files) (folder word : List ℕ) (id : IdValue)
        → is_prefix_text word ≡ true → IsSought files folder word id
        ↔ (IsId id × IsTrue (has_ref files folder side.Bugs id)
        × ((rest : List ℕ) × (encode_lower id.bytes ≡ bug_digits word ++ rest))) }
    ensures determined { (files : Files) (folder word : List ℕ)
        → IsDetermined (comment_finder files folder word) }
    ensures whole { (files : Files) (folder : List ℕ) (c : CommentValue) (entity : Entity BugOp)
        → IsId c.bug.id → IsId c.comment → IsWholeBug files folder c.bug entity
        → Contains (comment_ids (ops_in bug_kind entity.packs)) c.comment
        → AllSoughtAreWhole files folder (comment_digits c)
        → ((other : CommentValue) (its : Entity BugOp) → IsWholeBug files folder other.bug its
        → Contains (comment_ids (ops_in bug_kind its.packs)) other.comment
        → comment_digits other ≡ comment_digits c → other ≡ c)
        → FindsComment files folder (comment_digits c) c }
{}

/// Where an argument finds a comment, a longer one finds the same comment if it fits it, and else none.
/// Where an argument finds none because it fits none, so does a longer one.
pub fn longer_words_find_the_same_comment()
    ensures one { (files : Files) (folder word more : List ℕ) (c other : CommentValue)
        → FindsComment files folder word c → FindsComment files folder (word ++ more) other
        → other ≡ c }
    ensures same { (files : Files) (folder word more : List ℕ) (c : CommentValue)
        → FindsComment files folder word c → FitsComment files folder (word ++ more) c
        → FindsComment files folder (word ++ more) c }
    ensures other { (files : Files) (folder word more : List ℕ) (c : CommentValue)
        → FindsComment files folder word c → (FitsComment files folder (word ++ more) c → ⊥)
        → FindsNoComment files folder (word ++ more) missed.NotFound }
    ensures nothing { (files : Files) (folder word more : List ℕ) → word ≢ []
        → FindsNoComment files folder word missed.NotFound
        → FindsNoComment files folder (word ++ more) missed.NotFound }
{}
