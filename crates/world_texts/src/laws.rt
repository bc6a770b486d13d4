//! What the texts say.
ghost use Rattle.std.specs.Prelude.{◌≡◌, ℕ, List, Some, Contains, codes};
ghost use Rattle.world_texts.specs.Asked.{asked_of, IsAskedBy};
ghost use Rattle.world_texts.specs.Summary.{verdict_of};
ghost use Rattle.world_texts.specs.declared.asked.Asked.{Asked as AskedValue};
ghost use Rattle.world_texts.specs.declared.tally.Digest.{Digest as DigestValue};

/// Arguments ask for a world if and only if they are three plain decimals, which give its numbers,
/// and these are in their bounds.
pub fn worlds_are_asked_for_by_three_numbers()
    ensures only { (words : List (List ℕ)) (asked : AskedValue) → asked_of words ≡ Some asked
        → IsAskedBy words asked }
    ensures each { (words : List (List ℕ)) (asked : AskedValue) → IsAskedBy words asked
        → asked_of words ≡ Some asked }
{}

/// `equal` is printed if and only if each two folders have the same hash.
pub fn equal_digests_are_told()
    ensures same { (digests : List DigestValue) (one other : DigestValue)
        → verdict_of digests ≡ codes "equal\n" → Contains digests one → Contains digests other
        → one.hash ≡ other.hash }
    ensures each { (digests : List DigestValue)
        → ((one other : DigestValue) → Contains digests one → Contains digests other
        → one.hash ≡ other.hash) → verdict_of digests ≡ codes "equal\n" }
{}
