//! Laws of where texts are cut. No call of them does anything.
ghost use Rattle.std.specs.Prelude.{◌≡◌, ◌↔◌, ℕ, List, Some, Ok, false};
ghost use Rattle.query.specs.Cutting.{HasWords, IsCutAtColon};
ghost use Rattle.query.specs.Printing.{IsSayable, printed};
ghost use Rattle.query.specs.Reading.{Gives, query_of};
ghost use Rattle.query.specs.Words.{cut_outside, words_of};
ghost use Rattle.query.specs.declared.query.Query.{Query as QueryValue};

/// A text is its words with blanks alone before, between and after them, and no word has a blank
/// outside quotes.
pub fn words_are_cut_at_blanks()
    ensures { (text : List ℕ) → HasWords 0 text (words_of text) }
{}

/// The key and the value of metadata are cut at the first colon outside quotes.
pub fn pairs_are_cut_at_the_first_colon()
    ensures { (value front back : List ℕ)
        → (cut_outside false value ≡ Some (front, back)) ↔ IsCutAtColon value front back }
{}

/// At most one query is read from a text.
pub fn one_query_is_read()
    ensures { (text : List ℕ) (one other : QueryValue) → Gives (Ok one) (query_of text)
        → Gives (Ok other) (query_of text) → one ≡ other }
{}

/// What is printed of a query is printed again of what it reads as.
pub fn printed_texts_are_printed_again()
    ensures { (q again : QueryValue) → IsSayable q → query_of (printed q) ≡ Ok again
        → printed again ≡ printed q }
{}
