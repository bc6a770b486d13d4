//! Laws of the definitions that the contracts of the calls cite. No call of them does anything.

ghost use Rattle.std.specs.Prelude.{◌≡◌, ◌≢◌, ◌↔◌, ℕ, List, All, Contains, Some, IfOk, Ok, Err};
ghost use Rattle.std.specs.List.{AllPairs};
ghost use Rattle.bug_ops.specs.declared.snapshot.Excerpt.{Excerpt as RowValue};
ghost use Rattle.identity.specs.declared.chain.Person.{Person as PersonValue};
ghost use Rattle.query.specs.Answers.{IsAnswer, MatchesAt};
ghost use Rattle.query.specs.Printing.{IsSayable, printed};
ghost use Rattle.query.specs.Meaning.{IsRefusal, IsValue, StandsIn};
ghost use Rattle.query.specs.Quotes.{IsQuoteAnswer};
ghost use Rattle.query.specs.Reading.{query_of};
ghost use Rattle.query.specs.Words.{open_quote, value_of, words_of};
ghost use Rattle.query.specs.declared.fault.QueryFault.{QueryFault as FaultValue};
ghost use Rattle.query.specs.declared.query.Query.{Query as QueryValue};

/// What is printed of a query reads back as the same query, if no text of it has a quote.
pub fn printed_queries_read_back()
    ensures { (q : QueryValue) → IsSayable q → query_of (printed q) ≡ Ok q }
{}

/// What is read has no quote in a text, and no key of metadata that is empty: so it is printed, and
/// reads back.
pub fn read_queries_are_sayable()
    ensures { (text : List ℕ) → IfOk (query_of text) IsSayable }
{}

/// A quote is not closed exactly when their number is odd, and it is the last one.
pub fn open_quotes_are_the_last_of_an_odd_number()
    ensures { (text : List ℕ) → IsQuoteAnswer text (open_quote text) }
{}

/// The places of an answer are those of the rows that match, each once.
pub fn answers_are_the_rows_that_match()
    ensures each { (names : List PersonValue) (q : QueryValue) (rows : List RowValue)
        (places : List ℕ) → IsAnswer names q rows places
        → (place : ℕ) → Contains places place → MatchesAt names q rows place }
    ensures all { (names : List PersonValue) (q : QueryValue) (rows : List RowValue)
        (places : List ℕ) → IsAnswer names q rows places
        → (place : ℕ) → MatchesAt names q rows place → Contains places place }
    ensures once { (names : List PersonValue) (q : QueryValue) (rows : List RowValue)
        (places : List ℕ) → IsAnswer names q rows places → AllPairs (λ x y. x ≢ y) places }
{}

/// A value says a text exactly when it is that text in quotes, or itself and not empty.
pub fn values_say_their_texts()
    ensures { (value text : List ℕ) → (value_of value ≡ Some text) ↔ IsValue value text }
{}

/// Each word is in its text at its place.
pub fn words_stand_at_their_places()
    ensures { (text : List ℕ) → All (StandsIn text) (words_of text) }
{}

/// What is refused has a quote that is not closed, or else a first word that is at fault.
pub fn the_first_fault_decides()
    ensures { (text : List ℕ) (fault : FaultValue) → query_of text ≡ Err fault
        → IsRefusal text fault }
{}
