//! Laws of what one argument more selects. No call of them does anything.
ghost use Rattle.std.specs.Prelude.{◌≡◌, List, true};
ghost use Rattle.bug_ops.specs.declared.snapshot.Excerpt.{Excerpt as RowValue};
ghost use Rattle.identity.specs.declared.chain.Person.{Person as PersonValue};
ghost use Rattle.query.specs.Matching.{matches};
ghost use Rattle.query.specs.More.{IsDemand, IsFurther};
ghost use Rattle.query.specs.Reading.{with_term};
ghost use Rattle.query.specs.declared.query.Query.{Query as QueryValue};
ghost use Rattle.query.specs.declared.term.Term.{Term as TermValue};

/// A further status, author, participant, actor or pair of metadata, beside one that is given, loses
/// no row.
pub fn further_alternatives_lose_no_row()
    ensures { (names : List PersonValue) (q : QueryValue) (term : TermValue) (row : RowValue)
        → IsFurther q term → matches names q row ≡ true
        → matches names (with_term q term) row ≡ true }
{}

/// A further label or title, or that no label is on, selects no row that was not selected.
pub fn further_demands_add_no_row()
    ensures { (names : List PersonValue) (q : QueryValue) (term : TermValue) (row : RowValue)
        → IsDemand term → matches names (with_term q term) row ≡ true
        → matches names q row ≡ true }
{}
