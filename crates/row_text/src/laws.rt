//! Laws of the texts of rows, each the contract of a function that does nothing.
ghost use Rattle.std.specs.Prelude.{◌≡◌, ℕ, List, Some, length, Contains};
ghost use Rattle.json_span.specs.Parts.{members_of};
ghost use Rattle.op_kind.specs.Members.{fields_of, values_of};
ghost use Rattle.row_text.specs.Rows.{RowRules, row_names, row_of, row_text};
ghost use Rattle.row_text.specs.declared.row.HeadRow.{HeadRow as RowValue};

/// What is written of a row that satisfies the rules reads as the row.
pub fn written_rows_read_back()
    ensures { (row : RowValue) → RowRules row → row_of (row_text row) ≡ Some row }
{}

/// A row that is read satisfies the rules. A text is one row at most.
pub fn read_rows_satisfy_the_rules()
    ensures rules { (text : List ℕ) (row : RowValue) → row_of text ≡ Some row → RowRules row }
    ensures one { (text : List ℕ) (row other : RowValue) → row_of text ≡ Some row
        → row_of text ≡ Some other → row ≡ other }
{}

/// The text of a row is an object with each of the fifteen names once, and with no other member.
pub fn rows_have_each_member_once()
    ensures { (text : List ℕ) (row : RowValue) → row_of text ≡ Some row
        → ((members : List (List ℕ × List ℕ)) × (members_of text ≡ Some members)
        × (length members ≡ 15)
        × ((name : List ℕ) → Contains row_names name
        → length (values_of name (fields_of members)) ≡ 1)) }
{}
