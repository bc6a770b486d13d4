//! Laws of cells. No call of them does anything.
ghost use Rattle.std.specs.Prelude.{◌≡◌, ◌≤◌, ℕ, List, chars};
ghost use Rattle.std.specs.Str.{IsUtf8};
ghost use Rattle.columns.specs.Cells.{IsLongest, cell_of, front_of};
ghost use Rattle.columns.specs.Widths.{width};

/// What a cell shows of a text that is cut is the longest prefix such that it and every shorter
/// prefix, cut between characters, leave room for `~`.
pub fn the_longest_prefix_is_shown()
    ensures { (most : ℕ) (text : List ℕ) → IsLongest most (chars text) (front_of most text) }
{}

/// A cell is exactly as wide as it is asked to be, whatever the text.
pub fn cells_have_their_columns()
    ensures { (columns : ℕ) (text : List ℕ) → IsUtf8 text → 1 ≤ columns
        → width (chars (cell_of columns text)) ≡ columns }
{}
