//! Characters that add the same width to every text that they follow.
ghost use Rattle.std.specs.Prelude.{◌≡◌, ◌≤◌, IfSome};
ghost use Rattle.columns.specs.Widths.{AddsWidth, is_mark, is_printable};

use unicode_width::UnicodeWidthChar;

/// The width that a character adds to every text that it follows, if that is known: printable ASCII
/// adds one column, and a mark without a width none. So long runs of them are measured only once.
pub(crate) fn added_width(c: char) -> Option<usize>
    ensures adds { IfSome result (AddsWidth c) }
    ensures small { IfSome result (λ added. added ≤ 1) }
{
    if is_printable(c) {
        Some(1)
    } else if is_mark(c) {
        Some(0)
    } else {
        None
    }
}

// Whether a character is printable ASCII.
fn is_printable(c: char) -> bool
    ensures { result ≡ is_printable c }
{
    ' ' <= c && c <= '~'
}

// Whether a character has no width, and is no variation selector.
fn is_mark(c: char) -> bool
    ensures { result ≡ is_mark c }
{
    c > '\u{a0}' && c.width() == Some(0) && !('\u{fe00}' <= c && c <= '\u{fe0f}')
}
