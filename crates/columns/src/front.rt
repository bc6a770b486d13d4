//! The longest prefix of a text that fits into some columns.
ghost use Rattle.std.specs.Prelude.{◌≡◌, ◌≤◌, chars, encode_utf8_all};
ghost use Rattle.columns.specs.Cells.{front_of};
ghost use Rattle.columns.specs.Widths.{Follows, width};

use crate::step::added_width;
use unicode_width::UnicodeWidthStr;

/// The longest prefix such that it and every shorter prefix fit. No character after the first that
/// does not fit is looked at.
pub(crate) fn front(text: &str, most: usize) -> &str
    requires { most ≤ 200 }
    ensures spells { result.now ≡ encode_utf8_all (front_of most text.now) }
    ensures characters { chars result.now ≡ front_of most text.now }
    ensures fits { width (front_of most text.now) ≤ most }
{
    let mut end = 0;
    let mut width = 0;
    for c in text.chars() {
        let next = end + c.len_utf8();
        let wider = wider(&text[..next], c, width);
        if wider > most {
            return &text[..end];
        }
        end = next;
        width = wider;
    }
    text
}

// The width of a text that ends with `c`, where `before` is that of the text before it.
fn wider(text: &str, c: char, before: usize) -> usize
    requires { Follows text.now c before }
    ensures { result ≡ width (chars text.now) }
{
    match added_width(c) {
        Some(added) => before + added,
        None => text.width(),
    }
}
