//! One line feed at the end of a small file.
ghost use Rattle.std.specs.Prelude.{◌≡◌};
ghost use Rattle.gb_text.specs.LineEnd.{line_of};

/// The text without one LF at its end, where it has one. Files of one line are read so.
pub fn without_line_end(text: &[u8]) -> &[u8]
    ensures { result.now ≡ line_of text.now }
{
    text.strip_suffix(b"\n").unwrap_or(text)
}
