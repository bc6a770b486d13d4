//! The lines of a packed text.
ghost use Rattle.std.specs.Prelude.{◌≡◌, ◌≢◌, ◌<◌, ◌∷◌, [], length};
ghost use Rattle.std.specs.Option.{option_map};
ghost use Rattle.packed_refs.specs.Lines.{lines_of};
ghost use Rattle.packed_refs.specs.Packed.{is_peeled, line_is, packed_line, ref_line};

use gb_text::Name;

/// What a line of a packed text is: a note, which is a comment or the peeled object of the line
/// before, or a ref, with its name and its head.
#[derive(Clone, Copy)]
pub(crate) enum Line<'a> {
    Note,
    Ref { name: &'a [u8], head: Name },
}

/// The first line of a text that is not empty, without its line feed, and what follows it.
pub(crate) fn cut_line(text: &[u8]) -> (&[u8], &[u8])
    requires { text.now ≢ [] }
    ensures lines { lines_of text.now ≡ result.0.now ∷ lines_of result.1.now }
    ensures shorter { length result.1.now < length text.now }
{
    for (i, byte) in text.iter().enumerate() {
        if *byte == b'\n' {
            return (&text[..i], &text[i + 1..]);
        }
    }
    (text, &text[text.len()..])
}

/// What a line is, if it is one of a packed text.
pub(crate) fn read_line(line: &[u8]) -> Option<Line<'_>>
    ensures { option_map line_is result ≡ packed_line line.now }
{
    if line.starts_with(b"#") || is_peeled(line) {
        return Some(Line::Note);
    }
    read_ref(line)
}

// Whether a line is the peeled object of the line before.
fn is_peeled(line: &[u8]) -> bool
    ensures { result ≡ is_peeled line.now }
{
    line.starts_with(b"^") && Name::read(&line[1..]).is_some()
}

// The ref of a line, if it is one of a ref.
fn read_ref(line: &[u8]) -> Option<Line<'_>>
    ensures { option_map line_is result ≡ ref_line line.now }
{
    if line.len() > 41 && line[40] == b' ' {
        match Name::read(&line[..40]) {
            Some(head) => Some(Line::Ref {
                name: &line[41..],
                head,
            }),
            None => None,
        }
    } else {
        None
    }
}
