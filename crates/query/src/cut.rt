//! Where a text is cut at a byte of ASCII.
ghost use Rattle.std.specs.Prelude.{◌≡◌, ◌<◌, ◌+◌, false, length, take, drop, slice_index};
ghost use Rattle.std.specs.Option.{option_map};
ghost use Rattle.query.specs.Words.{cut_at, cut_outside, turned};

/// The part before the first of this character, and the part after it.
pub(crate) fn cut_at(text: &str, mark: char) -> Option<(&str, &str)>
    requires { mark < 128 }
    ensures { option_map (λ x. (x.0.now, x.1.now)) result ≡ cut_at mark text.now }
{
    text.split_once(mark)
}

/// The part before the first colon outside quotes, and the part after it.
pub(crate) fn cut_outside(text: &str) -> Option<(&str, &str)>
    ensures { option_map (λ x. (x.0.now, x.1.now)) result ≡ cut_outside false text.now }
{
    let mut inside = false;
    for (place, b) in text.as_bytes().iter().enumerate() {
        if !inside && *b == b':' {
            return Some(around(text, place));
        }
        inside = turned(inside, *b);
    }
    None
}

/// Whether the place after a byte is inside quotes: each quote opens or closes.
pub(crate) fn turned(inside: bool, b: u8) -> bool
    ensures { result ≡ turned inside b }
{
    if b == b'"' { !inside } else { inside }
}

// The part before a byte of ASCII, and the part after it.
fn around(text: &str, place: usize) -> (&str, &str)
    requires within { place < length text.now }
    requires ascii { slice_index text.now place < 128 }
    ensures front { result.0.now ≡ take place text.now }
    ensures back { result.1.now ≡ drop (place + 1) text.now }
{
    (&text[..place], &text[place + 1..])
}
