//! Cutting a text: behind a front, at a byte, at its first empty line.
ghost use Rattle.std.specs.Prelude.{◌≡◌, true};
ghost use Rattle.std.specs.Option.{option_map};
ghost use Rattle.git_object.specs.Reading.{strip, cut_at, lines_at};

/// What follows the front.
pub(crate) fn after<'a>(bytes: &'a [u8], front: &[u8]) -> Option<&'a [u8]>
    ensures { option_map (λ rest. rest.now) result ≡ strip front.now bytes.now }
{
    bytes.strip_prefix(front)
}

/// The parts before and behind the first byte `at`.
pub(crate) fn cut(bytes: &[u8], at: u8) -> Option<(&[u8], &[u8])>
    ensures { option_map (λ parts. (parts.0.now, parts.1.now)) result ≡ cut_at at bytes.now }
{
    for (i, byte) in bytes.iter().enumerate() {
        if *byte == at {
            return Some((&bytes[..i], &bytes[i + 1..]));
        }
    }
    None
}

/// The lines before the first empty line, and what follows that line.
pub(crate) fn cut_lines(bytes: &[u8]) -> Option<(&[u8], &[u8])>
    ensures { option_map (λ parts. (parts.0.now, parts.1.now)) result ≡ lines_at true bytes.now }
{
    let mut begins = true;
    for (i, byte) in bytes.iter().enumerate() {
        let ends = *byte == b'\n';
        if begins && ends {
            return Some((&bytes[..i], &bytes[i + 1..]));
        }
        begins = ends;
    }
    None
}
