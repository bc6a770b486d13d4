//! Which texts are lines, titles and messages.
ghost use Rattle.std.specs.Prelude.{◌≡◌, ◌&&◌, not};
ghost use Rattle.std.specs.Char.{is_whitespace};
ghost use Rattle.std.specs.List.{list_any};
ghost use Rattle.std.specs.Str.{chars};
ghost use Rattle.gb_text.specs.Rules.{is_control, is_line_text, is_title_text, is_message_text};

// U+0000 to U+001F and U+007F to U+009F.
fn is_control(c: char) -> bool
    ensures { result ≡ is_control c }
{
    let code = c as u32;
    code < 32 || (code >= 127 && code <= 159)
}

/// Whether the text has no control character (Unicode's class Cc). The empty text is a line.
pub fn is_line(text: &str) -> bool
    ensures { result ≡ is_line_text text.now }
{
    text.chars().all(|c| !is_control(c))
}

/// Whether the text is a line with some character that is not white space (Unicode's
/// White_Space). Titles and labels are such texts.
pub fn is_title(text: &str) -> bool
    ensures { result ≡ is_title_text text.now }
{
    is_line(text) && shows(text)
}

fn shows(text: &str) -> bool
    ensures { result ≡ list_any (λ c. not (is_whitespace c)) (chars text.now) }
{
    text.chars().any(|c| !c.is_whitespace())
}

/// Whether the text has no control character but LF, CR and TAB. The empty text is a message.
pub fn is_message(text: &str) -> bool
    ensures { result ≡ is_message_text text.now }
{
    text.chars()
        .all(|c| !is_control(c) || c == '\n' || c == '\r' || c == '\t')
}
