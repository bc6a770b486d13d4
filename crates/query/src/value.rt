//! What the value of a word says.
ghost use Rattle.std.specs.Prelude.{◌≡◌};
ghost use Rattle.std.specs.Option.{option_map};
ghost use Rattle.query.specs.Words.{closed, cut_at, plain, value_of};

use crate::cut::cut_at;

/// The text of a value: what is between its quotes, or itself.
pub(crate) fn value_of(value: &str) -> Option<&str>
    ensures { option_map (λ x. x.now) result ≡ value_of value.now }
{
    match cut_at(value, '"') {
        None => plain(value),
        Some((before, rest)) => {
            if before.is_empty() {
                quoted(rest)
            } else {
                None
            }
        }
    }
}

// A value without quotes.
fn plain(value: &str) -> Option<&str>
    ensures { option_map (λ x. x.now) result ≡ plain value.now }
{
    if value.is_empty() { None } else { Some(value) }
}

// What is before the closing quote, if nothing follows it.
fn quoted(rest: &str) -> Option<&str>
    ensures { option_map (λ x. x.now) result ≡ closed (cut_at 34 rest.now) }
{
    let (inner, behind) = cut_at(rest, '"')?;
    if behind.is_empty() { Some(inner) } else { None }
}
