//! Texts without regard to case.
ghost use Rattle.std.specs.Prelude.{◌≡◌, IfOk};
ghost use Rattle.query.specs.Matching.{folded, occurs};

use caseless::default_case_fold_str;
use gb_text::{Memory, Text};
use std::alloc::Global;

/// A text, folded: texts that differ in case alone become one.
pub(crate) fn fold(alloc: Global, text: &str) -> Result<Text, Memory>
    ensures { IfOk result (λ out. out ≡ folded text.now) }
{
    Ok(Text::from_string(default_case_fold_str(alloc, text)?))
}

/// Whether the first text contains the second.
pub(crate) fn occurs(text: &str, word: &str) -> bool
    ensures { result ≡ occurs text.now word.now }
{
    text.contains(word)
}
