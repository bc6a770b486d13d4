//! Texts that satisfy a rule, each of a type that keeps the fact.
ghost use Rattle.std.specs.Prelude.{◌≡◌, true};
ghost use Rattle.std.specs.Str.{is_utf8};
ghost use Rattle.gb_text.specs.Rules.{is_line_text, is_message_text, is_title_text};

use crate::{Memory, Text, is_line, is_message, is_title};
use std::alloc::Global;

/// A text without control characters (Unicode's class Cc). The empty text is one.
#[derive(Debug, Drop)]
pub struct Line {
    pub text: Text,
    pub ghost utf8: { is_utf8 text ≡ true },
    pub ghost is_line: { is_line_text text ≡ true },
}

impl Line {
    ghost use Rattle.std.specs.Prelude.{IfOk, OnErr, IsSome};
    ghost use Rattle.gb_text.specs.Ruled.{line_of};

    /// The line that a text is, if it is one. Takes no memory otherwise.
    #[tactic(auto, using(crate::proofs::RuledLemmas::copied_line, crate::proofs::RuledLemmas::no_line, crate::proofs::RuledLemmas::is_a_line, crate::proofs::RuledLemmas::copy_is_utf8))]
    pub fn read(alloc: Global, text: &str) -> Result<Option<Line>, Memory>
        ensures read { IfOk result (λ read. read ≡ line_of text.now) }
        ensures memory { OnErr result (IsSome (line_of text.now)) }
    {
        if !is_line(text) {
            return Ok(None);
        }
        let text = Text::from_str(alloc, text)?;
        Ok(Some(Line { text }))
    }

    /// Its text.
    pub fn as_str(&self) -> &str
        ensures { result.now ≡ self.now.text }
    {
        self.text.as_str()
    }
}

/// A line with some character that is not white space (Unicode's White_Space): a title, a name, a label
/// or a key.
#[derive(Debug, Drop)]
pub struct Title {
    pub text: Text,
    pub ghost utf8: { is_utf8 text ≡ true },
    pub ghost is_title: { is_title_text text ≡ true },
}

impl Title {
    ghost use Rattle.std.specs.Prelude.{IfOk, OnErr, IsSome};
    ghost use Rattle.gb_text.specs.Ruled.{title_of};

    /// The title that a text is, if it is one. Takes no memory otherwise.
    #[tactic(auto, using(crate::proofs::RuledLemmas::copied_title, crate::proofs::RuledLemmas::no_title, crate::proofs::RuledLemmas::is_a_title, crate::proofs::RuledLemmas::copy_is_utf8))]
    pub fn read(alloc: Global, text: &str) -> Result<Option<Title>, Memory>
        ensures read { IfOk result (λ read. read ≡ title_of text.now) }
        ensures memory { OnErr result (IsSome (title_of text.now)) }
    {
        if !is_title(text) {
            return Ok(None);
        }
        let text = Text::from_str(alloc, text)?;
        Ok(Some(Title { text }))
    }

    /// Its text.
    pub fn as_str(&self) -> &str
        ensures { result.now ≡ self.now.text }
    {
        self.text.as_str()
    }
}

/// A text of several lines: without control characters but LF, CR and TAB. The empty text is one.
#[derive(Debug, Drop)]
pub struct Message {
    pub text: Text,
    pub ghost utf8: { is_utf8 text ≡ true },
    pub ghost is_message: { is_message_text text ≡ true },
}

impl Message {
    ghost use Rattle.std.specs.Prelude.{IfOk, OnErr, IsSome};
    ghost use Rattle.gb_text.specs.Ruled.{message_of};

    /// The message that a text is, if it is one. Takes no memory otherwise.
    #[tactic(auto, using(crate::proofs::RuledLemmas::copied_message, crate::proofs::RuledLemmas::no_message, crate::proofs::RuledLemmas::is_a_message, crate::proofs::RuledLemmas::copy_is_utf8))]
    pub fn read(alloc: Global, text: &str) -> Result<Option<Message>, Memory>
        ensures read { IfOk result (λ read. read ≡ message_of text.now) }
        ensures memory { OnErr result (IsSome (message_of text.now)) }
    {
        if !is_message(text) {
            return Ok(None);
        }
        let text = Text::from_str(alloc, text)?;
        Ok(Some(Message { text }))
    }

    /// Its text.
    pub fn as_str(&self) -> &str
        ensures { result.now ≡ self.now.text }
    {
        self.text.as_str()
    }
}
