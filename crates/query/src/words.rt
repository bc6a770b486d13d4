//! The words of a query.
ghost use Rattle.std.specs.Prelude.{◌≡◌};
ghost use Rattle.query.specs.Reading.{Gives, Goes, all_taken, no_draft};
ghost use Rattle.query.specs.Words.{cuts, open_quote, opened, word_at, words_of};

use crate::QueryFault;
use crate::cut::turned;
use crate::draft::Draft;
use crate::read::read_term;
use std::alloc::Global;

/// The place of the quote that is not closed.
pub(crate) fn open_quote(text: &str) -> Option<usize>
    ensures { result ≡ open_quote text.now }
{
    let mut quote = None;
    for (place, b) in text.as_bytes().iter().enumerate() {
        quote = opened(quote, place, *b);
    }
    quote
}

// The place of the quote that is open after a byte at a place.
fn opened(quote: Option<usize>, place: usize, b: u8) -> Option<usize>
    ensures { result ≡ opened quote place b }
{
    if b != b'"' {
        return quote;
    }
    match quote {
        Some(_) => None,
        None => Some(place),
    }
}

/// What the words of a text say, or the first fault among them.
pub(crate) fn read_words(alloc: Global, text: &str) -> Result<Draft, QueryFault>
    ensures { Gives result (all_taken no_draft (words_of text.now)) }
{
    let mut draft = Draft::new(alloc);
    let mut start = 0;
    let mut inside = false;
    for (place, b) in text.as_bytes().iter().enumerate() {
        if cuts(inside, *b) {
            take_word(alloc, &mut draft, &text[start..place], start)?;
            start = place + 1;
        } else {
            inside = turned(inside, *b);
        }
    }
    take_word(alloc, &mut draft, &text[start..], start)?;
    Ok(draft)
}

// Whether a byte cuts: a blank outside quotes.
fn cuts(inside: bool, b: u8) -> bool
    ensures { result ≡ cuts inside b }
{
    !inside && (b == b' ' || b == b'\t')
}

// Takes the word at a place, unless it is empty.
fn take_word(alloc: Global, draft: &mut Draft, word: &str, at: usize) -> Result<(), QueryFault>
    ensures { Goes result draft.new (all_taken draft.old (word_at at word.now)) }
{
    if word.is_empty() {
        return Ok(());
    }
    let term = read_term(alloc, at as u64, word)?;
    draft.put(at as u64, term)
}
