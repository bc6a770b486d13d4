//! How far bytes of a class reach at the front of a text.

ghost use Rattle.std.specs.Prelude.{◌≡◌, ◌≤◌, length, take};
ghost use Rattle.std.specs.List.{list_all};
ghost use Rattle.json_span.specs.Grammar.{Each, is_digit, is_plain, is_space};

use crate::bytes::{digit, plain, space};

// As many bytes are tested at once, where there are so many: a test of all of them without a branch
// is one of a few vectors.
const CHUNK: usize = 16;

// Whether each byte stands for itself in a string.
fn are_plain(bytes: &[u8]) -> bool
    ensures { result ≡ list_all is_plain bytes.now }
{
    let mut all = true;
    for b in bytes {
        all = plain(*b) & all;
    }
    all
}

// How many chunks' bytes at the front of a text stand for themselves in a string.
fn plain_chunks(text: &[u8]) -> usize
    ensures within { result ≤ length text.now }
    ensures each { Each is_plain (take result text.now) }
{
    let mut front = 0;
    'chunks: while text.len() - front >= CHUNK {
        if !are_plain(&text[front..front + CHUNK]) {
            return front;
        }
        front += CHUNK;
    }
    front
}

/// How many bytes at the front of a text stand for themselves in a string.
pub fn plain_front(text: &[u8]) -> usize
    ensures within { result ≤ length text.now }
    ensures each { Each is_plain (take result text.now) }
{
    let front = plain_chunks(text);
    front + plain_bytes(&text[front..])
}

/// The same, byte by byte.
pub fn plain_bytes(text: &[u8]) -> usize
    ensures within { result ≤ length text.now }
    ensures each { Each is_plain (take result text.now) }
{
    for (place, b) in text.iter().enumerate() {
        if !plain(*b) {
            return place;
        }
    }
    text.len()
}

/// How many bytes at the front of a text are digits.
pub fn digit_front(text: &[u8]) -> usize
    ensures within { result ≤ length text.now }
    ensures each { Each is_digit (take result text.now) }
{
    for (place, b) in text.iter().enumerate() {
        if !digit(*b) {
            return place;
        }
    }
    text.len()
}

/// How many bytes at the front of a text are white space.
pub fn space_front(text: &[u8]) -> usize
    ensures within { result ≤ length text.now }
    ensures each { Each is_space (take result text.now) }
{
    for (place, b) in text.iter().enumerate() {
        if !space(*b) {
            return place;
        }
    }
    text.len()
}
