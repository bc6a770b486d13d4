//! The arguments after the name of a command, as a person typed them.
use std::alloc::{AllocError, Global};

/// The argument at a place, counted from 1 without the `--` that is dropped; an empty one where there is none.
pub fn argument(rest: &[String], place: usize) -> &str {
    let at = match dashes(rest) {
        Some(at) if at < place => place,
        _ => place.saturating_sub(1),
    };
    match rest.get(at) {
        Some(word) => word.as_str(),
        None => "",
    }
}

/// How many arguments there are, without the `--` that is dropped.
pub fn count_of(rest: &[String]) -> usize {
    match dashes(rest) {
        Some(_) => rest.len().saturating_sub(1),
        None => rest.len(),
    }
}

/// The first argument that begins with `-`, is longer, and has no `--` before it.
pub fn first_flag(rest: &[String]) -> Option<&str> {
    for word in rest {
        let word = word.as_str();
        if word == "--" {
            return None;
        }
        if word.starts_with('-') && word.len() > 1 {
            return Some(word);
        }
    }
    None
}

/// The query of a list: its arguments, joined by one space.
pub fn query_of(alloc: Global, rest: &[String]) -> Result<String, AllocError> {
    let dropped = dashes(rest);
    let mut query = String::new(alloc);
    let mut space = "";
    for (at, word) in rest.iter().enumerate() {
        if Some(at) != dropped {
            query.push_str(space)?;
            query.push_str(word.as_str())?;
            space = " ";
        }
    }
    Ok(query)
}

// The place of the `--` that is dropped, counted from 0.
fn dashes(rest: &[String]) -> Option<usize> {
    rest.iter().position(|word| word.as_str() == "--")
}
