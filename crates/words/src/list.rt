//! A list of the bugs of a folder, read from its arguments.
ghost use Rattle.std.specs.Prelude.{◌≡◌, IfOk, None, Some, map, string_bytes};
ghost use Rattle.gb_text.specs.Folder.{folder_of};
ghost use Rattle.query.specs.Reading.{query_of};
ghost use Rattle.words.specs.Words.{asked_by, list_in, list_of, query_or_bad, spaced};

use crate::words::{Asked, BadWord, read_folder};
use gb_text::{Folder, Memory};
use query::{Query, QueryFault};
use std::alloc::{AllocError, Global};

/// How a list of bugs is laid out.
#[derive(Clone, Copy, Debug, PartialEq, Eq)]
pub enum Layout {
    /// A line of parts for each bug.
    Lines,
    /// A board of columns.
    Board,
}

/// A list of bugs, the folder that it is for, its layout, and the query that the bugs match.
#[derive(Drop)]
pub struct ListRequest {
    pub folder: Folder,
    pub layout: Layout,
    pub query: Query,
}

/// Why a query is refused. A place is an offset in bytes in the query, which is the arguments joined
/// by one space.
#[derive(Clone, Copy, Debug, PartialEq, Eq)]
pub enum BadQuery {
    /// The word at this place has no field that is known.
    UnknownField(u64),
    /// The value of the word at this place is not one of its field, or the word is a second `sort`.
    BadValue(u64),
    /// The quote at this place is not closed.
    OpenQuote(u64),
}

/// What a command of this layout asks with these arguments, which are a query, any number of them. A
/// bad query is refused after a bad folder.
pub(crate) fn list(
    alloc: Global,
    folder: &str,
    layout: Layout,
    arguments: &[&str],
) -> Result<Asked, Memory>
    ensures { IfOk result (λ asked. asked ≡ asked_by (folder_of folder.now) None None None
        (list_of layout (map (λ s. s.now) arguments.now))) }
{
    let folder = read_folder(alloc, folder)?;
    let text = spaced(alloc, arguments)?;
    let query = read_query(alloc, text.as_str())?;
    Ok(list_in(folder, layout, query))
}

// Arguments as one text, with one space between each two.
fn spaced(alloc: Global, arguments: &[&str]) -> Result<String, AllocError>
    ensures { IfOk result (λ text.
        string_bytes text ≡ spaced (map (λ s. s.now) arguments.now)) }
{
    arguments.join(alloc, " ")
}

// The query of a text, or why it is refused.
fn read_query(alloc: Global, text: &str) -> Result<Result<Query, BadQuery>, Memory>
    ensures { IfOk result (λ read. query_or_bad (query_of text.now) ≡ Some read) }
{
    match Query::read(alloc, text) {
        Ok(query) => Ok(Ok(query)),
        Err(QueryFault::UnknownField(place)) => Ok(Err(BadQuery::UnknownField(place))),
        Err(QueryFault::BadValue(place)) => Ok(Err(BadQuery::BadValue(place))),
        Err(QueryFault::OpenQuote(place)) => Ok(Err(BadQuery::OpenQuote(place))),
        Err(QueryFault::Memory) => Err(Memory),
    }
}

// A list in a folder: a bad one is refused before a bad query.
fn list_in(folder: Option<Folder>, layout: Layout, query: Result<Query, BadQuery>) -> Asked
    ensures { result ≡ list_in folder layout query }
{
    match (folder, query) {
        (None, _) => Asked::Refused(BadWord::BadFolder),
        (Some(_), Err(bad)) => Asked::Refused(BadWord::BadQuery(bad)),
        (Some(folder), Ok(query)) => Asked::List(ListRequest {
            folder,
            layout,
            query,
        }),
    }
}
