//! What is said of arguments that are refused before a folder is looked at.
use crate::arguments::{argument, query_of};
use crate::refusals::Call;
use crate::say::say;
use std::fmt;
use words::{BadQuery, BadWord, Verb};

/// Says why arguments are refused.
pub fn explain_words<R: Eprint + AllocGlobal>(rt: &R, call: Call, bad: BadWord) {
    match bad {
        BadWord::BadFolder => explain_folder(rt, call),
        BadWord::BadText(place) => explain_text(rt, call, place as usize),
        BadWord::SameFolder => say(rt, &[call.folder, " and ", peer_of(call), OVERLAP]),
        BadWord::BadRemoteName => say(rt, &["'", argument(call.rest, 1), REMOTE]),
        BadWord::BadQuery(bad) => explain_query(rt, call.rest, bad),
    }
}

const OVERLAP: &str = " overlap: the peer is another folder, neither inside this one nor around it";

const REMOTE: &str = "' is not the name of a remote: that has 1 to 64 letters, digits, _ or -";

// The argument for the peer.
fn peer_of<'a>(call: Call<'a>) -> &'a str {
    match call.name {
        "push" => argument(call.rest, 1),
        _ => argument(call.rest, 2),
    }
}

// The argument for the folder or for the peer names none.
fn explain_folder<R: Eprint>(rt: &R, call: Call) {
    match why_bad(call.folder) {
        Some(why) => say_bad(rt, "the folder '", call.folder, why),
        None => explain_peer(rt, peer_of(call)),
    }
}

fn explain_peer<R: Eprint>(rt: &R, peer: &str) {
    if let Some(why) = why_bad(peer) {
        say_bad(rt, "the peer '", peer, why);
    }
}

fn say_bad<R: Eprint>(rt: &R, what: &str, folder: &str, why: &str) {
    say(rt, &[what, folder, "' ", why]);
}

// Why an argument names no folder.
fn why_bad(folder: &str) -> Option<&'static str> {
    if folder.is_empty() {
        return Some("is empty: give . for this one");
    }
    if has_control(folder) {
        return Some("has a control character");
    }
    match folder.split('/').any(|part| part == "..") {
        true => Some(
            "has a part '..': give the path from the root, or call gitbug from further up",
        ),
        false => None,
    }
}

fn has_control(text: &str) -> bool {
    text.chars().any(|c| c.is_control())
}

// The argument at a place breaks its rule.
fn explain_text<R: Eprint>(rt: &R, call: Call, place: usize) {
    let name = name_of(call.name, place);
    match (has_control(argument(call.rest, place)), name) {
        (true, "MESSAGE" | "VALUE") => say(
            rt,
            &[
                name,
                " has a control character other than line feed, return and tab",
            ],
        ),
        (true, _) => say(
            rt,
            &[
                name,
                " has a control character, such as a line feed or a tab",
            ],
        ),
        (false, _) => say(rt, &[name, " is blank"]),
    }
}

// What the help calls the argument at a place. The last one may be given several times.
fn name_of(command: &str, place: usize) -> &'static str {
    let Some(verb) = Verb::read(command) else {
        return "an argument";
    };
    let takes = verb.takes();
    let name = takes.split(' ').take(place).last().unwrap_or(takes);
    name.strip_suffix("..").unwrap_or(name)
}

// The query, and where it is at fault.
fn explain_query<R: Eprint + AllocGlobal>(rt: &R, rest: &[String], bad: BadQuery) {
    let Ok(query) = query_of(rt.alloc(), rest) else {
        return;
    };
    let place = match bad {
        BadQuery::UnknownField(place) | BadQuery::BadValue(place) | BadQuery::OpenQuote(place) =>
            place,
    };
    let (before, from) = query
        .as_str()
        .split_at_checked(place as usize)
        .unwrap_or(("", ""));
    say(rt, &[why_query(bad, from)]);
    let mark = Mark { before };
    let _ = eprintln!(rt; "  {query}\n  {mark}");
}

// Why a query is refused, whose rest begins with the word at fault.
fn why_query(bad: BadQuery, from: &str) -> &'static str {
    match bad {
        BadQuery::UnknownField(_) => FIELDS,
        BadQuery::OpenQuote(_) => "this quote is not closed",
        BadQuery::BadValue(_) => match from.split_once(':') {
            Some((field, _)) => values_of(field),
            None => FIELDS,
        },
    }
}

const FIELDS: &str =
    "a word of a query is FIELD:VALUE, and a FIELD is one of status, author, participant, actor, label, title, \
    metadata, no and sort";

// The values of a field of a query.
fn values_of(field: &str) -> &'static str {
    match field {
        "status" => "the status of a bug is open or closed",
        "no" => "no:label is the only use of no",
        "sort" =>
            "sort is given once, by id, creation or edit, each with -asc or -desc at its end if need be",
        "metadata" =>
            "metadata is given as metadata:KEY:VALUE, with quotes around a text that is empty or has blanks",
        _ => "a value is a text, with quotes around all of it if it is empty or has blanks",
    }
}

// A mark below the place after a text.
#[derive(Clone, Copy)]
struct Mark<'a> {
    before: &'a str,
}

impl<'a> fmt::Display for Mark<'a> {
    fn fmt<W: fmt::Write>(&self, f: &mut fmt::Formatter<W>) -> fmt::Result {
        for _ in self.before.chars() {
            f.write_str(" ")?;
        }
        f.write_str("^")
    }
}
