//! What is said of a refusal, after its line on standard output.
use crate::arguments::argument;
use crate::bad_words::explain_words;
use crate::guard::is_there;
use crate::say::{say, say_number};
use bug_run::Refused;
use gb_text::Id;
use repo_steps::Refusal;
use std::fmt;
use std::rt::Files;

/// A call that was refused: the folder, the name of the command, and what follows it.
#[derive(Clone, Copy)]
pub struct Call<'a> {
    pub folder: &'a str,
    pub name: &'a str,
    pub rest: &'a [String],
}

/// Says why a call was refused, and what helps.
pub fn explain_refusal<R: Files + Eprint + AllocGlobal>(rt: &R, call: Call, refused: &Refused) {
    match refused {
        Refused::ByWords(bad) => explain_words(rt, call, *bad),
        Refused::ByCommand(refusal) => explain_command(rt, call, refusal),
        Refused::SomeLines(count) => explain_lines(rt, call.name, *count),
    }
}

// How many of the lines that were printed are refusals.
fn explain_lines<R: Eprint>(rt: &R, name: &str, count: u64) {
    let lines = match (count, name) {
        (1, "push") => " line is a refusal; where it says not-forward: pull, then push again",
        (1, _) => " line is a refusal",
        (_, "push") => " lines are refusals; where one says not-forward: pull, then push again",
        _ => " lines are refusals",
    };
    say_number(rt, "", count, lines);
}

// Why a command was refused by what it found.
fn explain_command<R: Files + Eprint>(rt: &R, call: Call, refusal: &Refusal) {
    match refusal {
        Refusal::NoUser => explain_no_user(rt, call),
        Refusal::NotFound => explain_not_found(rt, call.name, argument(call.rest, 1)),
        Refusal::Ambiguous(one, other) => explain_ambiguous(rt, argument(call.rest, 1), one, other),
        Refusal::TooLarge(limit) => say(rt, &[too_large(*limit)]),
        Refusal::Damaged(path) => say(rt, &[path.as_str(), DAMAGED]),
        _ => say(rt, &[why(refusal, call.name)]),
    }
}

const DAMAGED: &str =
    ", or something that it leads to, is damaged: a folder that exchanged with this one may have it whole";

// Why a command was refused where nothing that was typed needs to be repeated.
fn why(refusal: &Refusal, name: &str) -> &'static str {
    match (refusal, name) {
        (Refusal::NoLabelChange, "label-add") => "the bug has all these labels already",
        (Refusal::NoLabelChange, _) => "the bug has none of these labels",
        (Refusal::SameStatus, "close") => "the bug is closed already",
        (Refusal::SameStatus, _) => "the bug is open already",
        (Refusal::ClockFull(_), _) => "the bug takes no more edits: its edit clock is full",
        (Refusal::NameTaken(_), "merge" | "pull") => {
            "another object has the name that a merge commit would get; bugs before it were merged"
        }
        (Refusal::NameTaken(_), _) => "another object has the name that a new one would get",
        _ => "the id that was drawn at random is taken: give the command again",
    }
}

// Which limit a count is above.
fn too_large(count: u64) -> &'static str {
    match count {
        65_537 => "no more than 65,536 versions of a person, or commits of a bug, are kept",
        4_194_305 => "an object may have 4,194,304 bytes: shorten the text",
        _ => "the file of packed refs may have 16,777,216 bytes: refs stay as they are",
    }
}

// There is no user. One who is known to the peer need not be made again.
fn explain_no_user<R: Files + Eprint>(rt: &R, call: Call) {
    let folder = call.folder;
    match is_there(rt, folder) {
        true => say(
            rt,
            &[
                folder,
                " has no user: user-new NAME EMAIL makes one, user-set ID takes one of 'users'",
            ],
        ),
        false => say(
            rt,
            &[
                folder,
                " does not exist: user-new NAME EMAIL makes it, and its user",
            ],
        ),
    }
    match call.name {
        "merge" => explain_own(rt, folder, "PEER"),
        "pull" => explain_own(rt, folder, argument(call.rest, 2)),
        _ => {}
    }
}

// How the person that one is in the peer becomes the user here.
fn explain_own<R: Eprint>(rt: &R, folder: &str, peer: &str) {
    say(
        rt,
        &[
            "to stay who you are in ",
            peer,
            ": gitbug ",
            peer,
            " push ",
            folder,
            ", then gitbug ",
            folder,
            " user-set ID",
        ],
    );
}

// Nothing has the id.
fn explain_not_found<R: Eprint>(rt: &R, name: &str, id: &str) {
    if !is_hexadecimal(id) {
        return say(
            rt,
            &[
                "'",
                id,
                "' is not the beginning of an id, which has 64 digits from 0 to 9 and a to f",
            ],
        );
    }
    let (what, help) = match name {
        "edit" => ("comment", ": give the id after comment in show"),
        "user-set" => ("person", ": 'users' lists them"),
        _ => ("bug", ": 'ls' lists them"),
    };
    say(rt, &["no ", what, " has an id that begins with ", id, help]);
}

// Whether a text may begin an id.
fn is_hexadecimal(text: &str) -> bool {
    (1..65).contains(&text.len()) && text.bytes().all(|b| matches!(b, b'0'..=b'9' | b'a'..=b'f'))
}

// Several ids begin with a text. These two are the least.
fn explain_ambiguous<R: Eprint>(rt: &R, text: &str, one: &Id, other: &Id) {
    let count = count_to_tell(&one.text(), &other.text());
    let one = Digits { id: one, count };
    let other = Digits { id: other, count };
    let _ = eprintln!(rt;
        "gitbug: several ids begin with {text}, {one} and {other} among them: give more digits"
    );
}

// How many digits tell two ids apart: seven, or as many as are needed.
fn count_to_tell(one: &[u8; 64], other: &[u8; 64]) -> usize {
    let same = one.iter().zip(other).take_while(|(a, b)| a == b).count();
    same.saturating_add(1).max(7)
}

// The first digits of an id.
#[derive(Clone, Copy)]
struct Digits<'a> {
    id: &'a Id,
    count: usize,
}

impl<'a> fmt::Display for Digits<'a> {
    fn fmt<W: fmt::Write>(&self, f: &mut fmt::Formatter<W>) -> fmt::Result {
        for digit in self.id.text().iter().take(self.count) {
            f.write_char(char::from(*digit))?;
        }
        Ok(())
    }
}
