//! What is said of arguments that give no command, and the printed help.
use crate::arguments::{count_of, first_flag};
use crate::commands::{COMMANDS, Help};
use crate::say::say;
use words::Verb;

/// What the program is, and the kit that it is written for.
pub const VERSION: &str = "gitbug 0.1.0, written for rattle-kit-13f logic dac8208d650f15bf";

/// Prints the help or the version where the last argument asks for it, or else one line that says what is wrong.
pub fn explain_usage<R: Eprint>(rt: &R, words: &[String]) {
    match words {
        [.., last] if is_one_of(last.as_str(), ["--version", "-V", "--version"]) => {
            explain_version(rt);
        }
        [.., last] if is_one_of(last.as_str(), ["--help", "-h", "help"]) => explain_help(rt, words),
        [folder, name, rest @ ..] => explain_call(rt, folder.as_str(), name.as_str(), rest),
        [folder] => explain_alone(rt, folder.as_str()),
        [] => say(rt, &["a folder and a command are missing; ", LISTED]),
    }
}

// Where the commands are found.
const LISTED: &str = "gitbug --help lists the commands";

// A program cannot know how it was built. Those that build it record that.
fn explain_version<R: Eprint>(rt: &R) {
    let _ = eprintln!(rt; "{VERSION}");
    let _ = eprintln!(rt;
        "PROVED, beside the program, says whether it was built from proved crates"
    );
}

// The help of the command that is named, or of all.
fn explain_help<R: Eprint>(rt: &R, words: &[String]) {
    let named = match words {
        [_, name, _, ..] => help_of(name.as_str()),
        _ => None,
    };
    match named {
        Some(help) => explain_one(rt, help),
        None => explain_all(rt),
    }
}

fn explain_one<R: Eprint>(rt: &R, help: Help) {
    let Help { call, does, prints } = help;
    let _ = eprintln!(rt; "gitbug FOLDER {call}\n  {does}\n  prints {prints}");
}

fn explain_all<R: Eprint>(rt: &R) {
    let _ = eprintln!(rt; "gitbug FOLDER COMMAND ARGUMENTS");
    for help in COMMANDS {
        let Help { call, does, .. } = help;
        let _ = eprintln!(rt; "  {call:<22}{does}");
    }
    let _ = eprintln!(rt;
        "gitbug FOLDER COMMAND --help says more. Put -- before arguments that begin with -."
    );
}

// The help of the command of this name.
fn help_of(name: &str) -> Option<Help> {
    COMMANDS
        .iter()
        .find(|help| help.call.split(' ').next() == Some(name))
        .copied()
}

// One argument alone, which is a folder unless it is the name of a command.
fn explain_alone<R: Eprint>(rt: &R, folder: &str) {
    match help_of(folder) {
        Some(help) => explain_order(rt, help),
        None => say(
            rt,
            &[
                "a command is missing after the folder ",
                folder,
                "; ",
                LISTED,
            ],
        ),
    }
}

// What is wrong with a folder, a name and arguments that give no command.
fn explain_call<R: Eprint>(rt: &R, folder: &str, name: &str, rest: &[String]) {
    match (Verb::read(name), help_of(folder)) {
        (Some(verb), _) => explain_arguments(rt, verb, rest),
        (None, Some(help)) => explain_order(rt, help),
        (None, None) => say(rt, &["there is no command ", name, "; ", LISTED]),
    }
}

fn explain_order<R: Eprint>(rt: &R, help: Help) {
    say(rt, &["the folder comes first: gitbug FOLDER ", help.call]);
}

// What is wrong with the arguments of a command, and what it takes.
fn explain_arguments<R: Eprint>(rt: &R, verb: Verb, rest: &[String]) {
    let name = verb.name();
    let takes = match verb.takes() {
        "" => "no arguments",
        takes => takes,
    };
    match first_flag(rest) {
        Some(flag) => explain_flag(rt, name, takes, flag),
        None => explain_count(rt, name, takes, count_of(rest)),
    }
}

// An argument begins with a dash.
fn explain_flag<R: Eprint>(rt: &R, name: &str, takes: &str, flag: &str) {
    let _ = eprintln!(rt; "gitbug: {name} takes {takes}; '{flag}' begins with -: put -- before it");
}

// How many arguments were given.
fn explain_count<R: Eprint>(rt: &R, name: &str, takes: &str, count: usize) {
    let were = if count == 1 { "was" } else { "were" };
    let advice = match count > takes.split(' ').count() {
        true => "; put quotes around a text of several words",
        false => "",
    };
    let _ = eprintln!(rt; "gitbug: {name} takes {takes}, and {count} {were} given{advice}");
}

// Whether a word is one of three.
fn is_one_of(word: &str, asked: [&str; 3]) -> bool {
    asked.iter().any(|other| *other == word)
}
