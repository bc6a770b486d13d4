//! The names of commands, each with the arguments that it takes: the table by which arguments are
//! read, and by which people are told of them.
ghost use Rattle.std.specs.Prelude.{◌≡◌};
ghost use Rattle.words.specs.Verbs.{name_of, other_of, verb_among, verb_of};

use bug_edits::EditName;

/// A command by its name.
#[derive(Clone, Copy, Debug, PartialEq, Eq)]
pub enum Verb {
    UserNew,
    UserEdit,
    UserSet,
    Users,
    New,
    /// An edit of a bug.
    OfBug(EditName),
    /// Another message of a comment.
    Edit,
    Show,
    Log,
    Ls,
    Board,
    Fetch,
    Merge,
    Pull,
    Push,
    PackRefs,
}

/// The commands of which people are told before the edits of a bug, in this order.
pub const FIRST_VERBS: [Verb; 5] = [
    Verb::UserNew,
    Verb::UserEdit,
    Verb::UserSet,
    Verb::Users,
    Verb::New,
];

/// The commands of which people are told after the edits of a bug, in this order.
pub const LAST_VERBS: [Verb; 10] = [
    Verb::Edit,
    Verb::Show,
    Verb::Log,
    Verb::Ls,
    Verb::Board,
    Verb::Fetch,
    Verb::Merge,
    Verb::Pull,
    Verb::Push,
    Verb::PackRefs,
];

impl Verb {
    /// The command of this name, if there is one.
    pub fn read(name: &str) -> Option<Verb>
        ensures { result ≡ verb_of name.now }
    {
        match other(name) {
            Some(verb) => Some(verb),
            None => match EditName::read(name) {
                Some(edit) => Some(Verb::OfBug(edit)),
                None => None,
            },
        }
    }

    /// Its name.
    pub fn name(self) -> &'static str
        ensures { result.now ≡ name_of self }
    {
        match self {
            Verb::UserNew => "user-new",
            Verb::UserEdit => "user-edit",
            Verb::UserSet => "user-set",
            Verb::Users => "users",
            Verb::New => "new",
            Verb::OfBug(edit) => edit.name(),
            Verb::Edit => "edit",
            Verb::Show => "show",
            Verb::Log => "log",
            Verb::Ls => "ls",
            Verb::Board => "board",
            Verb::Fetch => "fetch",
            Verb::Merge => "merge",
            Verb::Pull => "pull",
            Verb::Push => "push",
            Verb::PackRefs => "pack-refs",
        }
    }

    /// The arguments after the name, for people. Two dots say that the last may be given several
    /// times; a query may also be left out.
    pub fn takes(self) -> &'static str {
        match self {
            Verb::UserNew | Verb::UserEdit => "NAME EMAIL",
            Verb::Users | Verb::PackRefs => "",
            Verb::New => "TITLE MESSAGE",
            Verb::OfBug(edit) => edit.takes(),
            Verb::Edit => "COMMENT MESSAGE",
            Verb::UserSet | Verb::Show | Verb::Log => "ID",
            Verb::Ls | Verb::Board => "QUERY..",
            Verb::Fetch | Verb::Pull => "REMOTE PEER",
            Verb::Merge => "REMOTE",
            Verb::Push => "PEER",
        }
    }
}

// The command of this name that is no edit of a bug.
fn other(name: &str) -> Option<Verb>
    ensures { result ≡ other_of name.now }
{
    match among(&FIRST_VERBS, name) {
        Some(verb) => Some(verb),
        None => among(&LAST_VERBS, name),
    }
}

// The one of these that has the name.
fn among(verbs: &[Verb], name: &str) -> Option<Verb>
    ensures { result ≡ verb_among verbs.now name.now }
{
    verbs.iter().find(|verb| verb.name() == name).copied()
}
