//! The commands, for people: the table of the printed help.

/// A command as people read of it.
#[derive(Clone, Copy)]
pub struct Help {
    /// What follows the folder: the name of the command, and what it takes.
    pub call: &'static str,
    /// What it does.
    pub does: &'static str,
    /// What it prints where it is done.
    pub prints: &'static str,
}

/// Each command once, in the order in which people read of them. The launcher reads this table too: of this file it takes
/// each text between quotes.
pub const COMMANDS: [Help; 23] = [
    Help {
        call: "user-new NAME EMAIL",
        does: "creates a person, the user if the folder lacks one",
        prints: "the person's id",
    },
    Help {
        call: "user-edit NAME EMAIL",
        does: "gives the user a new version",
        prints: "the user's id",
    },
    Help {
        call: "user-set ID",
        does: "makes this person the user",
        prints: "the id",
    },
    Help {
        call: "users",
        does: "lists the people",
        prints: "for each: id, name, email, and a star for the user",
    },
    Help {
        call: "new TITLE MESSAGE",
        does: "creates a bug with a first comment",
        prints: "the bug's id",
    },
    Help {
        call: "comment ID MESSAGE",
        does: "adds a comment",
        prints: "the operation's id",
    },
    Help {
        call: "title ID TITLE",
        does: "changes the title",
        prints: "the operation's id",
    },
    Help {
        call: "close ID",
        does: "closes the bug",
        prints: "the operation's id",
    },
    Help {
        call: "open ID",
        does: "opens the bug again",
        prints: "the operation's id",
    },
    Help {
        call: "label-add ID LABEL..",
        does: "adds labels",
        prints: "the operation's id",
    },
    Help {
        call: "label-rm ID LABEL..",
        does: "removes labels",
        prints: "the operation's id",
    },
    Help {
        call: "meta ID KEY VALUE",
        does: "sets a metadata key that is not set yet",
        prints: "the operation's id",
    },
    Help {
        call: "noop ID",
        does: "only records who acted and when",
        prints: "the operation's id",
    },
    Help {
        call: "edit COMMENT MESSAGE",
        does: "gives a comment another message",
        prints: "the operation's id",
    },
    Help {
        call: "show ID",
        does: "reads a bug",
        prints: "title, status, labels, people, metadata, comments",
    },
    Help {
        call: "log ID",
        does: "reads the commits of a bug",
        prints: "for each: edit clock and commit name",
    },
    Help {
        call: "ls QUERY..",
        does: "lists the bugs that a query asks for",
        prints: "id, status, title, author, comments, labels",
    },
    Help {
        call: "board QUERY..",
        does: "lists them as a table",
        prints: "lines, and how many are open and closed",
    },
    Help {
        call: "fetch REMOTE PEER",
        does: "copies commits of the folder PEER, as those of REMOTE",
        prints: "for each person and bug: what came of it",
    },
    Help {
        call: "merge REMOTE",
        does: "joins what was fetched from REMOTE with local heads",
        prints: "for each person and bug: what came of it",
    },
    Help {
        call: "pull REMOTE PEER",
        does: "fetches and then merges",
        prints: "for each person and bug: what came of it",
    },
    Help {
        call: "push PEER",
        does: "copies commits into the folder PEER",
        prints: "for each person and bug: what came of it",
    },
    Help {
        call: "pack-refs",
        does: "moves refs into one file",
        prints: "how many",
    },
];
