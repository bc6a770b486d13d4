//! Words that are the first digits of ids, where ids share some.
use fixtures::Disk;
use run_fixtures::Row::{self, Done, Refused};
use run_fixtures::hold;
use std::test::Fail;

// Two bugs whose ids begin with `b9`. Ids are those that a script apart from the program makes of the format.
const BUGS: &[Row] = &[
    Done(
        &["f", "user-new", "Ana", "ana@x"],
        1,
        "a206955f92c7be1bb318733460d3b85e208c8b1c8fb805c6d9991de1e0f35c00\n",
        5,
    ),
    Done(
        &["f", "new", "Login fails", "Since monday"],
        2,
        "b946b7380c3eb77a68d0dc6a49f8fb74554aad7c4dc3167cb4fe898d15cbfc63\n",
        12,
    ),
    Done(
        &["f", "log", "b"],
        0,
        "1 d132c3385e8e582cab45db797188e127b7452808\n",
        12,
    ),
    Done(
        &["f", "new", "Login fails", "Since monday"],
        222,
        "b928f3ff670f1c2f3bfeda25cd1ab7adb01df44fa60eeea17d775d1a3aacedd1\n",
        18,
    ),
    Refused(&["f", "log", "b"], 0, SEVERAL_BUGS, 18),
    Refused(&["f", "show", "b9"], 0, SEVERAL_BUGS, 18),
    Refused(&["f", "comment", "b9", "hi"], 3, SEVERAL_BUGS, 18),
    Done(
        &["f", "log", "b94"],
        0,
        "1 d132c3385e8e582cab45db797188e127b7452808\n",
        18,
    ),
    Done(
        &[
            "f",
            "log",
            "b946b7380c3eb77a68d0dc6a49f8fb74554aad7c4dc3167cb4fe898d15cbfc6",
        ],
        0,
        "1 d132c3385e8e582cab45db797188e127b7452808\n",
        18,
    ),
    Done(
        &["f", "comment", "b946b73", "hi"],
        3,
        "e4935016ce47972c287159671c9cc66a5f1ce2e49e398d1357bb86791390ebde\n",
        23,
    ),
];

const SEVERAL_BUGS: &str =
    "3 ambiguous b928f3ff670f1c2f3bfeda25cd1ab7adb01df44fa60eeea17d775d1a3aacedd1 b946b7380c3eb77a68d0dc6a49f8fb74554aad7c4dc3167cb4fe898d15cbfc63";

// No id begins with these.
const STRANGE: &[Row] = &[
    Refused(&["f", "log", "b95"], 0, "2 not found", 23),
    Refused(&["f", "log", "a2"], 0, "2 not found", 23),
    Refused(&["f", "log", ""], 0, "2 not found", 23),
    Refused(&["f", "log", "B94"], 0, "2 not found", 23),
    Refused(&["f", "log", "b9 "], 0, "2 not found", 23),
    Refused(
        &[
            "f",
            "close",
            "b946b7380c3eb77a68d0dc6a49f8fb74554aad7c4dc3167cb4fe898d15cbfc630",
        ],
        4,
        "2 not found",
        23,
    ),
];

// Two identities that begin with `a2`, and one that begins as the bugs do.
const PEOPLE: &[Row] = &[
    Done(
        &["f", "user-new", "Ana", "ana@x"],
        39,
        "a2dfb879dcd605efc4b5f93eda65e2d23d86da0add44fb8ff80a9a2001b3ff9f\n",
        27,
    ),
    Refused(
        &["f", "user-set", "a2"],
        0,
        "3 ambiguous a206955f92c7be1bb318733460d3b85e208c8b1c8fb805c6d9991de1e0f35c00 a2dfb879dcd605efc4b5f93eda65e2d23d86da0add44fb8ff80a9a2001b3ff9f",
        27,
    ),
    Done(
        &["f", "user-set", "a2d"],
        0,
        "a2dfb879dcd605efc4b5f93eda65e2d23d86da0add44fb8ff80a9a2001b3ff9f\n",
        28,
    ),
    Done(
        &["f", "user-new", "Ana", "ana@x"],
        35,
        "b2f9ab3d79cce495f79741332a68c114c7b98e31e072826e95d75d26937a5713\n",
        32,
    ),
    Done(
        &["f", "user-set", "b"],
        0,
        "b2f9ab3d79cce495f79741332a68c114c7b98e31e072826e95d75d26937a5713\n",
        33,
    ),
    Refused(&["f", "log", "b"], 0, SEVERAL_BUGS, 33),
];

#[test]
fn a_word_finds_the_bug_or_the_person_that_begins_with_it(rt: HostRuntime) -> Result<(), Fail> {
    let mut disk = Disk::new(rt.alloc())?;
    hold(&mut disk, BUGS)?;
    hold(&mut disk, STRANGE)?;
    hold(&mut disk, PEOPLE)?;
    Ok(())
}
