//! Lists and boards of small folders, and what refuses them.
use run_fixtures::Step::{Does, Has, Refuses, Shortens, Wrote};
use run_fixtures::{Script, Step, goes_on};
use std::test::Fail;

const EMPTY: &[Step] = &[
    Does(&["f", "ls"], 1, ""),
    Wrote(0),
    Does(
        &["f", "board"],
        1,
        "ID      STATUS TITLE                                    AUTHOR          CMTS\n0 open, 0 closed\n",
    ),
    Refuses(
        &["f", "ls", "status:openn"],
        1,
        "refused 16 bad query 2 0\n",
    ),
    Refuses(&["f", "ls", "label:\"x"], 1, "refused 16 bad query 3 6\n"),
    Refuses(
        &["f", "board", "no:label", "x:y"],
        1,
        "refused 16 bad query 1 9\n",
    ),
    Refuses(
        &["a/../b", "ls", "status:openn"],
        1,
        "refused 17 bad folder\n",
    ),
];

const SESSION: &[Step] = &[
    Does(&["a", "user-new", "Ana", "ana@x"], 1, "$A\n"),
    Does(&["a", "new", "Login fails", "Since monday"], 2, "$B\n"),
    Does(&["a", "title", "$B", "Login fails on phones"], 6, "$T\n"),
    Does(&["a", "label-add", "$B", "needs info"], 7, "$L\n"),
    Does(&["a", "close", "$B"], 8, "$S\n"),
    Does(&["a", "comment", "$B", "Fixed in 1.2"], 11, "$D\n"),
    Shortens('b', 'B'),
    Has("a/refs/bugs/$B", "$H\n"),
    Does(
        &[
            "a",
            "ls",
            "status:closed",
            "label:\"needs info\"",
            "sort:edit-desc",
        ],
        12,
        "$b\tclosed\tLogin fails on phones\tAna\t2\tneeds info\n",
    ),
    Wrote(1),
    Has(
        "a/git-bug/cache/bugs/$B",
        "{\"actors\":[\"$A\"],\"author\":\"$A\",\"comments\":2,\"create\":1,\"edit\":5,\"first\":102,\"head\":\"$H\",\"id\":\"$B\",\"labels\":[\"needs info\"],\"last\":111,\"metadata\":{},\"participants\":[\"$A\"],\"row\":1,\"status\":2,\"title\":\"Login fails on phones\"}",
    ),
    Does(
        &["a", "board"],
        13,
        "ID      STATUS TITLE                                    AUTHOR          CMTS\n\
         $b closed Login fails on phones                    Ana                2\n0 open, 1 closed\n",
    ),
    Wrote(0),
    Does(&["a", "ls", "status:open"], 13, ""),
    Wrote(0),
];

// The session of the README.
const README: &[Step] = &[
    Does(
        &["f", "user-new", "Ana", "ana@x"],
        1,
        "a206955f92c7be1bb318733460d3b85e208c8b1c8fb805c6d9991de1e0f35c00\n",
    ),
    Does(
        &["f", "new", "Login fails", "Since monday"],
        2,
        "b946b7380c3eb77a68d0dc6a49f8fb74554aad7c4dc3167cb4fe898d15cbfc63\n",
    ),
    Does(
        &["f", "comment", "b946b738", "hi"],
        3,
        "e4935016ce47972c287159671c9cc66a5f1ce2e49e398d1357bb86791390ebde\n",
    ),
    Does(
        &["f", "ls", "status:open"],
        4,
        "b946b73\topen\tLogin fails\tAna\t2\n",
    ),
    Does(
        &["f", "show", "b946b738"],
        5,
        "bug b946b7380c3eb77a68d0dc6a49f8fb74554aad7c4dc3167cb4fe898d15cbfc63\ntitle Login fails\nstatus open\nauthor Ana\ncreated 1 102\nedited 2 103\nactor Ana\nparticipant Ana\ncomment bb99446b76380cb3eb777a683d0dc86a490f8fbc745534aade7c4dbc31677cb4 Ana 102\n    Since monday\ncomment be94496b73380c53eb707a681d0dc66a49cf8fbe745544aad77c4d9c31677cb4 Ana 103\n    hi\n",
    ),
];

// A damaged bug refuses a list, unless its row names its head; a damaged person always does.
const DAMAGED: &[Step] = &[
    Does(&["f", "user-new", "Ana", "ana@x"], 1, "$A\n"),
    Does(&["f", "new", "One", "m"], 2, "$B\n"),
    Shortens('b', 'B'),
    Has("f/refs/bugs/$B", "$H\n"),
    Does(&["f", "ls"], 3, "$b\topen\tOne\tAna\t1\n"),
    Step::Loses('H'),
    Does(&["f", "ls"], 4, "$b\topen\tOne\tAna\t1\n"),
    Step::Puts("f/git-bug/cache/bugs/$B", "{}"),
    Refuses(&["f", "ls"], 5, "refused 14 damaged f/refs/bugs/$B\n"),
    Wrote(0),
    Step::Puts("f/refs/bugs/$B", "x"),
    Refuses(&["f", "board"], 6, "refused 14 damaged f/refs/bugs/$B\n"),
    Step::Puts("f/refs/identities/$A", "x"),
    Refuses(&["f", "ls"], 7, "refused 14 damaged f/refs/identities/$A\n"),
];

#[test]
fn an_empty_folder_lists_nothing(rt: HostRuntime) -> Result<(), Fail> {
    Script::new(rt.alloc(), "f")?.play(EMPTY)
}

#[test]
fn a_session_is_listed(rt: HostRuntime) -> Result<(), Fail> {
    Script::new(rt.alloc(), "a")?.play(SESSION)
}

#[test]
fn the_session_of_the_readme_is_so(rt: HostRuntime) -> Result<(), Fail> {
    Script::new(rt.alloc(), "f")?.play(README)
}

#[test]
fn damage_refuses_a_list(rt: HostRuntime) -> Result<(), Fail> {
    Script::new(rt.alloc(), "f")?.play(DAMAGED)
}

// Each call of the store that a list makes fails in turn; the same list again is done, and stores no row twice.
#[test]
fn a_list_goes_on_after_a_fault(rt: HostRuntime) -> Result<(), Fail> {
    let before: [&[&str]; 3] = [
        &["a", "user-new", "Ana", "ana@x"],
        &["a", "new", "One", "m"],
        &["a", "new", "Two", "m"],
    ];
    goes_on(rt.alloc(), &before, &["a", "ls"])
}
