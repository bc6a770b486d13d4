//! Edits of comments, which are found by the first digits of their ids.
use fixtures::Disk;
use run_fixtures::Row::{self, Done, Refused};
use run_fixtures::hold;
use std::test::Fail;

// A bug with two comments whose ids have nine first digits in common. Ids are those that a script apart from the
// program makes of the format.
const COMMENTS: &[Row] = &[
    Refused(&["f", "edit", "b", "hi"], 0, "1 no user", 0),
    Done(
        &["f", "user-new", "Ana", "ana@x"],
        1,
        "a206955f92c7be1bb318733460d3b85e208c8b1c8fb805c6d9991de1e0f35c00\n",
        5,
    ),
    Done(
        &["f", "new", "Login fails", "Since monday"],
        2,
        "b946b7380c3eb77a68d0dc6a49f8fb74554aad7c4dc3167cb4fe898d15cbfc63\n",
        12,
    ),
    Done(
        &["f", "comment", "b", "hi"],
        22,
        "572a248270c47711702d107bd328cea2fca6246831c3a9173826cd39663c2d6a\n",
        17,
    ),
    Done(
        &["f", "comment", "b", "hi"],
        38,
        "572044a4b2c840be35f65265ceee69da1102a8742f30a36869e626878c4301ee\n",
        22,
    ),
];

// Nine digits fit both, ten one of them.
const EDITS: &[Row] = &[
    Refused(
        &["f", "edit", "b597426b7", "ho"],
        40,
        "3 ambiguous b597426b70380c43eb747a68ad0dc46a49bf8fb27455c4aad87c4d4c31607cb4 b597426b7a380c23eb747a688d0dc26a497f8fb07455c4aad47c4d7c31677cb4",
        22,
    ),
    Done(
        &["f", "edit", "b597426b70", "Since sunday\nat noon"],
        40,
        "936e0f9a17727c1f36c736f021f3b487d6956bbbe0d0bf9d8ee99608742cec2c\n",
        27,
    ),
    Done(
        &[
            "f",
            "edit",
            "bb99446b76380cb3eb777a683d0dc86a490f8fbc745534aade7c4dbc31677cb4",
            "Since friday",
        ],
        41,
        "60b8bcfec743cb247445df4559fcd8772377d5b5e99b8f9fc07b8b55ce329158\n",
        32,
    ),
    Done(&["f", "show", "b9"], 0, SHOWN, 32),
];

const SHOWN: &str = "bug b946b7380c3eb77a68d0dc6a49f8fb74554aad7c4dc3167cb4fe898d15cbfc63
title Login fails
status open
author Ana
created 1 102
edited 5 141
actor Ana
participant Ana
comment bb99446b76380cb3eb777a683d0dc86a490f8fbc745534aade7c4dbc31677cb4 Ana 102
    Since friday
comment b597426b7a380c23eb747a688d0dc26a497f8fb07455c4aad47c4d7c31677cb4 Ana 122
    hi
comment b597426b70380c43eb747a68ad0dc46a49bf8fb27455c4aad87c4d4c31607cb4 Ana 138
    Since sunday
    at noon
";

// The digits fit the bug and no comment, or no bug, or are no digits of an id; and a message that is none.
const STRANGE: &[Row] = &[
    Refused(&["f", "edit", "b1", "ho"], 42, "2 not found", 32),
    Refused(&["f", "edit", "c", "ho"], 42, "2 not found", 32),
    Refused(&["f", "edit", "", "ho"], 42, "2 not found", 32),
    Refused(&["f", "edit", "B597426B7A", "ho"], 42, "2 not found", 32),
    Refused(
        &[
            "f",
            "edit",
            "b597426b7a380c23eb747a688d0dc26a497f8fb07455c4aad47c4d7c31677cb40",
            "ho",
        ],
        42,
        "2 not found",
        32,
    ),
    Refused(
        &["f", "edit", "b597426b7a", "\u{1}"],
        42,
        "4 bad text 2",
        32,
    ),
    Done(
        &[
            "f",
            "edit",
            "b597426b7a380c23eb747a688d0dc26a497f8fb07455c4aad47c4d7c31677cb4",
            "ho",
        ],
        42,
        "66e13307b3dc0bbf084ca8f7b553fcc4bd86a973ce8164563c57a221f376113b\n",
        37,
    ),
];

// Another person of the folder edits the same comment.
const OTHERS: &[Row] = &[
    Done(
        &["f", "user-new", "Ana", "ana@x"],
        39,
        "a2dfb879dcd605efc4b5f93eda65e2d23d86da0add44fb8ff80a9a2001b3ff9f\n",
        41,
    ),
    Done(
        &["f", "user-set", "a2d"],
        0,
        "a2dfb879dcd605efc4b5f93eda65e2d23d86da0add44fb8ff80a9a2001b3ff9f\n",
        42,
    ),
    Done(
        &["f", "edit", "b597426b7a", "hey"],
        43,
        "4456ffb40f4c88f3887d6fc97a4ff64476859329e5d2b8593dab56547df0c03a\n",
        47,
    ),
    Done(&["f", "show", "b9"], 0, SHOWN_OF_TWO, 47),
];

const SHOWN_OF_TWO: &str = "bug b946b7380c3eb77a68d0dc6a49f8fb74554aad7c4dc3167cb4fe898d15cbfc63
title Login fails
status open
author Ana
created 1 102
edited 7 143
actor Ana
actor Ana
participant Ana
comment bb99446b76380cb3eb777a683d0dc86a490f8fbc745534aade7c4dbc31677cb4 Ana 102
    Since friday
comment b597426b7a380c23eb747a688d0dc26a497f8fb07455c4aad47c4d7c31677cb4 Ana 122
    hey
comment b597426b70380c43eb747a68ad0dc46a49bf8fb27455c4aad87c4d4c31607cb4 Ana 138
    Since sunday
    at noon
";

#[test]
fn a_comment_is_edited_that_begins_with_the_digits(rt: HostRuntime) -> Result<(), Fail> {
    let mut disk = Disk::new(rt.alloc())?;
    hold(&mut disk, COMMENTS)?;
    hold(&mut disk, EDITS)?;
    hold(&mut disk, STRANGE)?;
    hold(&mut disk, OTHERS)?;
    Ok(())
}
