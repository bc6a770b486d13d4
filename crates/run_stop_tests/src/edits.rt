//! Edits that stop after any of their writes, and are run again.
use crate::cases::{BEGUN, Case, FIRST, PULLED, Run, Whole, run_whole};
use crate::seen::{are_old_or_new, refs, shown, told};
use fixtures::Disk;
use run_fixtures::{DONE, REFUSED, run_words};
use std::alloc::Global;
use std::test::Fail;

/// What the same edit does once its ref is set.
#[derive(Clone, Copy, PartialEq, Eq)]
enum Again {
    /// It is refused with this text. The id that the edit printed follows a space at its end.
    Refused(&'static str),
    /// It prints the same, and what is shown stays.
    Same,
    /// It adds another operation, since the title of before is another one.
    Longer,
}

/// An edit in `b`, its number of writes, and what it does again.
struct Edit(&'static [&'static str], u64, Again);

const BEFORE: &[&[Run]] = &[BEGUN, PULLED];

const EDITS: &[Edit] = &[
    Edit(
        &["b", "user-new", "Cy", "cy@x"],
        4,
        Again::Refused("9 entity exists "),
    ),
    Edit(&["b", "user-edit", "Bo", "bo@y"], 4, Again::Same),
    Edit(&["b", "user-set", "e0c6"], 1, Again::Same),
    Edit(
        &["b", "new", "three", "message"],
        6,
        Again::Refused("9 entity exists "),
    ),
    Edit(
        &["b", "comment", "b4bc", "again"],
        5,
        Again::Refused("8 repeated operation "),
    ),
    Edit(
        &["b", "edit", "bb44bbc8", "other"],
        5,
        Again::Refused("8 repeated operation "),
    ),
    Edit(&["b", "title", "b4bc", "other"], 5, Again::Longer),
    Edit(
        &["b", "meta", "b4bc", "key", "value"],
        5,
        Again::Refused("8 repeated operation "),
    ),
    Edit(
        &["b", "noop", "d77a"],
        5,
        Again::Refused("8 repeated operation "),
    ),
    Edit(&["b", "close", "b4bc"], 5, Again::Refused("6 same status")),
    Edit(
        &["b", "label-add", "d77a", "x"],
        5,
        Again::Refused("5 no label change"),
    ),
    Edit(&["b", "ls"], 2, Again::Same),
];

// How the edit ends and what it prints once its ref is set.
fn told_again(alloc: Global, again: Again, text: &str) -> Result<(u8, String), Fail> {
    let Again::Refused(refusal) = again else {
        return Ok((DONE, String::from_str(alloc, text)?));
    };
    let id = if refusal.ends_with(' ') {
        text.trim_end()
    } else {
        ""
    };
    Ok((REFUSED, format!(in alloc; "refused {refusal}{id}\n")?))
}

// Whether an edit that is run again ends and prints as wanted, and leaves the refs of the whole one
// where that is wanted too, and what it shows.
fn ends_so(
    disk: &mut Disk,
    edit: &Edit,
    whole: &Whole,
    wanted: (u8, &str),
    moves: bool,
) -> Result<bool, Fail> {
    let (status, text) = told(disk, edit.0, FIRST)?;
    let new = refs(disk)?;
    let shown = shown(disk)?;
    Ok(
        (status, text.as_str()) == wanted
            && (moves || new.as_str() == whole.new.as_str())
            && shown.as_str() == whole.shown.as_str(),
    )
}

// Whether an edit, where it was left half done, makes the rest.
fn goes_on(disk: &mut Disk, edit: &Edit, whole: &Whole) -> Result<bool, Fail> {
    let left = refs(disk)?;
    let text = whole.text.as_str();
    if !are_old_or_new(left.as_str(), whole.old.as_str(), whole.new.as_str()) {
        return Ok(false);
    }
    if left.as_str() != whole.new.as_str() {
        return ends_so(disk, edit, whole, (DONE, text), false);
    }
    if edit.2 == Again::Longer {
        return Ok(run_words(disk, edit.0, FIRST)? == DONE);
    }
    let (status, text) = told_again(disk.alloc, edit.2, text)?;
    ends_so(
        disk,
        edit,
        whole,
        (status, text.as_str()),
        edit.2 == Again::Same,
    )
}

// Sees that an edit goes on after each of its writes.
fn stops(alloc: Global, edit: &Edit) -> Result<(), Fail> {
    let case = Case {
        before: BEFORE,
        words: edit.0,
        status: DONE,
        writes: edit.1,
    };
    let mut disk = Disk::at(alloc, "b", &[])?;
    let whole = run_whole(&mut disk, &case)?;
    for count in whole.begun..=whole.ended {
        disk.store.cut(alloc, whole.begun)?;
        run_words(&mut disk, edit.0, FIRST)?;
        disk.store.cut(alloc, count)?;
        if !goes_on(&mut disk, edit, &whole)? {
            let place = count.saturating_sub(whole.begun);
            return Err(Fail::new(format_args!("{:?}, cut after {place} writes", edit.0)));
        }
    }
    Ok(())
}

#[test]
fn an_edit_goes_on_where_it_stopped(rt: HostRuntime) -> Result<(), Fail> {
    for edit in EDITS {
        stops(rt.alloc(), edit)?;
    }
    Ok(())
}
