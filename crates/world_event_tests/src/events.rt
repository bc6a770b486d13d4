//! The events of some numbers, which another program computed, and the arguments of some events.
use gb_text::{Id, List};
use std::alloc::Global;
use std::test::Fail;
use world_events::{Act, Event, are_within, event_words, exchange_events, folder_word, generate};

// Sees that the event at a place is in this folder and does this.
fn does(events: &List<Event>, place: usize, folder: u32, act: Act) -> Result<(), Fail> {
    let event = events.as_slice().get(place).ok_or("an event")?;
    let time = 1_000_000 + place as i64;
    let found = (event.folder, event.act, event.number, event.now, event.stop);
    if found == (folder, act, place as u64, time, None) {
        return Ok(());
    }
    Err(Fail::new(format_args!("event {place} is {event:?}")))
}

// Sees that the seed of the event at a place has these digits.
fn is_seeded(events: &List<Event>, place: usize, digits: &str) -> Result<(), Fail> {
    let event = events.as_slice().get(place).ok_or("an event")?;
    if Some(event.seed) == Id::read(digits.as_bytes()).map(|id| id.bytes) {
        return Ok(());
    }
    Err(Fail::new(format_args!("event {place} is {event:?}")))
}

#[test]
fn numbers_make_their_events(rt: HostRuntime) -> Result<(), Fail> {
    let events = generate(rt.alloc(), 42, 4, 8)?;
    assert_eq!(rt; events.len(), 8);
    does(&events, 0, 0, Act::UserNew)?;
    does(&events, 3, 3, Act::UserNew)?;
    does(&events, 4, 2, Act::Comment { pick: 886563538 })?;
    does(&events, 5, 2, Act::Edit { pick: 46730969 })?;
    does(&events, 6, 2, Act::Comment { pick: 766119304 })?;
    does(&events, 7, 2, Act::NewBug)?;
    is_seeded(
        &events,
        7,
        "7212ebfeb3caa3cf6351e0a9870a00994ad72272ac0e8e22fa1056050c9e40a3",
    )
}

#[test]
fn the_least_and_the_greatest_number_make_events(rt: HostRuntime) -> Result<(), Fail> {
    let events = generate(rt.alloc(), 0, 2, 4)?;
    does(&events, 2, 1, Act::Comment { pick: 1299921937 })?;
    does(&events, 3, 1, Act::Pull { peer: 0 })?;
    let events = generate(rt.alloc(), u64::MAX, 16, 18)?;
    does(&events, 16, 8, Act::Comment { pick: 1207502677 })?;
    does(&events, 17, 0, Act::Noop { pick: 1297692885 })?;
    is_seeded(
        &events,
        0,
        "60c69a3e87bf5c4f1e546bec45f262690bcf5494c4ecac2616bf2f731afa152a",
    )
}

// The first command in a world of 4 folders, on both sides of each limit of the 100 numbers.
#[test]
fn commands_have_their_limits(rt: HostRuntime) -> Result<(), Fail> {
    let rows = [
        (16, 1, Act::NewBug),
        (50, 3, Act::NewBug),
        (102, 1, Act::Comment { pick: 2136751811 }),
        (331, 0, Act::Comment { pick: 1825925750 }),
        (41, 0, Act::Title { pick: 794144279 }),
        (105, 1, Act::Title { pick: 266525941 }),
        (43, 1, Act::Edit { pick: 978982798 }),
        (23, 0, Act::Edit { pick: 1278081256 }),
        (127, 3, Act::Close { pick: 152266002 }),
        (97, 0, Act::Close { pick: 1674655513 }),
        (35, 0, Act::Reopen { pick: 239628722 }),
        (5, 0, Act::Reopen { pick: 1762018234 }),
        (
            436,
            2,
            Act::LabelAdd {
                pick: 792529755,
                label: 1,
            },
        ),
        (
            79,
            0,
            Act::LabelAdd {
                pick: 11108843,
                label: 1,
            },
        ),
        (
            17,
            0,
            Act::LabelRm {
                pick: 723565700,
                label: 1,
            },
        ),
        (
            205,
            2,
            Act::LabelRm {
                pick: 918517297,
                label: 4,
            },
        ),
        (39, 2, Act::Noop { pick: 609305760 }),
        (24, 3, Act::Noop { pick: 1370500516 }),
        (579, 1, Act::Pull { peer: 3 }),
        (643, 3, Act::Pull { peer: 1 }),
        (145, 3, Act::Push { peer: 2 }),
        (856, 3, Act::Push { peer: 2 }),
    ];
    for (number, folder, act) in rows {
        let events = generate(rt.alloc(), number, 4, 5)?;
        does(&events, 4, folder, act)?;
    }
    Ok(())
}

#[test]
fn folders_gather_and_then_spread(rt: HostRuntime) -> Result<(), Fail> {
    let events = exchange_events(rt.alloc(), 3, 7)?;
    let rows = [(0, 1), (0, 2), (1, 0), (2, 0)];
    assert_eq!(rt; events.len(), rows.len());
    for (event, (folder, peer)) in events.as_slice().iter().zip(rows) {
        assert_eq!(rt; (event.folder, event.act), (folder, Act::Pull { peer }));
        assert_eq!(rt; (event.now, event.seed), (7, [0; 32]));
    }
    Ok(())
}

// Event 7, in this folder.
fn event_in(folder: u32, act: Act) -> Event {
    Event {
        folder,
        act,
        number: 7,
        now: 0,
        seed: [0; 32],
        stop: None,
    }
}

#[test]
fn events_are_within_their_world(rt: HostRuntime) -> Result<(), Fail> {
    let rows = [
        (2, Act::UserNew, true),
        (3, Act::UserNew, false),
        (1, Act::Pull { peer: 2 }, true),
        (1, Act::Pull { peer: 3 }, false),
        (1, Act::Pull { peer: 1 }, false),
        (2, Act::Push { peer: 0 }, true),
        (2, Act::Push { peer: 3 }, false),
        (2, Act::Push { peer: 2 }, false),
    ];
    for (folder, act, wanted) in rows {
        let events = [event_in(0, Act::NewBug), event_in(folder, act)];
        assert_eq!(rt; are_within(3, &events), wanted);
    }
    Ok(())
}

// The arguments of event 7 in folder 3, with a space between each two.
fn line(alloc: Global, act: Act, bugs: &[Id]) -> Result<Option<String>, Fail> {
    let Some(words) = event_words(alloc, &event_in(3, act), bugs)? else {
        return Ok(None);
    };
    let mut line = String::new(alloc);
    for (place, word) in words.iter().enumerate() {
        if place > 0 {
            line.push(' ')?;
        }
        line.push_str(word.as_str())?;
    }
    Ok(Some(line))
}

#[test]
fn events_have_their_arguments(rt: HostRuntime) -> Result<(), Fail> {
    let alloc = rt.alloc();
    let bugs = [Id::from_bytes([0xaa; 32]), Id::from_bytes([0xbb; 32])];
    let bug = "bbbbbbbbbbbbbbbbbbbbbbbbbbbbbbbbbbbbbbbbbbbbbbbbbbbbbbbbbbbbbbbb";
    let rows = [
        (Act::UserNew, "w3 user-new user3 u3@w"),
        (Act::NewBug, "w3 new title 7 message 7"),
        (Act::Comment { pick: 5 }, "w3 comment BUG message 7"),
        (Act::Title { pick: 5 }, "w3 title BUG title 7"),
        (Act::Edit { pick: 5 }, "w3 edit BUG message 7"),
        (Act::Close { pick: 5 }, "w3 close BUG"),
        (Act::Reopen { pick: 5 }, "w3 open BUG"),
        (Act::Noop { pick: 5 }, "w3 noop BUG"),
        (
            Act::LabelAdd { pick: 5, label: 4 },
            "w3 label-add BUG label 4",
        ),
        (
            Act::LabelRm { pick: 5, label: 4 },
            "w3 label-rm BUG label 4",
        ),
        (Act::Pull { peer: 11 }, "w3 pull w11 w11"),
        (Act::Push { peer: 11 }, "w3 push w11"),
        (Act::PackRefs, "w3 pack-refs"),
    ];
    for (act, wanted) in rows {
        let found = line(alloc, act, &bugs)?.ok_or("arguments")?;
        let wanted = wanted.replace(alloc, "BUG", bug)?;
        assert_eq!(rt; found.as_str(), wanted.as_str());
    }
    assert!(rt; line(alloc, Act::Close { pick: 5 }, &[])?.is_none());
    assert_eq!(rt; folder_word(alloc, 15)?.as_str(), "w15");
    Ok(())
}

// The id of the first comment has digits of the bug's id twice.
#[test]
fn an_edit_names_the_first_comment(rt: HostRuntime) -> Result<(), Fail> {
    let digits = "0123456789abcdef0123456789abcdef0123456789abcdef0123456789abcdef";
    let bug = Id::read(digits.as_bytes()).ok_or("an id")?;
    let found = line(rt.alloc(), Act::Edit { pick: 0 }, &[bug])?.ok_or("arguments")?;
    let comment = "001122345367894abcd5ef0162345767898abcd9ef01a2345b6789cabcddef01";
    let wanted = "w3 edit COMMENT message 7".replace(rt.alloc(), "COMMENT", comment)?;
    assert_eq!(rt; found.as_str(), wanted.as_str());
    Ok(())
}
