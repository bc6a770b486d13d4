//! Events, and the worlds that they leave.
use std::test::Fail;
use world::{exchange, play, summary};
use world_events::{Act, Event, are_within};

/// An event of a number, which is also its second and the first byte of its seed.
pub fn event(folder: u32, number: u8, act: Act) -> Event {
    let mut seed = [0; 32];
    seed[0] = number;
    Event {
        folder,
        act,
        number: u64::from(number),
        now: i64::from(number),
        seed,
        stop: None,
    }
}

// Two persons, a bug of each, and edits that each command of a world makes once.
fn each_act() -> [Event; 14] {
    [
        event(0, 1, Act::UserNew),
        event(1, 2, Act::UserNew),
        event(0, 3, Act::NewBug),
        event(0, 4, Act::Comment { pick: 7 }),
        event(0, 5, Act::Title { pick: 0 }),
        event(0, 6, Act::Edit { pick: 0 }),
        event(0, 7, Act::Close { pick: 0 }),
        event(0, 8, Act::Reopen { pick: 0 }),
        event(0, 9, Act::LabelAdd { pick: 0, label: 3 }),
        event(0, 10, Act::LabelRm { pick: 0, label: 3 }),
        event(0, 11, Act::Noop { pick: 0 }),
        event(0, 12, Act::PackRefs),
        event(1, 13, Act::Pull { peer: 0 }),
        event(1, 14, Act::Push { peer: 0 }),
    ]
}

#[test]
fn each_command_is_done(rt: HostRuntime) -> Result<(), Fail> {
    let alloc = rt.alloc();
    let events = each_act();
    assert!(rt; are_within(2, &events));
    let mut world = play(alloc, 2, &events)?;
    assert_eq!(rt; (world.done, world.refused, world.skipped), (14, 0, 0));
    let text = summary(alloc, &mut world)?;
    assert!(rt; text.as_str().contains("folder w0 bugs 1 digest "));
    assert!(rt; text.as_str().ends_with("\nequal\n"));
    Ok(())
}

#[test]
fn events_are_counted_as_they_end(rt: HostRuntime) -> Result<(), Fail> {
    let events = [
        event(0, 1, Act::NewBug),
        event(0, 2, Act::Comment { pick: 0 }),
        event(0, 3, Act::UserNew),
        event(0, 4, Act::NewBug),
        event(1, 5, Act::Pull { peer: 0 }),
    ];
    assert!(rt; are_within(2, &events));
    let mut world = play(rt.alloc(), 2, &events)?;
    assert_eq!(rt; (world.done, world.refused, world.skipped), (2, 2, 1));
    assert_eq!(rt; (world.folders, world.events), (2, 5));
    let text = summary(rt.alloc(), &mut world)?;
    assert!(rt;
        text.as_str()
            .starts_with("events 5\ndone 2\nrefused 2\nskipped 1\n")
    );
    Ok(())
}

// Two operations that are the same in each byte: the second is refused.
#[test]
fn seeds_are_not_used_twice(rt: HostRuntime) -> Result<(), Fail> {
    let events = [
        event(0, 1, Act::UserNew),
        event(0, 2, Act::NewBug),
        event(0, 3, Act::Noop { pick: 0 }),
        event(0, 3, Act::Noop { pick: 0 }),
    ];
    assert!(rt; are_within(2, &events));
    let world = play(rt.alloc(), 2, &events)?;
    assert_eq!(rt; (world.done, world.refused), (3, 1));
    Ok(())
}

#[test]
fn an_exchange_makes_folders_equal(rt: HostRuntime) -> Result<(), Fail> {
    let alloc = rt.alloc();
    let events = [
        event(0, 1, Act::UserNew),
        event(1, 2, Act::UserNew),
        event(2, 3, Act::UserNew),
        event(0, 4, Act::NewBug),
        event(1, 5, Act::Pull { peer: 0 }),
        event(0, 6, Act::Comment { pick: 0 }),
        event(1, 7, Act::Close { pick: 0 }),
        event(2, 8, Act::NewBug),
    ];
    assert!(rt; are_within(3, &events));
    let mut world = play(alloc, 3, &events)?;
    exchange(alloc, &mut world, 9)?;
    let text = summary(alloc, &mut world)?;
    assert!(rt; text.as_str().contains("folder w2 bugs 2 digest "));
    assert!(rt; text.as_str().ends_with("\nequal\n"));
    assert_eq!(rt; (world.done, world.refused, world.skipped), (8, 0, 0));
    Ok(())
}

// A folder without a person takes nothing.
#[test]
fn a_folder_without_a_user_stays_behind(rt: HostRuntime) -> Result<(), Fail> {
    let alloc = rt.alloc();
    let events = [event(0, 1, Act::UserNew), event(0, 2, Act::NewBug)];
    assert!(rt; are_within(2, &events));
    let mut world = play(alloc, 2, &events)?;
    exchange(alloc, &mut world, 3)?;
    let text = summary(alloc, &mut world)?;
    assert!(rt; text.as_str().contains("folder w1 bugs 0 digest "));
    assert!(rt; text.as_str().ends_with("\ndiffer\n"));
    Ok(())
}
