//! Events that are stopped.
use crate::events::event;
use std::alloc::Global;
use std::test::Fail;
use world::{World, exchange, play, summary};
use world_events::{Act, Event, are_within};

// A person and a bug, and a comment that is stopped.
fn stopped_comment(stop: Option<u64>) -> [Event; 3] {
    [
        event(0, 1, Act::UserNew),
        event(0, 2, Act::NewBug),
        Event {
            stop,
            ..event(0, 3, Act::Comment { pick: 0 })
        },
    ]
}

// The world of such a comment.
fn played(alloc: Global, stop: Option<u64>) -> Result<World, Fail> {
    let events = stopped_comment(stop);
    if !are_within(2, &events) {
        return Err(Fail::from("not within"));
    }
    Ok(play(alloc, 2, &events)?)
}

// How many writes it has.
fn writes(alloc: Global, stop: Option<u64>) -> Result<u64, Fail> {
    Ok(played(alloc, stop)?.store.writes())
}

#[test]
fn a_stop_keeps_so_many_writes(rt: HostRuntime) -> Result<(), Fail> {
    let alloc = rt.alloc();
    let all = writes(alloc, None)?;
    let none = writes(alloc, Some(0))?;
    assert!(rt; none.saturating_add(4) < all);
    for kept in [1, 3, all.saturating_sub(none)] {
        assert_eq!(rt; writes(alloc, Some(kept))?, none.saturating_add(kept));
    }
    assert_eq!(rt; writes(alloc, Some(99))?, all);
    assert_eq!(rt; writes(alloc, Some(u64::MAX))?, all);
    Ok(())
}

// What is stopped counts as its whole run ended.
#[test]
fn stopped_events_are_counted_as_done(rt: HostRuntime) -> Result<(), Fail> {
    for stop in [None, Some(0), Some(2), Some(99)] {
        let world = played(rt.alloc(), stop)?;
        assert_eq!(rt; (world.done, world.refused, world.skipped), (3, 0, 0));
    }
    Ok(())
}

// A pull that is stopped after each number of writes, and then an exchange: nothing is left behind.
#[test]
fn a_stopped_pull_is_made_up_for(rt: HostRuntime) -> Result<(), Fail> {
    let alloc = rt.alloc();
    for stop in 0..24u64 {
        let events = [
            event(0, 1, Act::UserNew),
            event(1, 2, Act::UserNew),
            event(0, 3, Act::NewBug),
            Event {
                stop: Some(stop),
                ..event(1, 4, Act::Pull { peer: 0 })
            },
            event(0, 5, Act::Comment { pick: 0 }),
        ];
        assert!(rt; are_within(2, &events));
        let mut world = play(alloc, 2, &events)?;
        exchange(alloc, &mut world, 9)?;
        let text = summary(alloc, &mut world)?;
        assert!(rt; text.as_str().contains("folder w1 bugs 1 digest "));
        assert!(rt; text.as_str().ends_with("\nequal\n"));
    }
    Ok(())
}
