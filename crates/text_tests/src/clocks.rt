//! Tests of `lamport`.
use gb_text::GREATEST_TIME;
use lamport::{CAP, Clock, ClockFull, Time};

// The number of a time, or 0 where there is none.
fn number_of(time: Result<Time, ClockFull>) -> u64 {
    match time {
        Ok(time) => time.number(),
        Err(ClockFull) => 0,
    }
}

#[test]
fn a_clock_file_reads_as_a_number(rt: HostRuntime) {
    let rows = [
        ("", 0),
        ("5\n", 5),
        ("5\n\n", 0),
        ("05", 0),
        ("-1", 0),
        ("x", 0),
        ("4611686018427387904", CAP),
        ("4611686018427387905", CAP),
        ("18446744073709551615", CAP),
        ("18446744073709551616", 0),
    ];
    for (text, number) in rows {
        assert_eq!(rt; Clock::read(text.as_bytes()).value(), number);
    }
}

#[test]
fn a_hostile_clock_is_capped(rt: HostRuntime) {
    let mut clock = Clock::read(b"0");
    assert_eq!(rt; clock.root_time().number(), 1);
    assert_eq!(rt; number_of(clock.edit_time(0)), 1);
    clock.see(GREATEST_TIME);
    assert_eq!(rt; clock.value(), CAP);
    clock.see(7);
    assert_eq!(rt; clock.value(), CAP);
    assert_eq!(rt; clock.root_time().number(), CAP);
    assert_eq!(rt; number_of(clock.edit_time(5)), 1_000_005);
    assert_eq!(rt;
        number_of(clock.edit_time(GREATEST_TIME - 1)),
        GREATEST_TIME
    );
    assert_eq!(rt; clock.edit_time(GREATEST_TIME), Err(ClockFull));
    assert_eq!(rt;
        number_of(clock.merge_time(GREATEST_TIME - 1, GREATEST_TIME - 1)),
        GREATEST_TIME
    );
    assert_eq!(rt; clock.merge_time(1, GREATEST_TIME), Err(ClockFull));
    assert_eq!(rt; clock.edit_time(GREATEST_TIME + 1), Err(ClockFull));
}

#[test]
fn a_join_is_above_both_heads(rt: HostRuntime) {
    let clock = Clock::read(b"2\n");
    assert_eq!(rt; number_of(clock.merge_time(2, 2)), 3);
    assert_eq!(rt; number_of(clock.merge_time(3, 3)), 4);
    assert_eq!(rt; number_of(clock.merge_time(1, 9)), 10);
    assert_eq!(rt; number_of(clock.merge_time(9, 1)), 10);
}

#[test]
fn a_time_has_bounds(rt: HostRuntime) {
    let rows = [
        (0, 0),
        (1, 1),
        (GREATEST_TIME, GREATEST_TIME),
        (GREATEST_TIME + 1, 0),
    ];
    for (number, read) in rows {
        let time = Time::read(number);
        assert_eq!(rt; time.is_some(), read != 0);
        assert_eq!(rt; number_of(time.ok_or(ClockFull)), read);
    }
}
