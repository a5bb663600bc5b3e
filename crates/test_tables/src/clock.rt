//! A clock of ticks: rows by hand, each call and each answer at its edge.

ghost use Rattle.std.specs.Prelude.{◌≡◌};

use std::process::Abort;
use ticks_time::{Clock, FOREVER, Time, TimeAnswer};

/// A time.
fn time(seconds: u32, millis: u32) -> Time
    ensures { result.millis ≡ millis }
{
    Time { seconds, millis }
}

#[test]
fn deadlines(rt: HostRuntime) {
    let mut clock = Clock::new();
    clock.tick(99);
    let deadline = clock.deadline(1);
    assert!(rt; deadline == Some(100));
    assert!(rt; !clock.due(deadline));
    clock.tick(1);
    assert!(rt; clock.due(deadline) && clock.due(clock.deadline(0)));
    assert!(rt; clock.deadline(FOREVER).is_none() && !clock.due(None));
    assert!(rt; clock.deadline(FOREVER - 1) == Some(4_294_967_394));
}

#[test]
fn own_times(rt: HostRuntime) {
    let mut clock = Clock::new();
    clock.restart();
    assert!(rt; clock.own() == Err(TimeAnswer::NotSet));
    clock.tick(250);
    clock.set(time(10, 500));
    assert!(rt; clock.own() == Ok(time(10, 500)));
    clock.tick(700);
    assert!(rt; clock.own() == Ok(time(11, 200)));
    assert!(rt; clock.system() == Ok(time(0, 950)));
    clock.restart();
    assert!(rt; clock.own() == Err(TimeAnswer::NeedsReset));
    assert!(rt; clock.system() == Ok(time(0, 950)));
    clock.set(time(u32::MAX, 999));
    assert!(rt; clock.own() == Ok(time(u32::MAX, 999)));
    clock.tick(1);
    assert!(rt; clock.own() == Err(TimeAnswer::Overflow));
    clock.restart();
    assert!(rt; clock.own() == Err(TimeAnswer::NeedsReset));
}

// The last second of 32 bits ends at 4,294,967,296,000 ticks: a thousand calls of 4,294,967,295 and one of 1,000.
#[test]
fn system_time_passes_its_range(rt: HostRuntime) {
    let mut clock = Clock::new();
    for n in 0..1_000u32 {
        clock.tick(u32::MAX);
    }
    clock.tick(999);
    assert!(rt; clock.system() == Ok(time(u32::MAX, 999)));
    clock.tick(1);
    assert!(rt; clock.system() == Err(TimeAnswer::Overflow));
}
