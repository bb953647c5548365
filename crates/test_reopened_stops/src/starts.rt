//! The start behind a stop stops at each of its own calls.
use harness_disks::{CallKind, Image};
use harness_faults::{Chosen, SecondStops, second_stops, small_pages};
use harness_stops::{Ending, KINDS, MANY, Script};
use std::ops::Range;
use std::test::Fail;

/// How many of the second stops are at a call of this kind.
fn count_of(tried: &SecondStops, kind: CallKind) -> usize {
    let stops = tried.stops.as_slice();
    stops.iter().filter(|failed| failed.kind == kind).count()
}

/// Tells how many stops there are, and sees that calls of all kinds are among the second ones.
fn are_of_all_kinds(rt: &HostRuntime, ending: Ending, tried: &SecondStops) -> Result<(), Fail> {
    println!(rt;
        "{ending:?}: {} stops leave {} images",
        tried.first, tried.images
    )?;
    println!(rt; "the starts over them leave {}", tried.behind)?;
    for kind in KINDS {
        let count = count_of(tried, kind);
        println!(rt; "then {count} at calls of the kind {kind:?}")?;
        if count == 0 {
            return Err(Fail::new(format_args!("no {kind:?} behind {ending:?}")));
        }
    }
    Ok(())
}

/// The second stops behind the stops with this ending, over these eighths of what they leave. The run begins with a
/// database without tables.
fn stopped_twice(rt: &HostRuntime, ending: Ending, eighths: Range<usize>) -> Result<(), Fail> {
    let chosen = Chosen {
        ending,
        calls: 0..MANY,
        eighths,
    };
    let script = Script::new(rt.alloc())?;
    let disks = small_pages(rt.alloc())?;
    let tried = second_stops(rt.alloc(), &script, &disks, &chosen)?;
    are_of_all_kinds(rt, ending, &tried)
}

#[test]
fn behind_a_stop_while_the_tables_are_made_first_quarter(rt: HostRuntime) -> Result<(), Fail> {
    stopped_twice(&rt, Ending::Unopened, 0..2)
}

#[test]
fn behind_a_stop_while_the_tables_are_made_second_quarter(rt: HostRuntime) -> Result<(), Fail> {
    stopped_twice(&rt, Ending::Unopened, 2..4)
}

#[test]
fn behind_a_stop_while_the_tables_are_made_third_quarter(rt: HostRuntime) -> Result<(), Fail> {
    stopped_twice(&rt, Ending::Unopened, 4..6)
}

#[test]
fn behind_a_stop_while_the_tables_are_made_last_quarter(rt: HostRuntime) -> Result<(), Fail> {
    stopped_twice(&rt, Ending::Unopened, 6..8)
}

#[test]
fn behind_a_stop_in_the_seed_first_eighth(rt: HostRuntime) -> Result<(), Fail> {
    stopped_twice(&rt, Ending::Stopped(0), 0..1)
}

#[test]
fn behind_a_stop_in_the_seed_second_eighth(rt: HostRuntime) -> Result<(), Fail> {
    stopped_twice(&rt, Ending::Stopped(0), 1..2)
}

#[test]
fn behind_a_stop_in_the_seed_third_eighth(rt: HostRuntime) -> Result<(), Fail> {
    stopped_twice(&rt, Ending::Stopped(0), 2..3)
}

#[test]
fn behind_a_stop_in_the_seed_fourth_eighth(rt: HostRuntime) -> Result<(), Fail> {
    stopped_twice(&rt, Ending::Stopped(0), 3..4)
}

#[test]
fn behind_a_stop_in_the_seed_fifth_eighth(rt: HostRuntime) -> Result<(), Fail> {
    stopped_twice(&rt, Ending::Stopped(0), 4..5)
}

#[test]
fn behind_a_stop_in_the_seed_sixth_eighth(rt: HostRuntime) -> Result<(), Fail> {
    stopped_twice(&rt, Ending::Stopped(0), 5..6)
}

#[test]
fn behind_a_stop_in_the_seed_seventh_eighth(rt: HostRuntime) -> Result<(), Fail> {
    stopped_twice(&rt, Ending::Stopped(0), 6..7)
}

#[test]
fn behind_a_stop_in_the_seed_last_eighth(rt: HostRuntime) -> Result<(), Fail> {
    stopped_twice(&rt, Ending::Stopped(0), 7..8)
}

#[test]
fn behind_a_stop_in_a_registration(rt: HostRuntime) -> Result<(), Fail> {
    stopped_twice(&rt, Ending::Stopped(1), 0..8)
}

#[test]
fn behind_a_stop_in_a_registration_without_a_key_first_quarter(
    rt: HostRuntime,
) -> Result<(), Fail> {
    stopped_twice(&rt, Ending::Stopped(2), 0..2)
}

#[test]
fn behind_a_stop_in_a_registration_without_a_key_second_quarter(
    rt: HostRuntime,
) -> Result<(), Fail> {
    stopped_twice(&rt, Ending::Stopped(2), 2..4)
}

#[test]
fn behind_a_stop_in_a_registration_without_a_key_third_quarter(
    rt: HostRuntime,
) -> Result<(), Fail> {
    stopped_twice(&rt, Ending::Stopped(2), 4..6)
}

#[test]
fn behind_a_stop_in_a_registration_without_a_key_last_quarter(rt: HostRuntime) -> Result<(), Fail> {
    stopped_twice(&rt, Ending::Stopped(2), 6..8)
}

#[test]
fn behind_a_stop_in_a_user(rt: HostRuntime) -> Result<(), Fail> {
    stopped_twice(&rt, Ending::Stopped(3), 0..8)
}

#[test]
fn behind_a_stop_in_a_key(rt: HostRuntime) -> Result<(), Fail> {
    stopped_twice(&rt, Ending::Stopped(4), 0..8)
}

#[test]
fn behind_a_stop_in_an_admission(rt: HostRuntime) -> Result<(), Fail> {
    stopped_twice(&rt, Ending::Stopped(5), 0..8)
}

#[test]
fn behind_a_stop_in_an_update_first_quarter(rt: HostRuntime) -> Result<(), Fail> {
    stopped_twice(&rt, Ending::Stopped(6), 0..2)
}

#[test]
fn behind_a_stop_in_an_update_second_quarter(rt: HostRuntime) -> Result<(), Fail> {
    stopped_twice(&rt, Ending::Stopped(6), 2..4)
}

#[test]
fn behind_a_stop_in_an_update_third_quarter(rt: HostRuntime) -> Result<(), Fail> {
    stopped_twice(&rt, Ending::Stopped(6), 4..6)
}

#[test]
fn behind_a_stop_in_an_update_last_quarter(rt: HostRuntime) -> Result<(), Fail> {
    stopped_twice(&rt, Ending::Stopped(6), 6..8)
}

#[test]
fn behind_a_stop_in_an_approval(rt: HostRuntime) -> Result<(), Fail> {
    stopped_twice(&rt, Ending::Stopped(7), 0..8)
}

#[test]
fn behind_a_stop_in_a_policy(rt: HostRuntime) -> Result<(), Fail> {
    stopped_twice(&rt, Ending::Stopped(8), 0..8)
}

#[test]
fn behind_a_stop_in_two_records(rt: HostRuntime) -> Result<(), Fail> {
    stopped_twice(&rt, Ending::Stopped(9), 0..8)
}

#[test]
fn behind_a_stop_in_one_record(rt: HostRuntime) -> Result<(), Fail> {
    stopped_twice(&rt, Ending::Stopped(10), 0..8)
}

#[test]
fn behind_a_stop_in_a_removal(rt: HostRuntime) -> Result<(), Fail> {
    // (each ask has its test)
    assert!(rt; Script::new(rt.alloc())?.asks().len() == 12);
    stopped_twice(&rt, Ending::Stopped(11), 0..8)
}

#[test]
fn behind_a_stop_in_the_close_first_quarter(rt: HostRuntime) -> Result<(), Fail> {
    stopped_twice(&rt, Ending::Unclosed, 0..2)
}

#[test]
fn behind_a_stop_in_the_close_second_quarter(rt: HostRuntime) -> Result<(), Fail> {
    stopped_twice(&rt, Ending::Unclosed, 2..4)
}

#[test]
fn behind_a_stop_in_the_close_third_quarter(rt: HostRuntime) -> Result<(), Fail> {
    stopped_twice(&rt, Ending::Unclosed, 4..6)
}

#[test]
fn behind_a_stop_in_the_close_last_quarter(rt: HostRuntime) -> Result<(), Fail> {
    stopped_twice(&rt, Ending::Unclosed, 6..8)
}

/// The run begins with empty files, and stops while they become a database.
#[test]
fn behind_a_stop_while_the_database_is_made(rt: HostRuntime) -> Result<(), Fail> {
    let chosen = Chosen {
        ending: Ending::Unopened,
        calls: 0..8,
        eighths: 0..8,
    };
    let script = Script::new(rt.alloc())?;
    let tried = second_stops(rt.alloc(), &script, &Image::empty(rt.alloc()), &chosen)?;
    are_of_all_kinds(&rt, Ending::Unopened, &tried)
}
