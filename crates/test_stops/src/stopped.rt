//! Stops before each call of both disks, and within each write.
use harness_disks::{CallKind, DiskFault, Disks, Image};
use harness_stops::{KINDS, Script, TriedStop, are_everywhere, stops};
use std::alloc::Global;
use std::test::Fail;

/// The stops of runs that begin with empty disks.
fn stops_from_nothing(
    alloc: Global,
    script: &Script,
    fault: DiskFault,
) -> Result<Vec<TriedStop>, Fail> {
    stops(alloc, script, &Image::empty(alloc), Disks::Both, fault)
}

/// Whether calls of all these kinds are among the stops.
fn are_of_kinds(stops: &[TriedStop], kinds: &[CallKind]) -> bool {
    kinds
        .iter()
        .all(|kind| stops.iter().any(|stop| stop.failed.kind == *kind))
}

/// The stops at writes.
fn writes_of(alloc: Global, stops: &[TriedStop]) -> Result<Vec<TriedStop>, Fail> {
    let mut writes = Vec::new(alloc);
    for stop in stops {
        if stop.failed.kind == CallKind::Write {
            writes.push(*stop)?;
        }
    }
    Ok(writes)
}

/// Of the asks that are asked again behind a stop, one alone makes something new each time.
#[test]
fn one_ask_makes_something_new_each_time(rt: HostRuntime) -> Result<(), Fail> {
    let script = Script::new(rt.alloc())?;
    let changing = script.changing_twice(rt.alloc())?;
    for line in changing.as_slice() {
        assert!(rt; line.starts_with("POST /api/v1/preauthkey "), "{line}");
    }
    Ok(())
}

/// Stops of both disks under one count.
#[test]
fn a_stop_before_each_call(rt: HostRuntime) -> Result<(), Fail> {
    let script = Script::new(rt.alloc())?;
    let stops = stops_from_nothing(rt.alloc(), &script, DiskFault::Stop)?;
    println!(rt; "{} stops before a call", stops.len())?;
    assert!(rt;
        are_everywhere(stops.as_slice(), &script),
        "{} stops",
        stops.len()
    );
    assert!(rt;
        are_of_kinds(stops.as_slice(), &KINDS),
        "{} stops",
        stops.len()
    );
    Ok(())
}

#[test]
fn a_stop_within_each_write(rt: HostRuntime) -> Result<(), Fail> {
    let script = Script::new(rt.alloc())?;
    let stops = stops_from_nothing(rt.alloc(), &script, DiskFault::HalfWritten)?;
    let writes = writes_of(rt.alloc(), stops.as_slice())?;
    println!(rt; "{} stops within a write", writes.len())?;
    assert!(rt;
        are_everywhere(writes.as_slice(), &script),
        "{} writes",
        writes.len()
    );
    Ok(())
}
