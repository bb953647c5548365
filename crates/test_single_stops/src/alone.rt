//! Stops before each call of one disk.
use harness_disks::{DiskFault, Disks, Image};
use harness_stops::{Ending, Script, TriedStop, are_everywhere, stops};
use std::alloc::Global;
use std::test::Fail;

/// The stops of this disk in runs that begin with empty disks.
fn stops_of(alloc: Global, script: &Script, disk: Disks) -> Result<Vec<TriedStop>, Fail> {
    stops(alloc, script, &Image::empty(alloc), disk, DiskFault::Stop)
}

#[test]
fn a_stop_of_the_log_alone(rt: HostRuntime) -> Result<(), Fail> {
    let script = Script::new(rt.alloc())?;
    let stops = stops_of(rt.alloc(), &script, Disks::Log)?;
    println!(rt; "{} stops of the log", stops.len())?;
    assert!(rt;
        are_everywhere(stops.as_slice(), &script),
        "{} stops",
        stops.len()
    );
    Ok(())
}

/// The log is copied into the file as it is made, in some asks and in the close.
#[test]
fn a_stop_of_the_file_alone(rt: HostRuntime) -> Result<(), Fail> {
    let script = Script::new(rt.alloc())?;
    let stops = stops_of(rt.alloc(), &script, Disks::File)?;
    println!(rt; "{} stops of the file", stops.len())?;
    let has = |wanted: Ending| stops.iter().any(|stop| stop.ending == wanted);
    assert!(rt;
        has(Ending::Unopened) && has(Ending::Unclosed),
        "{} stops",
        stops.len()
    );
    let is_in_an_ask = |stop: &TriedStop| matches!(stop.ending, Ending::Stopped(_));
    assert!(rt; stops.iter().any(is_in_an_ask));
    Ok(())
}
