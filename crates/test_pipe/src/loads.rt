//! Whole loads over memory objects.
use exit_status::Status;
use io_edge::MemorySink;
use load_run::load_command;
use std::alloc::Global;
use std::test::Fail;
use tail_base::Items;

/// How many machines and events, and what is written.
const LOADS: [(u32, u32, &str); 2] = [
    (
        1,
        0,
        "machines 1\nevents 0\nrequests 2\nok 2\nrefused 0\nframes 1\n",
    ),
    (
        1,
        1,
        "machines 1\nevents 1\nrequests 3\nok 3\nrefused 0\nframes 1\n",
    ),
];

/// The lines of a load of 60 machines and 600 events, as `model/load 60 600` has them.
const LARGE: &str = "machines 60\nevents 600\nrequests 720\nok 719\nrefused 1\nframes 176\n";

/// What a load writes, where it ends well.
fn loaded(alloc: Global, machines: u32, events: u32) -> Result<MemorySink, Fail> {
    if machines == 0 {
        return Err(Fail::from("a load has a machine"));
    }
    let mut output = MemorySink::new(alloc, Items::new(alloc));
    let mut errors = MemorySink::new(alloc, Items::new(alloc));
    let status = load_command(alloc, machines, events, &mut output, &mut errors);
    if status != Status::Ok || !errors.bytes().is_empty() {
        return Err(Fail::from("status"));
    }
    Ok(output)
}

#[test]
fn loads_are_counted(rt: HostRuntime) -> Result<(), Fail> {
    let alloc = rt.alloc();
    for (machines, events, lines) in LOADS {
        let output = loaded(alloc, machines, events)?;
        if output.bytes() != lines.as_bytes() {
            return Err(Fail::from("counts"));
        }
    }
    Ok(())
}

#[test]
fn a_load_is_the_same_again(rt: HostRuntime) -> Result<(), Fail> {
    let alloc = rt.alloc();
    let first = loaded(alloc, 60, 600)?;
    let second = loaded(alloc, 60, 600)?;
    if first.bytes() != LARGE.as_bytes() || second.bytes() != LARGE.as_bytes() {
        return Err(Fail::from("differs"));
    }
    Ok(())
}
