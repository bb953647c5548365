//! A poll whose client leaves while it waits.
use crate::gates::{Gate, GatedPause, GatedSource, OneDoor, OpeningSink, ReadyDoors, SinkPlan};
use crate::waiting::given_for;
use exit_status::Status;
use harness_serve::{POLLING, has_bytes, requests_of, run_over};
use std::alloc::Global;
use std::sync::{Arc, Wait};
use std::test::Fail;
use std::thread::Threads;
use std::time::Clock;

/// A worker for each of three connections, and a poll that would look for changes for long.
const SETTINGS: &[u8] =
    b"base_domain = \"tail.example\"\nserver_url = \"http://tail.example\"\ntoken = \"secret\"\nworkers = 3\npoll_turns = 100000\n";

/// What a poll is sent then.
const SAVING: &str = r#"> PUT /api/v1/policy Bearer/secret {"acls":[]}"#;

/// Asked once the poll has ended.
const LISTING: &str = "> GET /api/v1/node Bearer/secret";

/// The second frame.
const FRAME: &[u8] = b"{\"PacketFilter\":[],\"Seq\":2}";

/// The client has left when its poll has waited once; the write of a frame fails; and the write of the head does. With each,
/// whether the first frame is written.
const PLANS: [(SinkPlan, bool); 3] = [
    (
        SinkPlan {
            opens: 5,
            write: 0,
            check: 1,
        },
        true,
    ),
    (
        SinkPlan {
            opens: 5,
            write: 6,
            check: 0,
        },
        true,
    ),
    (
        SinkPlan {
            opens: 3,
            write: 4,
            check: 0,
        },
        false,
    ),
];

/// Nothing fails, and no gate opens.
const NONE: SinkPlan = SinkPlan {
    opens: 0,
    write: 0,
    check: 0,
};

/// The gates: the poll has its first frame; it has ended.
#[derive(Drop)]
struct Gates<R> {
    polled: Arc<Gate<R>, Global>,
    ended: Arc<Gate<R>, Global>,
}

/// A door at which these requests come once the gate has opened.
fn gated_door<R: Wait + Clock + Drop>(
    alloc: Global,
    lines: &str,
    gate: &Arc<Gate<R>, Global>,
) -> Result<OneDoor<R>, Fail> {
    let bytes = requests_of(alloc, lines)?;
    let input = GatedSource::new(alloc, &bytes, Some(Arc::try_clone(gate)?))?;
    let output = OpeningSink::new(alloc, Arc::try_clone(gate)?, NONE);
    Ok(OneDoor::new(input, output, None))
}

/// The door of the poll.
fn polling_door<R: Wait + Clock + Drop>(
    alloc: Global,
    gates: &Gates<R>,
    plan: SinkPlan,
) -> Result<OneDoor<R>, Fail> {
    let bytes = requests_of(alloc, POLLING)?;
    let input = GatedSource::new(alloc, &bytes, None)?;
    let output = OpeningSink::new(alloc, Arc::try_clone(&gates.polled)?, plan);
    let ended = Arc::try_clone(&gates.ended)?;
    Ok(OneDoor::new(input, output, Some(ended)))
}

/// Three doors: a poll, a save once it has its first frame, and a list of the machines once it has ended.
fn three_doors<R: Wait + Clock + Drop>(
    alloc: Global,
    gates: &Gates<R>,
    plan: SinkPlan,
) -> Result<ReadyDoors<R>, Fail> {
    let mut ready = Vec::new(alloc);
    let poll = polling_door(alloc, gates, plan)?;
    ready.push(poll)?;
    let save = gated_door(alloc, SAVING, &gates.polled)?;
    ready.push(save)?;
    let list = gated_door(alloc, LISTING, &gates.ended)?;
    ready.push(list)?;
    Ok(ReadyDoors::new(alloc, ready))
}

/// Whether a server whose poll's sink fails so shows the machine offline then, and sends its poll nothing more than the first
/// frame, if that.
fn is_offline_then<R: Threads + Wait + Clock + Copy + Send + Sync + Drop>(
    rt: R,
    alloc: Global,
    plan: SinkPlan,
    is_begun: bool,
) -> Result<bool, Fail> {
    let gates = Gates {
        polled: Arc::new(alloc, Gate::new(rt))?,
        ended: Arc::new(alloc, Gate::new(rt))?,
    };
    let mut doors = three_doors(alloc, &gates, plan)?;
    let pause = GatedPause::new(rt, Arc::try_clone(&gates.ended)?);
    let mut given = given_for(alloc, SETTINGS)?;
    let status = run_over(&rt, alloc, &mut given, &mut doors, &pause);
    Ok(
        status == Status::Ok
            && has_bytes(doors.written_at(0), b"\"Seq\":1") == is_begun
            && !has_bytes(doors.written_at(0), FRAME)
            && has_bytes(doors.written_at(2), b"\"online\":false"),
    )
}

#[test]
fn a_machine_whose_client_left_is_offline(rt: HostRuntime) -> Result<(), Fail> {
    for (row, (plan, is_begun)) in PLANS.iter().enumerate() {
        assert!(rt;
            is_offline_then(rt, rt.alloc(), *plan, *is_begun)?,
            "row {row}"
        );
    }
    Ok(())
}
