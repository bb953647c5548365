//! A poll that waits while another worker answers a save.
use crate::gates::{Gate, GatedPause, GatedSource, OneDoor, OpeningSink, ReadyDoors, SinkPlan};
use exit_status::Status;
use harness_pipe::{entropy_of, files_of};
use harness_serve::{Given, POLLING, answers_of, has_bytes, noon, requests_of, run_over};
use io_edge::MemorySink;
use net_rows::Tables;
use row_keeper::MemoryOpener;
use std::alloc::Global;
use std::sync::{Arc, Wait};
use std::test::Fail;
use std::thread::Threads;
use std::time::Clock;
use tail_base::{Items, NoMemory};

/// Two workers, and a poll that looks for changes often.
const SETTINGS_OF_TWO: &[u8] =
    b"base_domain = \"tail.example\"\nserver_url = \"http://tail.example\"\ntoken = \"secret\"\nworkers = 2\npoll_turns = 200\n";

/// A policy that grants nothing is saved.
const SAVING: &str = r#"> PUT /api/v1/policy Bearer/secret {"acls":[]}
< 200 {}"#;

/// What the poll is then written.
const FRAME: &[u8] = b"{\"PacketFilter\":[],\"Seq\":2}";

/// Once it has ended, the machine polls anew.
const AGAIN: &str = r#"> POST /machine/map mkey:%1 {"NodeKey":"nodekey:%a","Stream":true}"#;

/// The new session begins with the policy that was saved.
const ANEW: &[u8] = b"\"PacketFilter\":[],\"Seq\":1";

/// What the machine sends: it registers and polls, and polls anew once its poll has ended.
fn polls(alloc: Global) -> Result<Vec<u8>, NoMemory> {
    let mut polls = requests_of(alloc, POLLING)?;
    let again = requests_of(alloc, AGAIN)?;
    polls.extend_from_slice(&again)?;
    Ok(polls)
}

/// The door of the poll, whose fifth write is its first frame.
fn polling_door<R: Wait + Clock + Drop>(
    alloc: Global,
    polled: &Arc<Gate<R>, Global>,
) -> Result<OneDoor<R>, Fail> {
    let bytes = polls(alloc)?;
    let input = GatedSource::new(alloc, &bytes, None)?;
    let opens = Arc::try_clone(polled)?;
    let plan = SinkPlan {
        opens: 5,
        write: 0,
        check: 0,
    };
    Ok(OneDoor::new(input, OpeningSink::new(alloc, opens, plan), None))
}

/// The door of the save, whose first write is its answer.
fn saving_door<R: Wait + Clock + Drop>(
    alloc: Global,
    polled: &Arc<Gate<R>, Global>,
    saved: &Arc<Gate<R>, Global>,
) -> Result<OneDoor<R>, Fail> {
    let bytes = requests_of(alloc, SAVING)?;
    let gate = Arc::try_clone(polled)?;
    let input = GatedSource::new(alloc, &bytes, Some(gate))?;
    let opens = Arc::try_clone(saved)?;
    let plan = SinkPlan {
        opens: 1,
        write: 0,
        check: 0,
    };
    Ok(OneDoor::new(input, OpeningSink::new(alloc, opens, plan), None))
}

/// Two doors: the save comes once the poll has its first frame, and `saved` opens when it is answered.
fn two_doors<R: Wait + Clock + Drop>(
    alloc: Global,
    polled: &Arc<Gate<R>, Global>,
    saved: &Arc<Gate<R>, Global>,
) -> Result<ReadyDoors<R>, Fail> {
    let mut ready = Vec::new(alloc);
    let poll = polling_door(alloc, polled)?;
    ready.push(poll)?;
    let save = saving_door(alloc, polled, saved)?;
    ready.push(save)?;
    Ok(ReadyDoors::new(alloc, ready))
}

/// What a server with this settings file is given.
pub(crate) fn given_for(alloc: Global, settings: &[u8]) -> Result<Given, NoMemory> {
    let clock = noon(alloc)?;
    let entropy = entropy_of(alloc, 0)?;
    let files = files_of(alloc, settings, 0)?;
    let tables = Tables::empty(alloc);
    let opener = MemoryOpener::new(alloc, tables, Items::new(alloc), Items::new(alloc));
    let errors = MemorySink::new(alloc, Items::new(alloc));
    Ok(Given::new(files, opener, clock, entropy, errors))
}

/// The server at these doors, and what it results in.
fn run_two<R: Threads + Wait + Clock + Copy + Send + Sync + Drop>(
    rt: R,
    alloc: Global,
    doors: &mut ReadyDoors<R>,
    saved: &Arc<Gate<R>, Global>,
) -> Result<Status, NoMemory> {
    let pause = GatedPause::new(rt, Arc::try_clone(saved)?);
    let mut given = given_for(alloc, SETTINGS_OF_TWO)?;
    Ok(run_over(&rt, alloc, &mut given, doors, &pause))
}

/// Whether the save has its answer, and the poll a frame of what was saved, before it begins anew.
fn is_written<R>(alloc: Global, doors: &ReadyDoors<R>) -> Result<bool, Fail> {
    let answer = answers_of(alloc, SAVING)?;
    let polled = doors.written_at(0);
    Ok(
        doors.written_at(1) == answer.as_slice()
            && has_bytes(polled, FRAME)
            && has_bytes(polled, ANEW),
    )
}

/// Whether a server of two workers writes this.
fn writes_so<R: Threads + Wait + Clock + Copy + Send + Sync + Drop>(
    rt: R,
    alloc: Global,
    polled: &Arc<Gate<R>, Global>,
    saved: &Arc<Gate<R>, Global>,
) -> Result<bool, Fail> {
    let mut doors = two_doors(alloc, polled, saved)?;
    let status = run_two(rt, alloc, &mut doors, saved)?;
    Ok(status == Status::Ok && is_written(alloc, &doors)?)
}

/// Whether it does, with gates of its own.
fn is_told_while_it_waits<R: Threads + Wait + Clock + Copy + Send + Sync + Drop>(
    rt: R,
    alloc: Global,
) -> Result<bool, Fail> {
    let polled = Arc::new(alloc, Gate::new(rt))?;
    let saved = Arc::new(alloc, Gate::new(rt))?;
    writes_so(rt, alloc, &polled, &saved)
}

#[test]
fn poll_waits_while_a_save_is_answered(rt: HostRuntime) -> Result<(), Fail> {
    assert!(rt; is_told_while_it_waits(rt, rt.alloc())?);
    Ok(())
}
