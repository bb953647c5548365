//! Runs of `serve` over memory objects.
use crate::given::{Given, failing, given_with};
use exit_status::Status;
use harness_pipe::talk_bytes;
use io_edge::{Clock, Door, Doors, Entropy, Files, Pause, Sink};
use memory_edge::{DoorPlan, MemoryDoors, MemoryPause};
use row_keeper::Opener;
use std::alloc::Global;
use std::sync::Wait;
use std::thread::Threads;
use tail_base::{Bytes, Items, NoMemory};
use tailnet_serve::serve_command;

/// What a run left.
#[derive(Drop)]
pub struct ServeRun {
    pub status: Status,
    pub given: Given,
    pub doors: MemoryDoors,
}

/// The first call that fails, counted from 1; 0 is none.
#[derive(Clone, Copy, Drop)]
pub struct ServeFails {
    /// Of the doors as a whole.
    pub open: u32,
    /// Of the first door.
    pub accept: u32,
    /// Of the random source.
    pub word: u32,
}

/// Nothing fails.
pub const NOTHING: ServeFails = ServeFails {
    open: 0,
    accept: 0,
    word: 0,
};

/// A machine registers by a new key, and polls: the writes are three answers, a head, and a frame.
pub const POLLING: &str = r#"> POST /api/v1/user Bearer/secret {"name":"ann"}
> POST /api/v1/preauthkey Bearer/secret {"user":"ann@"}
> POST /machine/register mkey:%1 {"Auth":{"AuthKey":"tnkey-1-0000000000000001000000000000000200000000000000030000000000000004"},"NodeKey":"nodekey:%a"}
> POST /machine/map mkey:%1 {"NodeKey":"nodekey:%a","Stream":true}"#;

/// The bytes of the requests in these lines.
pub fn requests_of(alloc: Global, lines: &str) -> Result<Vec<u8>, NoMemory> {
    let (requests, _answers) = talk_bytes(alloc, lines)?;
    Ok(requests)
}

/// The bytes of the answers in these lines.
pub fn answers_of(alloc: Global, lines: &str) -> Result<Vec<u8>, NoMemory> {
    let (_requests, answers) = talk_bytes(alloc, lines)?;
    Ok(answers)
}

/// A door at which these connections come, and whose accept with this number fails; 0 is none.
pub fn door_with(alloc: Global, connections: &[&[u8]], accept: u32) -> Result<DoorPlan, NoMemory> {
    let mut list = Items::new(alloc);
    for connection in connections {
        let connection = Bytes::from_slice(alloc, connection)?;
        list.push(connection)?;
    }
    let fails = failing(alloc, accept)?;
    Ok(DoorPlan {
        connections: list,
        fails,
    })
}

/// One door as planned.
pub fn one_door(alloc: Global, door: DoorPlan) -> Result<Items<DoorPlan>, NoMemory> {
    let mut plans = Items::new(alloc);
    plans.push(door)?;
    Ok(plans)
}

/// `serve tailnet.toml`. The tests look at what it leaves and ask for none of its clauses, so that they
/// aren't proved beside what these say.
fn serve_over<
    R: Threads + Wait + Sync,
    E: Sink,
    F: Files,
    P: Opener,
    C: Clock + Send + Drop,
    N: Entropy + Send,
    D: Doors,
    A: Pause + Sync,
>(
    rt: &R,
    alloc: Global,
    errors: &mut E,
    files: &mut F,
    opener: &mut P,
    clock: &mut C,
    entropy: &mut N,
    doors: &mut D,
    pause: &A,
) -> Status
where
    <D::Door as Door>::In: Send,
    <D::Door as Door>::Out: Send,
{
    serve_command(
        rt,
        alloc,
        "tailnet.toml",
        errors,
        files,
        opener,
        clock,
        entropy,
        doors,
        pause,
    )
}

/// The same over what it is given in memory.
pub fn run_over<R: Threads + Wait + Sync, D: Doors, A: Pause + Sync>(
    rt: &R,
    alloc: Global,
    given: &mut Given,
    doors: &mut D,
    pause: &A,
) -> Status
where
    <D::Door as Door>::In: Send,
    <D::Door as Door>::Out: Send,
{
    serve_over(
        rt,
        alloc,
        &mut given.errors,
        &mut given.files,
        &mut given.opener,
        &mut given.clock,
        &mut given.entropy,
        doors,
        pause,
    )
}

/// Doors as planned, of which that call fails.
fn doors_at(alloc: Global, plans: Items<DoorPlan>, open: u32) -> Result<MemoryDoors, NoMemory> {
    let fails_at = failing(alloc, open)?;
    MemoryDoors::new(alloc, plans, fails_at)
}

/// Runs `serve tailnet.toml` with these lines in the file, over empty tables.
pub fn served<R: Threads + Wait + Sync>(
    rt: &R,
    alloc: Global,
    lines: &[u8],
    plans: Items<DoorPlan>,
    fails: &ServeFails,
) -> Result<ServeRun, NoMemory> {
    let mut doors = doors_at(alloc, plans, fails.open)?;
    let mut given = given_with(alloc, lines, fails)?;
    let status = run_over(rt, alloc, &mut given, &mut doors, &MemoryPause::new());
    Ok(ServeRun {
        status,
        given,
        doors,
    })
}

/// Whether these bytes stand somewhere in the others.
pub fn has_bytes(all: &[u8], wanted: &[u8]) -> bool {
    for at in 0..all.len() {
        if all[at..].starts_with(wanted) {
            return true;
        }
    }
    false
}
