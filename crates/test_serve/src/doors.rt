//! Listeners: what comes at them, and what fails.
use exit_status::Status;
use harness_serve::{
    NOTHING, POLLING, ServeFails, ServeRun, answers_of, door_with, given_with, one_door,
    requests_of, run_over, served,
};
use io_edge::Pause;
use memory_edge::{DoorPlan, MemoryDoors, MemoryPause};
use std::alloc::Global;
use std::sync::Wait;
use std::test::Fail;
use std::thread::Threads;
use tail_base::{Items, NoMemory};

/// A user is added, on one connection.
const ADDED: &str = r#"> POST /api/v1/user Bearer/secret {"name":"ann"}
< 200 {"id":1,"login":"ann@"}"#;

/// The users are listed, on another.
const LISTED: &str = r#"> GET /api/v1/user Bearer/secret
< 200 {"users":[{"id":1,"login":"ann@"}]}"#;

/// What is left on errors.
const NO_LINE: &[u8] = b"";

const DOOR_FAULT: &[u8] = b"tailnetd: door fault\n";

const ENTROPY_FAULT: &[u8] = b"tailnetd: entropy fault\n";

/// The default of `listen`.
const LISTEN: &[u8] = b"127.0.0.1:8080";

/// One door, at which both come.
fn both(alloc: Global, accept: u32) -> Result<Items<DoorPlan>, NoMemory> {
    let first = requests_of(alloc, ADDED)?;
    let second = requests_of(alloc, LISTED)?;
    let door = door_with(alloc, &[first.as_slice(), second.as_slice()], accept)?;
    one_door(alloc, door)
}

/// How many connections were given back at the first door, if each has its answers.
fn count_answered(doors: &MemoryDoors, added: &[u8], listed: &[u8]) -> Option<usize> {
    match doors.finished_at(0) {
        [] => Some(0),
        [(_, first)] if first.bytes() == added => Some(1),
        [(_, first), (_, second)] if first.bytes() == added && second.bytes() == listed => Some(2),
        _ => None,
    }
}

fn answered(alloc: Global, doors: &MemoryDoors) -> Result<Option<usize>, NoMemory> {
    let added = answers_of(alloc, ADDED)?;
    let listed = answers_of(alloc, LISTED)?;
    Ok(count_answered(doors, &added, &listed))
}

/// What a run leaves.
#[derive(Clone, Copy)]
struct Left<'a> {
    status: Status,
    errors: &'a [u8],
    /// How many users there are.
    users: usize,
    /// How often the doors were asked to open.
    asked: usize,
    /// How many connections were given back with their answers.
    answered: Option<usize>,
}

/// Whether a run leaves this.
fn is_left(alloc: Global, ran: &ServeRun, wanted: &Left<'_>) -> Result<bool, NoMemory> {
    let count = answered(alloc, &ran.doors)?;
    Ok(
        ran.status == wanted.status
            && ran.given.errors() == wanted.errors
            && ran.given.tables().users().len() == wanted.users
            && ran.doors.asked().len() == wanted.asked
            && count == wanted.answered,
    )
}

/// Further lines in the settings, what fails, and what the run then leaves: what one connection adds the next lists; a
/// worker takes as many connections as it may; doors don't open, or fail at an accept; the random source isn't split.
const ROWS: [(&[u8], ServeFails, Left<'static>); 5] = [
    (
        b"workers = 1\n",
        NOTHING,
        Left {
            status: Status::Ok,
            errors: NO_LINE,
            users: 1,
            asked: 1,
            answered: Some(2),
        },
    ),
    (
        b"workers = 1\nconnections = 1\n",
        NOTHING,
        Left {
            status: Status::Ok,
            errors: NO_LINE,
            users: 1,
            asked: 1,
            answered: Some(1),
        },
    ),
    (
        b"workers = 1\n",
        ServeFails {
            open: 1,
            accept: 0,
            word: 0,
        },
        Left {
            status: Status::DoorFault,
            errors: DOOR_FAULT,
            users: 0,
            asked: 1,
            answered: Some(0),
        },
    ),
    (
        b"workers = 1\n",
        ServeFails {
            open: 0,
            accept: 2,
            word: 0,
        },
        Left {
            status: Status::DoorFault,
            errors: DOOR_FAULT,
            users: 1,
            asked: 1,
            answered: Some(1),
        },
    ),
    (
        b"workers = 1\n",
        ServeFails {
            open: 0,
            accept: 0,
            word: 1,
        },
        Left {
            status: Status::EntropyFault,
            errors: ENTROPY_FAULT,
            users: 0,
            asked: 0,
            answered: Some(0),
        },
    ),
];

/// Whether a run with these lines, of which that fails, leaves this.
fn leaves<R: Threads + Wait + Sync>(
    rt: &R,
    alloc: Global,
    lines: &[u8],
    fails: &ServeFails,
    wanted: &Left<'_>,
) -> Result<bool, NoMemory> {
    let plans = both(alloc, fails.accept)?;
    let ran = served(rt, alloc, lines, plans, fails)?;
    is_left(alloc, &ran, wanted)
}

#[test]
fn runs_leave_this(rt: HostRuntime) -> Result<(), Fail> {
    for (row, (lines, fails, wanted)) in ROWS.iter().enumerate() {
        assert!(rt; leaves(&rt, rt.alloc(), lines, fails, wanted)?, "row {row}");
    }
    Ok(())
}

/// Whether doors at which nothing comes were asked for once, as the defaults have it, and the tables stay empty.
fn is_idle(ran: &ServeRun) -> bool {
    let tables = ran.given.tables();
    match ran.doors.asked() {
        [asked] => ran.status == Status::Ok
            && ran.given.errors() == NO_LINE
            && tables.users().is_empty()
            && tables.next().user == 1
            && asked.address.as_slice() == LISTEN
            && asked.count == 4,
        _ => false,
    }
}

fn idles<R: Threads + Wait + Sync>(rt: &R, alloc: Global) -> Result<bool, NoMemory> {
    let ran = served(rt, alloc, b"", Items::new(alloc), &NOTHING)?;
    Ok(is_idle(&ran))
}

#[test]
fn doors_without_connections(rt: HostRuntime) -> Result<(), Fail> {
    assert!(rt; idles(&rt, rt.alloc())?);
    Ok(())
}

/// One door: at it comes a connection that is cut, and then a whole one.
fn cut_and_whole(alloc: Global) -> Result<Items<DoorPlan>, NoMemory> {
    let whole = requests_of(alloc, ADDED)?;
    let head: &[u8] = b"GET / HTTP/1.1\r\n";
    let door = door_with(alloc, &[head, whole.as_slice()], 0)?;
    one_door(alloc, door)
}

/// Whether the first of two connections has no answer, and the second its own.
fn is_second_answered(alloc: Global, doors: &MemoryDoors) -> Result<bool, NoMemory> {
    let answer = answers_of(alloc, ADDED)?;
    match doors.finished_at(0) {
        [(_, cut), (_, whole)] => Ok(cut.bytes() == NO_LINE && whole.bytes() == answer.as_slice()),
        _ => Ok(false),
    }
}

/// Whether a run ends well with only the second of two connections answered.
fn ends_well(alloc: Global, ran: &ServeRun) -> Result<bool, NoMemory> {
    let is_answered = is_second_answered(alloc, &ran.doors)?;
    Ok(is_answered && ran.status == Status::Ok)
}

fn goes_on_behind_a_cut<R: Threads + Wait + Sync>(rt: &R, alloc: Global) -> Result<bool, NoMemory> {
    let plans = cut_and_whole(alloc)?;
    let ran = served(rt, alloc, b"workers = 1\n", plans, &NOTHING)?;
    ends_well(alloc, &ran)
}

#[test]
fn a_connection_that_is_cut_ends_alone(rt: HostRuntime) -> Result<(), Fail> {
    assert!(rt; goes_on_behind_a_cut(&rt, rt.alloc())?);
    Ok(())
}

/// How often the pause is noted of a registration and a poll: at each of the three asks, as the poll begins, and as it ends.
const NOTES: u64 = 5;

/// How often the pause of a server is noted while a machine registers and polls.
fn notes_of<R: Threads + Wait + Sync>(rt: &R, alloc: Global) -> Result<u64, NoMemory> {
    let requests = requests_of(alloc, POLLING)?;
    let door = door_with(alloc, &[requests.as_slice()], 0)?;
    let plans = one_door(alloc, door)?;
    let mut doors = MemoryDoors::new(alloc, plans, Items::new(alloc))?;
    let mut given = given_with(alloc, b"workers = 1\n", &NOTHING)?;
    let pause = MemoryPause::new();
    let _status = run_over(rt, alloc, &mut given, &mut doors, &pause);
    Ok(pause.mark())
}

#[test]
fn waiting_polls_are_told(rt: HostRuntime) -> Result<(), Fail> {
    assert_eq!(rt; notes_of(&rt, rt.alloc())?, NOTES);
    Ok(())
}
