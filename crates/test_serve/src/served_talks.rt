//! The same conversations through `serve`: one listener, at which one connection comes, over tables that
//! begin with what the seed makes.
ghost use Rattle.std.specs.Prelude.{◌<◌, IfOk, length};

use exit_status::Status;
use harness_conversations::{POLLS, WORKED};
use harness_pipe::{Talk, entropy_of, failing, files_of, tables_at, talks_of};
use harness_serve::{Given, one_door, run_over};
use io_edge::{MemoryClock, MemoryFiles, MemorySink};
use memory_edge::{DoorPlan, MemoryDoors, MemoryPause};
use net_rows::Tables;
use row_keeper::MemoryOpener;
use std::alloc::Global;
use std::sync::Wait;
use std::test::Fail;
use std::thread::Threads;
use tail_base::{Bytes, Duplicate, Items, NoMemory};

/// Whether `serve` can hold it: nothing fails but commits behind the seed's, and no write is cut off.
fn is_served_alike(talk: &Talk) -> bool {
    let plan = &talk.plan;
    !talk.is_cut
        && plan.read == 0
        && plan.write == 0
        && plan.error == 0
        && plan.file == 0
        && plan.open == 0
        && plan.word == 0
        && plan.keep != 1
        && plan.keep != 2
}

/// The moments of a conversation: those that it names, or one.
fn moments_of(alloc: Global, talk: &Talk) -> Result<Items<i64>, NoMemory>
    ensures some { IfOk result (λ made. 0 < length made) }
{
    let mut moments = talk.moments.copy(alloc)?;
    if moments.is_empty() {
        moments.push(1_000_000_000)?;
    }
    Ok(moments)
}

/// A clock without the answer at which the seed is handed in.
fn clock_behind_seed(alloc: Global, talk: &Talk) -> Result<MemoryClock, NoMemory> {
    let moments = moments_of(alloc, talk)?;
    let mut others = Items::new(alloc);
    for (place, answer) in moments.as_slice().iter().enumerate() {
        // (the last one is repeated)
        if place != 1 || moments.len() == 2 {
            others.push(*answer)?;
        }
    }
    if others.is_empty() {
        others.push(1_000_000_000)?;
    }
    Ok(MemoryClock::new(others))
}

/// The tables that the seed makes of those of a conversation.
fn seeded(alloc: Global, talk: &Talk) -> Result<Tables, NoMemory> {
    let clock = MemoryClock::new(moments_of(alloc, talk)?);
    let tables = talk.tables.copy(alloc)?;
    let (_status, tables) = tables_at(alloc, clock, tables, &talk.settings, b"")?;
    Ok(tables)
}

/// An opener of these, whose keeper fails at the call of the conversation, one sooner without a seed.
fn opener_for(alloc: Global, talk: &Talk) -> Result<MemoryOpener, NoMemory> {
    let keeps = failing(alloc, talk.plan.keep.saturating_sub(1))?;
    let tables = seeded(alloc, talk)?;
    Ok(MemoryOpener::new(alloc, tables, Items::new(alloc), keeps))
}

/// The settings file of one worker.
fn files_for(alloc: Global, talk: &Talk) -> Result<MemoryFiles, NoMemory> {
    let mut settings = Vec::from_slice(alloc, b"workers = 1\n")?;
    settings.extend_from_slice(&talk.settings)?;
    files_of(alloc, &settings, 0)
}

/// A listener at which the requests of a conversation come.
fn doors_of(alloc: Global, talk: &Talk) -> Result<MemoryDoors, NoMemory> {
    let mut connections = Items::new(alloc);
    let input = Bytes::from_slice(alloc, &talk.input)?;
    connections.push(input)?;
    let door = DoorPlan {
        connections,
        fails: Items::new(alloc),
    };
    let plans = one_door(alloc, door)?;
    MemoryDoors::new(alloc, plans, Items::new(alloc))
}

/// Whether the one connection was given back with the answers of the conversation.
fn is_answered(doors: &MemoryDoors, talk: &Talk) -> bool {
    match doors.finished_at(0) {
        [(_input, output)] => output.bytes() == talk.output.as_slice(),
        _ => false,
    }
}

/// What `serve` is given for a conversation.
fn given_for(alloc: Global, talk: &Talk) -> Result<Given, NoMemory> {
    let clock = clock_behind_seed(alloc, talk)?;
    let entropy = entropy_of(alloc, 0)?;
    let files = files_for(alloc, talk)?;
    let opener = opener_for(alloc, talk)?;
    let errors = MemorySink::new(alloc, Items::new(alloc));
    Ok(Given::new(files, opener, clock, entropy, errors))
}

/// Whether `serve tailnet.toml` answers the conversation as `pipe` does.
fn is_served<R: Threads + Wait + Sync>(
    rt: &R,
    alloc: Global,
    talk: &Talk,
) -> Result<bool, NoMemory> {
    let mut doors = doors_of(alloc, talk)?;
    let mut given = given_for(alloc, talk)?;
    let status = run_over(rt, alloc, &mut given, &mut doors, &MemoryPause::new());
    Ok(status == Status::Ok && given.errors().is_empty() && is_answered(&doors, talk))
}

/// The name of the first conversation of the table that `serve` doesn't hold as `pipe` does; None if it
/// holds all that it can.
fn first_not_served<R: Threads + Wait + Sync>(
    rt: &R,
    alloc: Global,
    table: &str,
) -> Result<Option<String>, NoMemory> {
    let talks = talks_of(alloc, table)?;
    for (name, talk) in talks.iter() {
        if is_served_alike(talk) && !is_served(rt, alloc, talk)? {
            return Ok(Some(String::from_str(alloc, name)?));
        }
    }
    Ok(None)
}

#[test]
fn worked_conversations_over_a_listener(rt: HostRuntime) -> Result<(), Fail> {
    assert_eq!(rt; first_not_served(&rt, rt.alloc(), WORKED)?, None);
    Ok(())
}

#[test]
fn polls_over_a_listener(rt: HostRuntime) -> Result<(), Fail> {
    assert_eq!(rt; first_not_served(&rt, rt.alloc(), POLLS)?, None);
    Ok(())
}
