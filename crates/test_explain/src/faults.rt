//! What fails, and what is left then.
use crate::asked::{given_over, status_of};
use exit_status::Status;
use harness_pipe::{CALM, Plan, cut, tables_with};
use net_rows::Tables;
use std::alloc::Global;
use std::sync::Wait;
use std::test::Fail;
use std::thread::Threads;

const NOON: i64 = 1_000_000_000;

/// A line of each command.
const LINES: &str = "explain tailnet.toml 100.64.0.1 100.64.0.2 tcp 22
reach tailnet.toml";

/// The call that fails, the status, and the line on errors.
const FAILS: &str = "write 1 5 tailnetd: write fault
file 1 4 tailnetd: read fault
open 1 6 tailnetd: keeper fault
keep 1 6 tailnetd: keeper fault";

/// Words that are no line of a command: each address, the protocol and the port are read before anything else.
const UNREAD: &str = "explain nowhere.toml 100.64.0.1 nas tcp 22
explain nowhere.toml 100.64.0.1/32 100.64.0.2 tcp 22
explain nowhere.toml 100.64.0.1 100.64.0.2 0 22
explain nowhere.toml 100.64.0.1 100.64.0.2 tcp 65536
reach nowhere.toml 100.64.0.1";

/// Whether a line over these tables ends with this status and this line on errors, and writes nothing.
fn leaves<R: Threads + Wait + Sync>(
    rt: &R,
    alloc: Global,
    line: &str,
    tables: Tables,
    plan: &Plan,
    wanted: (u8, &str),
) -> Result<bool, Fail> {
    let mut given = given_over(alloc, tables, NOON, plan)?;
    let status = status_of(rt, alloc, line, &mut given)?;
    let errors = format!(in alloc; "{}\n", wanted.1)?;
    Ok(
        status.number() == wanted.0
            && given.output.bytes().is_empty()
            && given.errors.bytes() == errors.as_bytes(),
    )
}

/// A call's failure, and the status and the line that it leads to.
fn plan_of(row: &str) -> Option<(Plan, u8, &str)> {
    let (object, rest) = cut(row);
    let (call, rest) = cut(rest);
    let (status, line) = cut(rest);
    let mut plan = CALM;
    match object {
        "write" => plan.write = call.parse::<u32>().ok()?,
        "file" => plan.file = call.parse::<u32>().ok()?,
        "open" => plan.open = call.parse::<u32>().ok()?,
        "keep" => plan.keep = call.parse::<u32>().ok()?,
        _ => return None,
    }
    Some((plan, status.parse::<u8>().ok()?, line))
}

/// Whether both commands end so over empty tables.
fn both_leave<R: Threads + Wait + Sync>(
    rt: &R,
    alloc: Global,
    plan: &Plan,
    wanted: (u8, &str),
) -> Result<bool, Fail> {
    for words in LINES.lines() {
        if !leaves(rt, alloc, words, Tables::empty(alloc), plan, wanted)? {
            return Ok(false);
        }
    }
    Ok(true)
}

/// The number of the first row that doesn't hold, counted from 1; 0 if all do.
fn first_unheld<R: Threads + Wait + Sync>(rt: &R, alloc: Global) -> Result<usize, Fail> {
    for (at, row) in FAILS.lines().enumerate() {
        let (plan, status, line) = plan_of(row).ok_or("no row")?;
        if !both_leave(rt, alloc, &plan, (status, line))? {
            return Ok(at.saturating_add(1));
        }
    }
    Ok(0)
}

#[test]
fn each_call_fails_in_turn(rt: HostRuntime) -> Result<(), Fail> {
    assert_eq!(rt; first_unheld(&rt, rt.alloc())?, 0);
    Ok(())
}

/// Whether both commands tell of a policy that isn't read.
fn damage_is_told<R: Threads + Wait + Sync>(rt: &R, alloc: Global) -> Result<bool, Fail> {
    for words in LINES.lines() {
        let tables = tables_with(alloc, "{\"acls\":[{}]}")?;
        let wanted = (7, "tailnetd: damaged policy 0");
        if !leaves(rt, alloc, words, tables, &CALM, wanted)? {
            return Ok(false);
        }
    }
    Ok(true)
}

#[test]
fn a_damaged_policy_is_told(rt: HostRuntime) -> Result<(), Fail> {
    assert!(rt; damage_is_told(&rt, rt.alloc())?);
    Ok(())
}

/// Whether each of the lines that aren't read is refused before the settings file is looked for.
fn are_refused<R: Threads + Wait + Sync>(rt: &R, alloc: Global) -> Result<bool, Fail> {
    for words in UNREAD.lines() {
        let wanted = (2, "tailnetd: usage");
        if !leaves(rt, alloc, words, Tables::empty(alloc), &CALM, wanted)? {
            return Ok(false);
        }
    }
    Ok(true)
}

#[test]
fn words_are_read_first(rt: HostRuntime) -> Result<(), Fail> {
    assert!(rt; are_refused(&rt, rt.alloc())?);
    Ok(())
}

#[test]
fn a_settings_file_has_to_be_there(rt: HostRuntime) -> Result<(), Fail> {
    let tables = Tables::empty(rt.alloc());
    let wanted = (4, "tailnetd: read fault");
    assert!(rt; leaves(&rt, rt.alloc(), "reach nowhere.toml", tables, &CALM, wanted)?);
    Ok(())
}

/// Whether the opener was asked once, for the database of the settings.
fn is_asked_once<R: Threads + Wait + Sync>(rt: &R, alloc: Global) -> Result<bool, Fail> {
    let mut given = given_over(alloc, Tables::empty(alloc), NOON, &CALM)?;
    let status = status_of(rt, alloc, "reach tailnet.toml", &mut given)?;
    let [name] = given.opener.asked() else {
        return Ok(false);
    };
    Ok(status == Status::Ok && name.as_str() == ":memory:")
}

#[test]
fn the_opener_is_asked_once(rt: HostRuntime) -> Result<(), Fail> {
    assert!(rt; is_asked_once(&rt, rt.alloc())?);
    Ok(())
}
