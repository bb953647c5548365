//! A change before a load.
use crate::made::made;
use harness_keeper::{answer_to, load, policy_change};
use io_edge::EdgeFault;
use keeper_sqlite::SqliteKeeper;
use net_rows::Change;
use sqlite::{Alter, Connection};
use std::alloc::Global;
use std::test::Fail;

/// What a keeper answers that hasn't loaded the tables. Another has.
fn early_answer<S: Alter + Drop>(
    alloc: Global,
    conn: Connection<S>,
    change: &Change,
) -> Result<Result<(), EdgeFault>, Fail> {
    let mut first = SqliteKeeper::adopt(conn);
    let loaded = load(alloc, &mut first);
    let mut keeper = SqliteKeeper::adopt(first.give_back());
    match loaded {
        Ok(tables) => answer_to(alloc, &mut keeper, &tables, change),
        Err(fault) => Err(fault),
    }
}

fn early_answer_in_memory(alloc: Global) -> Result<Result<(), EdgeFault>, Fail> {
    let change = policy_change(alloc, "{}")?;
    early_answer(alloc, made(alloc)?, &change)
}

#[test]
fn a_change_before_a_load_fails(rt: HostRuntime) -> Result<(), Fail> {
    let answer = early_answer_in_memory(rt.alloc())?;
    assert!(rt; answer == Err(EdgeFault::Failed));
    Ok(())
}
