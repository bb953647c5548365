//! Tables of conversations, each of which `pipe` holds, byte for byte.
use harness_conversations::{
    FAULTED_POLLS, FIRST_ROUTER, GRANTS, KEPT, KEPT_GRANTS, LIVES, POLLS, ROUTE_BODIES, ROUTE_ROWS,
    SAVES, TAGS, TESTS, WORKED,
};
use harness_pipe::first_not_held;
use harness_refusals::{FAULTY_BODIES, FAULTY_RECORDS, RECORDS, REFUSALS};
use std::alloc::Global;
use std::process::Abort;
use std::test::Fail;
use tail_base::NoMemory;

/// All tables that stand as they are: each conversation of them has a name.
const TABLES: [&str; 17] = [
    WORKED,
    LIVES,
    POLLS,
    FAULTED_POLLS,
    REFUSALS,
    FAULTY_BODIES,
    SAVES,
    TAGS,
    TESTS,
    KEPT,
    GRANTS,
    KEPT_GRANTS,
    ROUTE_ROWS,
    FIRST_ROUTER,
    ROUTE_BODIES,
    RECORDS,
    FAULTY_RECORDS,
];

/// Asserts that all conversations of a table are held.
pub(crate) fn assert_held(rt: &impl Abort, alloc: Global, table: &str) -> Result<(), NoMemory> {
    let name = first_not_held(alloc, table)?;
    assert_eq!(rt; name, None);
    Ok(())
}

#[test]
fn conversations_are_held(rt: HostRuntime) -> Result<(), Fail> {
    for table in TABLES {
        assert_held(&rt, rt.alloc(), table)?;
    }
    Ok(())
}
