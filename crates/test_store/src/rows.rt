//! Rows of every kind, written and read again.
use crate::made::{made, run};
use harness_keeper::{change_to, commit_twice, load};
use keeper_sqlite::SqliteKeeper;
use net_rows::{Change, Tables};
use sqlite::{Alter, Connection, MemStore};
use std::alloc::Global;
use std::test::Fail;

/// A row of each kind, by SQL alone.
const ROWS: &str = "
    UPDATE meta SET next_user = 2, next_key = 3, next_pending = 4, next_machine = 5;
    INSERT INTO users VALUES (1, 'ann@');
    INSERT INTO auth_keys VALUES (2, 'k2', 1, 1, 0, 1, 1000000000, 'tag:web,tag:db');
    INSERT INTO pending VALUES (3, 'reg-3-ab',
        x'1111111111111111111111111111111111111111111111111111111111111111',
        x'2222222222222222222222222222222222222222222222222222222222222222',
        'a host', '10.0.0.0/8,192.168.0.0/16', 'tag:ci', 0, NULL, 1000000000);
    INSERT INTO machines VALUES (4, 1,
        x'3333333333333333333333333333333333333333333333333333333333333333',
        x'4444444444444444444444444444444444444444444444444444444444444444',
        x'5555555555555555555555555555555555555555555555555555555555555555',
        'Ann''s laptop', 'laptop', 1681915905, x'fd7a115ca1e000000000000000000001',
        '192.0.2.1:41641,[2001:db8::1]:41641', 3, '10.1.0.0/16', '', 'tag:web', 1, NULL, 1000000001);
    INSERT INTO extras VALUES (1, 'nas.example', '100.64.0.9'), (2, 'nas.example', 'fd7a::9');
    INSERT INTO policy VALUES (1, '{}');
";

/// A query for each of the tables.
const TABLES: &str = "SELECT * FROM meta
SELECT * FROM users
SELECT * FROM auth_keys
SELECT * FROM pending
SELECT * FROM machines
SELECT * FROM extras
SELECT * FROM policy";

/// The rows of a table as a text.
fn shown<S: Alter>(alloc: Global, conn: &mut Connection<S>, text: &str) -> Result<String, Fail> {
    match conn.query_all(text, &[]) {
        Ok(rows) => Ok(format!(in alloc; "{:?}", rows.as_slice())?),
        Err(_) => Err(Fail::from("a query failed")),
    }
}

/// A database with these rows.
fn with_rows(alloc: Global) -> Result<Connection<MemStore>, Fail> {
    let mut conn = made(alloc)?;
    run(&mut conn, ROWS)?;
    Ok(conn)
}

/// Adds the rows of each table as a line.
fn add_shown<S: Alter>(
    alloc: Global,
    out: &mut String,
    conn: &mut Connection<S>,
) -> Result<(), Fail> {
    for table in TABLES.lines() {
        let rows = shown(alloc, conn, table)?;
        out.push_str(rows.as_str())?;
        out.push_str("\n")?;
    }
    Ok(())
}

/// The tables of a database as a text.
fn text_of<S: Alter + Drop>(alloc: Global, mut conn: Connection<S>) -> Result<String, Fail> {
    let mut out = String::new(alloc);
    add_shown(alloc, &mut out, &mut conn)?;
    Ok(out)
}

fn first_text(alloc: Global) -> Result<String, Fail> {
    let conn = with_rows(alloc)?;
    text_of(alloc, conn)
}

/// The tables of these rows.
fn loaded(alloc: Global) -> Result<Tables, Fail> {
    load(alloc, &mut SqliteKeeper::adopt(with_rows(alloc)?))
}

/// The change that makes these rows of none.
fn whole_change(alloc: Global) -> Result<Change, Fail> {
    let tables = loaded(alloc)?;
    Ok(change_to(alloc, &tables)?)
}

/// A database to which the change was committed twice.
fn copied(alloc: Global, change: &Change) -> Result<Connection<MemStore>, Fail> {
    let mut keeper = SqliteKeeper::adopt(made(alloc)?);
    commit_twice(alloc, &mut keeper, change)?;
    Ok(keeper.give_back())
}

fn copied_text(alloc: Global) -> Result<String, Fail> {
    let change = whole_change(alloc)?;
    let conn = copied(alloc, &change)?;
    text_of(alloc, conn)
}

#[test]
fn what_is_read_is_written_the_same(rt: HostRuntime) -> Result<(), Fail> {
    let first = first_text(rt.alloc())?;
    let copied = copied_text(rt.alloc())?;
    assert_eq!(rt; copied.as_str(), first.as_str());
    Ok(())
}
