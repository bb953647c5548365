//! Databases that tests make.
use keeper_sqlite::SqliteKeeper;
use net_rows::Tables;
use row_keeper::{Keeper, LoadFault};
use sqlite::{Alter, Connection, MemStore};
use std::alloc::Global;
use std::test::Fail;

fn load_once<K: Keeper>(alloc: Global, keeper: &mut K) -> Result<(), Fail> {
    match keeper.load(alloc) {
        Ok(_) => Ok(()),
        Err(_) => Err(Fail::from("an empty database isn't loaded")),
    }
}

/// A database in memory that has the tables, and no row but that of the counters.
pub(crate) fn made(alloc: Global) -> Result<Connection<MemStore>, Fail> {
    let mut keeper = SqliteKeeper::adopt(Connection::open_in_memory(alloc)?);
    load_once(alloc, &mut keeper)?;
    Ok(keeper.give_back())
}

/// Runs these statements, one behind the other.
pub(crate) fn run<S: Alter>(conn: &mut Connection<S>, statements: &str) -> Result<(), Fail> {
    match conn.execute_batch(statements) {
        Ok(()) => Ok(()),
        Err(_) => Err(Fail::from("a statement failed")),
    }
}

/// What is loaded of a database after these statements.
pub(crate) fn loaded_after(
    alloc: Global,
    statements: &str,
) -> Result<Result<Tables, LoadFault>, Fail> {
    let mut conn = made(alloc)?;
    run(&mut conn, statements)?;
    Ok(SqliteKeeper::adopt(conn).load(alloc))
}
