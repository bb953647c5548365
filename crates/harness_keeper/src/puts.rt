//! Tables as the change that makes them of empty ones.
use net_rows::{Change, Row, Tables};
use std::alloc::Global;
use std::test::Fail;
use tail_base::{Duplicate, Items, NoMemory, Text};

fn put_users(alloc: Global, puts: &mut Items<Row>, tables: &Tables) -> Result<(), NoMemory> {
    for user in tables.users() {
        puts.push(Row::User(user.copy(alloc)?))?;
    }
    Ok(())
}

fn put_keys(alloc: Global, puts: &mut Items<Row>, tables: &Tables) -> Result<(), NoMemory> {
    for key in tables.keys() {
        puts.push(Row::Key(key.copy(alloc)?))?;
    }
    Ok(())
}

fn put_pending(alloc: Global, puts: &mut Items<Row>, tables: &Tables) -> Result<(), NoMemory> {
    for entry in tables.pending() {
        puts.push(Row::Pending(entry.copy(alloc)?))?;
    }
    Ok(())
}

fn put_machines(alloc: Global, puts: &mut Items<Row>, tables: &Tables) -> Result<(), NoMemory> {
    for machine in tables.machines() {
        puts.push(Row::Machine(machine.copy(alloc)?))?;
    }
    Ok(())
}

/// Adds what puts the rows of these tables without ids.
fn put_single(alloc: Global, puts: &mut Items<Row>, tables: &Tables) -> Result<(), NoMemory> {
    puts.push(Row::Extras(Items::from_slice(alloc, tables.extras())?))?;
    if let Some(text) = tables.policy() {
        puts.push(Row::Policy(text.copy(alloc)?))?;
    }
    Ok(())
}

/// Adds what puts the rows of these tables.
fn put_rows(alloc: Global, puts: &mut Items<Row>, tables: &Tables) -> Result<(), NoMemory> {
    put_users(alloc, puts, tables)?;
    put_keys(alloc, puts, tables)?;
    put_pending(alloc, puts, tables)?;
    put_machines(alloc, puts, tables)?;
    put_single(alloc, puts, tables)
}

/// The change that makes these tables of empty ones.
pub fn change_to(alloc: Global, tables: &Tables) -> Result<Change, NoMemory> {
    let mut puts = Items::new(alloc);
    put_rows(alloc, &mut puts, tables)?;
    Ok(Change {
        puts,
        gone: Items::new(alloc),
        next: tables.next(),
    })
}

/// A change of empty tables that keeps this policy.
pub fn policy_change(alloc: Global, text: &str) -> Result<Change, Fail> {
    let mut puts = Items::new(alloc);
    puts.push(Row::Policy(Text::from_str(alloc, text)?))?;
    Ok(Change {
        puts,
        gone: Items::new(alloc),
        next: Tables::empty(alloc).next(),
    })
}
