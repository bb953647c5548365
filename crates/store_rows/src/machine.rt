//! Rows of `machines`.
ghost use Rattle.std.specs.Prelude.{◌≡◌, ◌++◌, IfOk, OnOk};
ghost use Rattle.store_rows.specs.Readable.{AreNamesReadable, AreWaysReadable, IsReadableMachine};
ghost use Rattle.store_rows.specs.Reads.{IsReadBack};
ghost use Rattle.store_rows.specs.Rows.{IsTypedMachine, machine_cells, name_cells, way_cells};

use crate::addresses::{V4, V6};
use crate::cell::Cell;
use crate::grouped::{add, add_three};
use crate::part::{End, One, Part};
use net_addr::{Endpoint, Moment, Prefix};
use net_rows::Machine;
use std::alloc::Global;
use tail_base::{DiscoKey, Items, Label, MachineKey, NoMemory, NodeKey, Tag, Text};

/// Adds the columns up to the addresses.
fn add_names(alloc: Global, row: &mut Items<Cell>, m: &Machine) -> Result<(), NoMemory>
    ensures ok { OnOk result (row.new ≡ row.old ++ name_cells m.now) }
    ensures readable { OnOk result (AreNamesReadable m.now) }
{
    add_three(alloc, row, &m.id, &m.user, &m.machine)?;
    add_three(alloc, row, &m.node, &m.disco, &m.host)?;
    add_three(alloc, row, &m.name, &V4(m.v4), &V6(m.v6))
}

/// Adds the columns from the endpoints on.
fn add_ways(alloc: Global, row: &mut Items<Cell>, m: &Machine) -> Result<(), NoMemory>
    ensures ok { OnOk result (row.new ≡ row.old ++ way_cells m.now) }
    ensures readable { OnOk result (AreWaysReadable m.now) }
{
    add_three(alloc, row, &m.endpoints, &m.derp, &m.routes)?;
    add_three(alloc, row, &m.approved, &m.tags, &m.ephemeral)?;
    add(alloc, row, &m.expiry)?;
    add(alloc, row, &m.created)
}

/// The row of a machine: its ids, keys, names and addresses, its endpoints and routes, and its
/// times.
pub fn write_machine(alloc: Global, machine: &Machine) -> Result<Items<Cell>, NoMemory>
    ensures value { IfOk result (λ made. made ≡ machine_cells machine.now) }
    ensures readable { OnOk result (IsReadableMachine machine.now) }
{
    let mut row = Items::new(alloc);
    add_names(alloc, &mut row, machine)?;
    add_ways(alloc, &mut row, machine)?;
    Ok(row)
}

/// The last columns of a machine: whether it is ephemeral, and its times.
type Times = One<bool, One<Option<Moment>, One<Moment, End>>>;

/// The columns from the endpoints on.
type Ways = One<
    Items<Endpoint>,
    One<u32, One<Items<Prefix>, One<Items<Prefix>, One<Items<Tag>, Times>>>>,
>;

/// The columns from the host on.
type Names = One<Text, One<Label, One<V4, One<V6, Ways>>>>;

/// All columns, in the order of the schema.
type Columns = One<u32, One<u32, One<MachineKey, One<NodeKey, One<DiscoKey, Names>>>>>;

/// The machine of these columns.
fn of_columns(columns: Columns) -> Machine
    ensures value { result ≡ record {
      id = columns.0;
      user = columns.1.0;
      machine = columns.1.1.0;
      node = columns.1.1.1.0;
      disco = columns.1.1.1.1.0;
      host = columns.1.1.1.1.1.0;
      name = columns.1.1.1.1.1.1.0;
      v4 = columns.1.1.1.1.1.1.1.0.0;
      v6 = columns.1.1.1.1.1.1.1.1.0.0;
      endpoints = columns.1.1.1.1.1.1.1.1.1.0;
      derp = columns.1.1.1.1.1.1.1.1.1.1.0;
      routes = columns.1.1.1.1.1.1.1.1.1.1.1.0;
      approved = columns.1.1.1.1.1.1.1.1.1.1.1.1.0;
      tags = columns.1.1.1.1.1.1.1.1.1.1.1.1.1.0;
      ephemeral = columns.1.1.1.1.1.1.1.1.1.1.1.1.1.1.0;
      expiry = columns.1.1.1.1.1.1.1.1.1.1.1.1.1.1.1.0;
      created = columns.1.1.1.1.1.1.1.1.1.1.1.1.1.1.1.1.0;
    } }
{
    let One(id, columns) = columns;
    let One(user, columns) = columns;
    let One(machine, columns) = columns;
    let One(node, columns) = columns;
    let One(disco, columns) = columns;
    let One(host, columns) = columns;
    let One(name, columns) = columns;
    let One(V4(v4), columns) = columns;
    let One(V6(v6), columns) = columns;
    let One(endpoints, columns) = columns;
    let One(derp, columns) = columns;
    let One(routes, columns) = columns;
    let One(approved, columns) = columns;
    let One(tags, columns) = columns;
    let One(ephemeral, columns) = columns;
    let One(expiry, columns) = columns;
    let One(created, _) = columns;
    Machine {
        id,
        user,
        machine,
        node,
        disco,
        host,
        name,
        v4,
        v6,
        endpoints,
        derp,
        routes,
        approved,
        tags,
        ephemeral,
        expiry,
        created,
    }
}

/// The machine whose row this is, if it is the row of one.
pub fn read_machine(alloc: Global, given: &[Cell]) -> Result<Option<Machine>, NoMemory>
    ensures exact { IfOk result (λ found. IsReadBack machine_cells IsTypedMachine given.now found) }
{
    match Columns::read_part(alloc, given)? {
        Some(columns) => Ok(Some(of_columns(columns))),
        None => Ok(None),
    }
}
