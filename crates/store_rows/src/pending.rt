//! Rows of `pending`.
ghost use Rattle.std.specs.Prelude.{◌≡◌, IfOk, OnOk};
ghost use Rattle.store_rows.specs.Readable.{IsReadable};
ghost use Rattle.store_rows.specs.Reads.{IsReadBack};
ghost use Rattle.store_rows.specs.Rows.{IsTypedPending, pending_cells};

use crate::cell::Cell;
use crate::grouped::{add, add_three};
use crate::part::{End, One, Part};
use net_addr::{Moment, Prefix};
use net_rows::Pending;
use std::alloc::Global;
use tail_base::{Items, MachineKey, NoMemory, NodeKey, Tag, Text};

/// The row of a pending entry: its id, text and keys, what it asked for, and when it was made.
pub fn write_pending(alloc: Global, entry: &Pending) -> Result<Items<Cell>, NoMemory>
    ensures value { IfOk result (λ made. made ≡ pending_cells entry.now) }
    ensures readable { OnOk result (IsReadable pending_cells IsTypedPending entry.now) }
{
    let mut row = Items::new(alloc);
    add_three(alloc, &mut row, &entry.id, &entry.text, &entry.machine)?;
    add_three(alloc, &mut row, &entry.node, &entry.host, &entry.routes)?;
    add_three(
        alloc,
        &mut row,
        &entry.tags,
        &entry.ephemeral,
        &entry.expiry,
    )?;
    add(alloc, &mut row, &entry.made)?;
    Ok(row)
}

/// The columns from the tags on.
type Rest = One<Items<Tag>, One<bool, One<Option<Moment>, One<Moment, End>>>>;

/// All columns, in the order of the schema.
type Columns = One<
    u32,
    One<Text, One<MachineKey, One<NodeKey, One<Text, One<Items<Prefix>, Rest>>>>>,
>;

/// The pending entry of these columns.
fn of_columns(columns: Columns) -> Pending
    ensures value { result ≡ record {
      id = columns.0;
      text = columns.1.0;
      machine = columns.1.1.0;
      node = columns.1.1.1.0;
      host = columns.1.1.1.1.0;
      routes = columns.1.1.1.1.1.0;
      tags = columns.1.1.1.1.1.1.0;
      ephemeral = columns.1.1.1.1.1.1.1.0;
      expiry = columns.1.1.1.1.1.1.1.1.0;
      made = columns.1.1.1.1.1.1.1.1.1.0;
    } }
{
    let One(id, columns) = columns;
    let One(text, columns) = columns;
    let One(machine, columns) = columns;
    let One(node, columns) = columns;
    let One(host, columns) = columns;
    let One(routes, columns) = columns;
    let One(tags, columns) = columns;
    let One(ephemeral, columns) = columns;
    let One(expiry, columns) = columns;
    let One(made, _) = columns;
    Pending {
        id,
        text,
        machine,
        node,
        host,
        routes,
        tags,
        ephemeral,
        expiry,
        made,
    }
}

/// The pending entry whose row this is, if it is the row of one.
pub fn read_pending(alloc: Global, given: &[Cell]) -> Result<Option<Pending>, NoMemory>
    ensures exact { IfOk result (λ found. IsReadBack pending_cells IsTypedPending given.now found) }
{
    match Columns::read_part(alloc, given)? {
        Some(columns) => Ok(Some(of_columns(columns))),
        None => Ok(None),
    }
}
