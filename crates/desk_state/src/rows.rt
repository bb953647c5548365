//! The row of a machine, made, renewed or changed.
ghost use Rattle.std.specs.Prelude.{◌≡◌, IfOk};
ghost use Rattle.std.specs.Option.{option_copied};
ghost use Rattle.net_rows.specs.declared.machine.Machine.{Machine};
ghost use Rattle.desk_state.specs.Rows as spec;

use crate::entrant::Entrant;
use crate::place::Place;
use net_rows::{AuthKey, Change, Counters, Machine, Pending, Row, RowKey, Tables};
use std::alloc::Global;
use tail_base::{DiscoKey, Duplicate, Items, MachineKey, NoMemory};

/// The row of a machine that enters at this place.
pub fn machine_row(alloc: Global, machine: &MachineKey, entrant: Entrant, place: Place) -> Machine
    ensures value { result ≡ spec.machine_row machine.now entrant place }
{
    Machine {
        id: place.id,
        user: entrant.user,
        machine: *machine,
        node: entrant.node,
        disco: DiscoKey([0; 32]),
        host: entrant.host,
        name: place.name,
        v4: place.v4,
        v6: place.v6,
        endpoints: Items::new(alloc),
        derp: 0,
        routes: entrant.routes,
        approved: place.approved,
        tags: entrant.tags,
        ephemeral: entrant.ephemeral,
        expiry: entrant.expiry,
        created: place.created,
    }
}

fn with_used_key(alloc: Global, row: Machine, key: Option<&AuthKey>) -> Result<Items<Row>, NoMemory>
    ensures value { IfOk result (λ puts. puts ≡ spec.puts_of row (option_copied key.entry)) }
{
    let mut puts = Items::new(alloc);
    puts.push(Row::Machine(row))?;
    if let Some(key) = key {
        let mut used = key.copy(alloc)?;
        used.used = true;
        puts.push(Row::Key(used))?;
    }
    Ok(puts)
}

/// The pending entry goes, if there is one.
pub fn pending_gone(alloc: Global, pending: Option<&Pending>) -> Result<Items<RowKey>, NoMemory>
    ensures value { IfOk result (λ gone. gone ≡ spec.pending_gone (option_copied pending.entry)) }
{
    let mut gone = Items::new(alloc);
    if let Some(pending) = pending {
        gone.push(RowKey::Pending(pending.id))?;
    }
    Ok(gone)
}

/// A machine's row is put, with the key that was used and without the pending entry, and this is
/// the next id.
pub fn row_change(
    alloc: Global,
    tables: &Tables,
    row: Machine,
    next: u32,
    key: Option<&AuthKey>,
    pending: Option<&Pending>,
) -> Result<Change, NoMemory>
    ensures value { IfOk result (λ c. c ≡ spec.row_change tables.now.rows row next
        (option_copied key.entry) (option_copied pending.entry)) }
{
    Ok(Change {
        puts: with_used_key(alloc, row, key)?,
        gone: pending_gone(alloc, pending)?,
        next: Counters {
            machine: next,
            ..tables.next()
        },
    })
}

/// A row that is there already is replaced.
pub fn row_replaced(alloc: Global, tables: &Tables, row: Machine) -> Result<Change, NoMemory>
    ensures value { IfOk result (λ c. c ≡ spec.row_replaced tables.now.rows row) }
{
    row_change(alloc, tables, row, tables.next().machine, None, None)
}
