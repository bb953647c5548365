//! Where a machine stands: its id, name and addresses.
ghost use Rattle.std.specs.Prelude.{◌≡◌, IfOk};
ghost use Rattle.std.specs.Option.{option_copied};
ghost use Rattle.tail_base.specs.Steps.{Gives};
ghost use Rattle.desk_state.specs.Rows as spec;

use crate::{Refusal, Scarce, Snapshot};
use allot::{free_name, least_address};
use net_addr::{Addr, Moment, Prefix};
use net_rows::{Kind, Machine};
use std::alloc::Global;
use tail_base::{Duplicate, Failure, Items, Label, MachineKey, NoMemory, NodeKey, Text};

/// What a machine keeps when its row is renewed.
#[derive(Drop)]
pub struct Place {
    pub id: u32,
    pub name: Label,
    pub v4: Addr,
    pub v6: Addr,
    /// The routes that an operator approved.
    pub approved: Items<Prefix>,
    pub created: Moment,
    /// The next id of a machine.
    pub next: u32,
}

/// Whether another machine's row has the node key.
pub fn is_taken(machines: &[Machine], machine: &MachineKey, node: &NodeKey) -> bool
    ensures value { result ≡ spec.is_taken machines.now machine.now node.now }
{
    machines
        .iter()
        .any(|row| row.node == *node && row.machine != *machine)
}

fn kept_place(alloc: Global, at: &Snapshot<'_>, row: &Machine) -> Result<Place, NoMemory>
    ensures value { IfOk result (λ place. place ≡ spec.kept_place at.now row.now) }
{
    Ok(Place {
        id: row.id,
        name: row.name.copy(alloc)?,
        v4: row.v4,
        v6: row.v6,
        approved: row.approved.copy(alloc)?,
        created: row.created,
        next: at.tables.next().machine,
    })
}

fn new_place(alloc: Global, at: &Snapshot<'_>, host: &Text) -> Result<Place, Failure<Refusal>>
    ensures value { Gives (λ p. p) result (spec.new_place at.now host.now) }
{
    if !at.tables.room(Kind::Machine) {
        return Err(Failure::Fault(Refusal::Full(Scarce::Machine)));
    }
    let Some(v4) = least_address(at.settings, at.tables, false) else {
        return Err(Failure::Fault(Refusal::AddressesSpent { family: 4 }));
    };
    let Some(v6) = least_address(at.settings, at.tables, true) else {
        return Err(Failure::Fault(Refusal::AddressesSpent { family: 6 }));
    };
    let id = at.tables.next().machine;
    Ok(Place {
        id,
        name: free_name(alloc, at.tables, host.as_slice())?,
        v4,
        v6,
        approved: Items::new(alloc),
        created: at.time,
        next: id + 1,
    })
}

/// Where the machine stands: where its row does, or, without one, at the next id, the least free
/// addresses and the first free name.
pub fn place_for(
    alloc: Global,
    at: &Snapshot<'_>,
    host: &Text,
    row: Option<&Machine>,
) -> Result<Place, Failure<Refusal>>
    ensures value { Gives (λ p. p) result
        (spec.place_for at.now host.now (option_copied row.entry)) }
{
    match row {
        Some(row) => Ok(kept_place(alloc, at, row)?),
        None => new_place(alloc, at, host),
    }
}
