//! The row of `meta`.
ghost use Rattle.std.specs.Prelude.{◌≡◌, IfOk, OnOk};
ghost use Rattle.store_rows.specs.Reads.{IsReadBack};
ghost use Rattle.store_rows.specs.Rows.{IsTypedCounters, meta_cells};

use crate::cell::Cell;
use crate::fixed::Fixed;
use crate::grouped::add_three;
use crate::part::{End, One, Part};
use net_rows::Counters;
use std::alloc::Global;
use tail_base::{Items, NoMemory};

/// The row of the counters: 1, the version, which is 1, and the next id of each kind.
pub fn write_meta(alloc: Global, next: &Counters) -> Result<Items<Cell>, NoMemory>
    ensures value { IfOk result (λ made. made ≡ meta_cells next.now) }
    ensures readable { OnOk result (IsTypedCounters next.now) }
{
    let mut row = Items::new(alloc);
    add_three(alloc, &mut row, &1u32, &1u32, &next.user)?;
    add_three(alloc, &mut row, &next.key, &next.pending, &next.machine)?;
    Ok(row)
}

/// The columns, in the order of the schema.
type Columns = One<Fixed, One<Fixed, One<u32, One<u32, One<u32, One<u32, End>>>>>>;

/// The counters of these columns.
fn of_columns(columns: Columns) -> Counters
    ensures value { result ≡ record {
      user = columns.1.1.0;
      key = columns.1.1.1.0;
      pending = columns.1.1.1.1.0;
      machine = columns.1.1.1.1.1.0;
    } }
{
    let One(_, columns) = columns;
    let One(_, columns) = columns;
    let One(user, columns) = columns;
    let One(key, columns) = columns;
    let One(pending, columns) = columns;
    let One(machine, _) = columns;
    Counters {
        user,
        key,
        pending,
        machine,
    }
}

/// The counters whose row this is, if it is the row of some.
pub fn read_meta(alloc: Global, given: &[Cell]) -> Result<Option<Counters>, NoMemory>
    ensures exact { IfOk result (λ found. IsReadBack meta_cells IsTypedCounters given.now found) }
{
    match Columns::read_part(alloc, given)? {
        Some(columns) => Ok(Some(of_columns(columns))),
        None => Ok(None),
    }
}
