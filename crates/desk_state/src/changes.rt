//! Changes that machines' and operators' asks have in common.
ghost use Rattle.std.specs.Prelude.{◌≡◌, IfOk};
ghost use Rattle.desk_state.specs.Changes.{machine_gone};

use net_rows::{Change, RowKey, Tables};
use std::alloc::Global;
use tail_base::{Items, NoMemory};

/// The change by which the row of a machine goes.
pub fn machine_gone(alloc: Global, tables: &Tables, id: u32) -> Result<Change, NoMemory>
    ensures value { IfOk result (λ change. change ≡ machine_gone tables.now.rows id) }
{
    let mut gone = Items::new(alloc);
    gone.push(RowKey::Machine(id))?;
    Ok(Change {
        puts: Items::new(alloc),
        gone,
        next: tables.next(),
    })
}
