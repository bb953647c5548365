//! Changes that put one row.
ghost use Rattle.std.specs.Prelude.{◌≡◌, ◌∷◌, [], IfOk};

use net_rows::Row;
use std::alloc::Global;
use tail_base::{Items, NoMemory};

/// The row, as the only one that is put.
pub(crate) fn one_row(alloc: Global, row: Row) -> Result<Items<Row>, NoMemory>
    ensures value { IfOk result (λ puts. puts ≡ row ∷ []) }
{
    let mut puts = Items::new(alloc);
    puts.push(row)?;
    Ok(puts)
}
