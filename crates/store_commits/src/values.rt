//! Cells as the values of a database.
ghost use Rattle.std.specs.Prelude.{◌≡◌, map, pos, IfOk};
ghost use Rattle.store_rows.specs.declared.cell.Cell.TheVariants.{Number};
ghost use Rattle.sqlite.specs.Values.{bound, bound_value};
ghost use Rattle.sqlite_value.specs.Value.{owned};
ghost use Rattle.store_commits.specs.Kept.{value_of as value_as};

use crate::fault::Fault;
use sqlite::types::ValueRef;
use std::alloc::Global;
use store_rows::Cell;

/// The value that a cell is stored as.
fn value_of(cell: &Cell) -> ValueRef<'_>
    ensures value { bound_value (owned result) ≡ value_as cell.now }
{
    match cell {
        Cell::Null | Cell::Other => ValueRef::Null,
        Cell::Number(n) => ValueRef::Int(*n),
        Cell::Text(text) => ValueRef::Text(text.as_slice()),
        Cell::Blob(bytes) => ValueRef::Blob(bytes.as_slice()),
    }
}

/// The value of an id.
pub(crate) fn id_value<'a>(id: u32) -> ValueRef<'a>
    ensures value { bound_value (owned result) ≡ value_as (Number (pos id)) }
{
    ValueRef::Int(i64::from(id))
}

/// The values that cells are stored as.
pub(crate) fn values_of<'a>(alloc: Global, cells: &'a [Cell]) -> Result<Vec<ValueRef<'a>>, Fault>
    ensures value { IfOk result (λ made. bound made.items ≡ map value_as cells.now) }
{
    let mut values = Vec::new(alloc);
    for cell in cells {
        values.push(value_of(cell))?;
    }
    Ok(values)
}
