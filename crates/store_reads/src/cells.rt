//! The values of a database as cells.
ghost use Rattle.std.specs.Prelude.{◌≡◌, map, IfOk};
ghost use Rattle.sqlite_value.specs.Value.{owned};
ghost use Rattle.sqlite_value.specs.declared.value.Value.TheVariants as shape;
ghost use Rattle.store_reads.specs.Readable.{cell_in};

use sqlite::Row;
use sqlite::types::ValueRef;
use std::alloc::Global;
use std::str::from_utf8;
use store_rows::Cell;
use tail_base::{Bytes, Items, NoMemory, Text};

/// The cell of a text's bytes.
fn text_cell(alloc: Global, bytes: &[u8]) -> Result<Cell, NoMemory>
    ensures value { IfOk result (λ made. made ≡ cell_in (shape.Text bytes.now)) }
{
    match from_utf8(bytes) {
        Ok(text) => Ok(Cell::Text(Text::from_str(alloc, text)?)),
        Err(_) => Ok(Cell::Other),
    }
}

/// The cell that stands for a value.
fn cell_of(alloc: Global, value: ValueRef<'_>) -> Result<Cell, NoMemory>
    ensures value { IfOk result (λ made. made ≡ cell_in (owned value.entry)) }
{
    match value {
        ValueRef::Null => Ok(Cell::Null),
        ValueRef::Int(n) => Ok(Cell::Number(n)),
        ValueRef::Real(_) => Ok(Cell::Other),
        ValueRef::Text(bytes) => text_cell(alloc, bytes),
        ValueRef::Blob(bytes) => Ok(Cell::Blob(Bytes::from_slice(alloc, bytes)?)),
    }
}

/// The cells that stand for the values of a row.
pub(crate) fn cells_of(alloc: Global, row: &Row) -> Result<Items<Cell>, NoMemory>
    ensures value { IfOk result (λ made. made ≡ map cell_in row.now) }
{
    let mut cells = Items::new(alloc);
    for at in 0..row.column_count() {
        if let Ok(value) = row.get_ref(at) {
            let cell = cell_of(alloc, value)?;
            cells.push(cell)?;
        }
    }
    Ok(cells)
}
