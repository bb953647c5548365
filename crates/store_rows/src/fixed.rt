//! A column that has the same number in each row.
use crate::cell::Cell;
use crate::column::Column;
use crate::same::is_number;
use std::alloc::Global;
use tail_base::NoMemory;

/// The number 1: the key of a table with one row, and the version of the schema.
#[derive(Drop)]
pub(crate) struct Fixed;

impl Column for Fixed {
    ghost use Rattle.std.specs.Prelude.{pos, ⊤};
    ghost use Rattle.store_rows.specs.declared.cell.Cell.TheVariants.{Number};

    ghost stored = { λ _. Number (pos 1) };

    ghost Fits = { λ _. ⊤ };

    ghost Has = { λ _. ⊤ };

    fn write(&self, _: Global) -> Result<Cell, NoMemory> {
        Ok(Cell::Number(1))
    }

    fn read(_: Global, given: &Cell) -> Result<Option<Self>, NoMemory> {
        if is_number(given, 1) {
            Ok(Some(Fixed))
        } else {
            Ok(None)
        }
    }
}
