//! Values that stand in one column.
ghost use Rattle.std.specs.Prelude.{◌≡◌, IfOk, OnOk};
ghost use Rattle.store_rows.specs.Readable.{IsWritable};
ghost use Rattle.store_rows.specs.Reads.{IsReadBack};
ghost use Rattle.store_rows.specs.declared.cell.Cell.{Cell};

use crate::cell::Cell;
use std::alloc::Global;
use tail_base::NoMemory;

/// A value that stands in one column.
pub trait Column: Drop + Sized {
    /// How the value is stored.
    ghost stored: { Self → Cell };

    /// The values that a column may hold.
    ghost Fits: { Self → Type 0 };

    /// What each value of the type has.
    ghost Has: { Self → Type 0 };

    /// The value as it is stored.
    fn write(&self, alloc: Global) -> Result<Cell, NoMemory>
        ensures value { IfOk result (λ made. made ≡ stored self.now) }
        ensures writable { OnOk result (IsWritable stored Has self.now) };

    /// The value that is stored so, if there is one.
    fn read(alloc: Global, given: &Cell) -> Result<Option<Self>, NoMemory>
        ensures exact { IfOk result (λ found. IsReadBack stored Fits given.now found) };
}
