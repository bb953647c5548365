//! Columns that stand beside one another.
ghost use Rattle.std.specs.Prelude.{◌≡◌, ◌++◌, ◌∷◌, [], OnOk};
ghost use Rattle.store_rows.specs.Readable.{IsWritable};

use crate::cell::Cell;
use crate::column::Column;
use std::alloc::Global;
use tail_base::{Items, NoMemory};

/// Adds a column to a row.
pub(crate) fn add<A: Column>(alloc: Global, row: &mut Items<Cell>, a: &A) -> Result<(), NoMemory>
    ensures ok { OnOk result (row.new ≡ row.old ++ A.stored a.now ∷ []) }
    ensures writable { OnOk result (IsWritable A.stored A.Has a.now) }
{
    let cell = a.write(alloc)?;
    row.push(cell)
}

/// Adds three columns to a row.
pub(crate) fn add_three<A: Column, B: Column, C: Column>(
    alloc: Global,
    row: &mut Items<Cell>,
    a: &A,
    b: &B,
    c: &C,
) -> Result<(), NoMemory>
    ensures ok { OnOk result
        (row.new ≡ row.old ++ A.stored a.now ∷ B.stored b.now ∷ C.stored c.now ∷ []) }
    ensures writable { OnOk result (IsWritable A.stored A.Has a.now
        × IsWritable B.stored B.Has b.now × IsWritable C.stored C.Has c.now) }
{
    add(alloc, row, a)?;
    add(alloc, row, b)?;
    add(alloc, row, c)
}
