//! Whether bytes or numbers are the same.
ghost use Rattle.std.specs.Prelude.{◌≡◌, ◌↔◌, IsTrue, pos};
ghost use Rattle.store_rows.specs.declared.cell.Cell.TheVariants.{Number};

use crate::cell::Cell;

/// Whether two byte strings are equal.
pub(crate) fn is_same(a: &[u8], b: &[u8]) -> bool
    ensures value { IsTrue result ↔ (a.now ≡ b.now) }
{
    a == b
}

/// Whether the cell is this number.
pub(crate) fn is_number(given: &Cell, n: u32) -> bool
    ensures value { IsTrue result ↔ (given.now ≡ Number (pos n)) }
{
    match given {
        Cell::Number(m) => *m == i64::from(n),
        Cell::Null | Cell::Text(_) | Cell::Blob(_) | Cell::Other => false,
    }
}
