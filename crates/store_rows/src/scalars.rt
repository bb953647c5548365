//! Numbers, truth values and moments in a column.
ghost use Rattle.std.specs.Prelude.{◌≡◌, ◌<◌, ◌^◌, pos, ⊤};
ghost use Rattle.net_addr.specs.Moments.{IsMoment};
ghost use Rattle.store_rows.specs.Cells.{truth_cell};
ghost use Rattle.store_rows.specs.declared.cell.Cell.TheVariants.{Number};
ghost use Rattle.store_rows.specs.Reads.{IsReadBack};

use crate::cell::Cell;
use crate::column::Column;
use net_addr::{FIRST_SECOND, LAST_SECOND, Moment};
use std::alloc::Global;
use tail_base::NoMemory;

impl Column for u32 {
    ghost use Rattle.std.specs.Prelude.{◌<◌, ◌^◌, pos};
    ghost use Rattle.store_rows.specs.declared.cell.Cell.TheVariants.{Number};

    ghost stored = { λ n. Number (pos n) };

    ghost Fits = { λ n. n < 2 ^ 32 };

    ghost Has = { λ n. n < 2 ^ 32 };

    fn write(&self, _: Global) -> Result<Cell, NoMemory> {
        Ok(Cell::Number(i64::from(*self)))
    }

    fn read(_: Global, given: &Cell) -> Result<Option<Self>, NoMemory> {
        match given {
            Cell::Number(n) => Ok(number_in(*n)),
            Cell::Null | Cell::Text(_) | Cell::Blob(_) | Cell::Other => Ok(None),
        }
    }
}

/// The number of 32 bits that it is, if it is one.
pub(crate) fn number_in(n: i64) -> Option<u32>
    ensures exact { IsReadBack pos (λ m. m < 2 ^ 32) n result }
{
    if 0 <= n && n <= 4_294_967_295 {
        Some(n as u32)
    } else {
        None
    }
}

impl Column for bool {
    ghost use Rattle.std.specs.Prelude.{⊤};
    ghost use Rattle.store_rows.specs.Cells.{truth_cell};

    ghost stored = { truth_cell };

    ghost Fits = { λ _. ⊤ };

    ghost Has = { λ _. ⊤ };

    fn write(&self, _: Global) -> Result<Cell, NoMemory> {
        Ok(Cell::Number(i64::from(*self)))
    }

    fn read(_: Global, given: &Cell) -> Result<Option<Self>, NoMemory> {
        match given {
            Cell::Number(n) => Ok(truth_in(*n)),
            Cell::Null | Cell::Text(_) | Cell::Blob(_) | Cell::Other => Ok(None),
        }
    }
}

/// The truth value that it stands for, if it is 0 or 1.
fn truth_in(n: i64) -> Option<bool>
    ensures exact { IsReadBack truth_cell (λ _. ⊤) (Number n) result }
{
    if n == 0 {
        Some(false)
    } else if n == 1 {
        Some(true)
    } else {
        None
    }
}

impl Column for Moment {
    ghost use Rattle.net_addr.specs.Moments.{IsMoment};
    ghost use Rattle.store_rows.specs.declared.cell.Cell.TheVariants.{Number};

    ghost stored = { Number };

    ghost Fits = { IsMoment };

    ghost Has = { IsMoment };

    fn write(&self, _: Global) -> Result<Cell, NoMemory> {
        Ok(Cell::Number(self.seconds()))
    }

    fn read(_: Global, given: &Cell) -> Result<Option<Self>, NoMemory> {
        match given {
            Cell::Number(n) => Ok(moment_in(*n)),
            Cell::Null | Cell::Text(_) | Cell::Blob(_) | Cell::Other => Ok(None),
        }
    }
}

/// The moment of these seconds, if it is one.
fn moment_in(n: i64) -> Option<Moment>
    ensures exact { IsReadBack (λ m. m) IsMoment n result }
{
    if FIRST_SECOND <= n && n <= LAST_SECOND {
        Some(Moment::clamp(n))
    } else {
        None
    }
}

impl Column for Option<Moment> {
    ghost use Rattle.store_rows.specs.Cells.{expiry_cell, IsExpiry};

    ghost stored = { expiry_cell };

    ghost Fits = { IsExpiry };

    ghost Has = { IsExpiry };

    fn write(&self, _: Global) -> Result<Cell, NoMemory> {
        match self {
            Some(moment) => Ok(Cell::Number(moment.seconds())),
            None => Ok(Cell::Null),
        }
    }

    fn read(_: Global, given: &Cell) -> Result<Option<Self>, NoMemory> {
        match given {
            Cell::Null => Ok(Some(None)),
            Cell::Number(n) => match moment_in(*n) {
                Some(moment) => Ok(Some(Some(moment))),
                None => Ok(None),
            },
            Cell::Text(_) | Cell::Blob(_) | Cell::Other => Ok(None),
        }
    }
}
