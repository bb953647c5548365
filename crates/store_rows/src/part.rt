//! Rows and ends of rows, column by column.
ghost use Rattle.std.specs.Prelude.{IfOk, List};
ghost use Rattle.store_rows.specs.Reads.{IsReadBack};
ghost use Rattle.store_rows.specs.declared.cell.Cell.{Cell};

use crate::cell::Cell;
use crate::column::Column;
use std::alloc::Global;
use tail_base::NoMemory;

/// The values of the last columns of a row.
pub(crate) trait Part: Drop + Sized {
    /// How the values are stored.
    ghost cells: { Self → List Cell };

    /// The values that the types have.
    ghost Fits: { Self → Type 0 };

    /// The values that are stored so, if there are some.
    fn read_part(alloc: Global, given: &[Cell]) -> Result<Option<Self>, NoMemory>
        ensures exact { IfOk result (λ found. IsReadBack cells Fits given.now found) };
}

/// The end of a row: no column.
#[derive(Drop)]
pub(crate) struct End;

/// One column, and those after it.
#[derive(Drop)]
pub(crate) struct One<A, Q>(pub A, pub Q);

impl Part for End {
    ghost use Rattle.std.specs.Prelude.{[], ⊤};

    ghost cells = { λ _. [] };

    ghost Fits = { λ _. ⊤ };

    fn read_part(_: Global, given: &[Cell]) -> Result<Option<Self>, NoMemory> {
        if given.is_empty() {
            Ok(Some(End))
        } else {
            Ok(None)
        }
    }
}

impl<A: Column, Q: Part> Part for One<A, Q> {
    ghost use Rattle.std.specs.Prelude.{◌∷◌};

    ghost cells = { λ x. A.stored x.0 ∷ Q.cells x.1 };

    ghost Fits = { λ x. A.Fits x.0 × Q.Fits x.1 };

    fn read_part(alloc: Global, given: &[Cell]) -> Result<Option<Self>, NoMemory> {
        let [a, rest @ ..] = given else {
            return Ok(None);
        };
        let Some(first) = A::read(alloc, a)? else {
            return Ok(None);
        };
        let Some(more) = Q::read_part(alloc, rest)? else {
            return Ok(None);
        };
        Ok(Some(One(first, more)))
    }
}
