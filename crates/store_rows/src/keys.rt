//! Keys in a column: their 32 bytes.
ghost use Rattle.std.specs.Prelude.{◌≡◌, length};
ghost use Rattle.store_rows.specs.Reads.{IsReadBack};

use crate::cell::Cell;
use crate::column::Column;
use std::alloc::Global;
use tail_base::{Bytes, DiscoKey, MachineKey, NoMemory, NodeKey};

/// The 32 bytes of a key, where there are so many.
fn key_in(bytes: &[u8]) -> Option<[u8; 32]>
    ensures exact { IsReadBack (λ key. key) (λ key. length key ≡ 32) bytes.now result }
{
    match <[u8; 32]>::try_from(bytes) {
        Ok(key) => Some(key),
        Err(_) => None,
    }
}

impl Column for MachineKey {
    ghost use Rattle.std.specs.Prelude.{◌≡◌, length};
    ghost use Rattle.store_rows.specs.declared.cell.Cell.TheVariants.{Blob};

    ghost stored = { λ key. Blob key.0 };

    ghost Fits = { λ key. length key.0 ≡ 32 };

    ghost Has = { λ key. length key.0 ≡ 32 };

    fn write(&self, alloc: Global) -> Result<Cell, NoMemory> {
        Ok(Cell::Blob(Bytes::from_slice(alloc, &self.0)?))
    }

    fn read(_: Global, given: &Cell) -> Result<Option<Self>, NoMemory> {
        match given {
            Cell::Blob(bytes) => match key_in(bytes.as_slice()) {
                Some(key) => Ok(Some(MachineKey(key))),
                None => Ok(None),
            },
            Cell::Null | Cell::Number(_) | Cell::Text(_) | Cell::Other => Ok(None),
        }
    }
}

impl Column for NodeKey {
    ghost use Rattle.std.specs.Prelude.{◌≡◌, length};
    ghost use Rattle.store_rows.specs.declared.cell.Cell.TheVariants.{Blob};

    ghost stored = { λ key. Blob key.0 };

    ghost Fits = { λ key. length key.0 ≡ 32 };

    ghost Has = { λ key. length key.0 ≡ 32 };

    fn write(&self, alloc: Global) -> Result<Cell, NoMemory> {
        Ok(Cell::Blob(Bytes::from_slice(alloc, &self.0)?))
    }

    fn read(_: Global, given: &Cell) -> Result<Option<Self>, NoMemory> {
        match given {
            Cell::Blob(bytes) => match key_in(bytes.as_slice()) {
                Some(key) => Ok(Some(NodeKey(key))),
                None => Ok(None),
            },
            Cell::Null | Cell::Number(_) | Cell::Text(_) | Cell::Other => Ok(None),
        }
    }
}

impl Column for DiscoKey {
    ghost use Rattle.std.specs.Prelude.{◌≡◌, length};
    ghost use Rattle.store_rows.specs.declared.cell.Cell.TheVariants.{Blob};

    ghost stored = { λ key. Blob key.0 };

    ghost Fits = { λ key. length key.0 ≡ 32 };

    ghost Has = { λ key. length key.0 ≡ 32 };

    fn write(&self, alloc: Global) -> Result<Cell, NoMemory> {
        Ok(Cell::Blob(Bytes::from_slice(alloc, &self.0)?))
    }

    fn read(_: Global, given: &Cell) -> Result<Option<Self>, NoMemory> {
        match given {
            Cell::Blob(bytes) => match key_in(bytes.as_slice()) {
                Some(key) => Ok(Some(DiscoKey(key))),
                None => Ok(None),
            },
            Cell::Null | Cell::Number(_) | Cell::Text(_) | Cell::Other => Ok(None),
        }
    }
}
