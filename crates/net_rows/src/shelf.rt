//! Rows of one kind by ascending id, with room for more.
ghost use Rattle.std.specs.Prelude.{◌≡◌, ℕ, ◌<◌, ◌≤◌, ◌+◌, List, [], None, length, OnOk, IfOk, IfErr};
ghost use Rattle.std.specs.Option.{option_copied};
ghost use Rattle.net_rows.specs.Shelf.{BelongsAt, IsAscending, StandsAt, put_row, row_at, without};

use crate::id::HasId;
use std::alloc::Global;
use std::marker::Model;
use tail_base::{Duplicate, Items, NoMemory};

/// Rows by ascending id, seen as their list and the number of spare places.
#[derive(Drop)]
pub struct Shelf<T: HasId> {
    rows: Vec<T>,
}

impl<T: HasId> Model for Shelf<T> {
    ghost use Rattle.std.specs.Prelude.{List, ℕ, ◌-◌, vec_len, vec_capacity};
    ghost use Rattle.net_rows.specs.Shelf.{IsAscending};

    ghost Value = { List T × ℕ };

    ghost view = { λ a. (a.rows.items, vec_capacity a.rows - vec_len a.rows) };

    ghost invariant = { λ a. IsAscending T.id a.rows.items };
}

/// Where the row of this id stands, or where it would go.
fn place_of<T: HasId>(rows: &[T], id: u32) -> Result<usize, usize>
    requires ascending { IsAscending T.id rows.now }
    ensures there { IfOk result (StandsAt T.id rows.now id) }
    ensures absent { IfErr result (BelongsAt T.id rows.now id) }
{
    rows.binary_search_by_key(&id, |row| row.id())
}

/// The row of this id, among rows by ascending id.
pub fn row_of<T: HasId>(rows: &[T], id: u32) -> Option<&T>
    requires ascending { IsAscending T.id rows.now }
    ensures value { option_copied result ≡ row_at T.id rows.now id }
{
    match place_of(rows, id) {
        Ok(place) => Some(&rows[place]),
        Err(_) => None,
    }
}

impl<T: HasId> Shelf<T> {
    /// No rows. It takes no memory.
    pub fn new(alloc: Global) -> Self
        ensures rows { result.0 ≡ [] }
    {
        Shelf {
            rows: Vec::new(alloc),
        }
    }

    /// The rows of a list that rises by id.
    pub fn from_items(items: Items<T>) -> Self
        requires ascending { IsAscending T.id items }
        ensures rows { result.0 ≡ items }
    {
        Shelf {
            rows: items.into_vec(),
        }
    }

    /// The rows, by id.
    pub fn as_slice(&self) -> &[T]
        ensures rows { result.now ≡ self.now.0 }
        ensures ascending { IsAscending T.id self.now.0 }
    {
        self.rows.as_slice()
    }

    /// The row of this id.
    pub fn get(&self, id: u32) -> Option<&T>
        ensures value { option_copied result ≡ row_at T.id self.now.0 id }
    {
        row_of(self.rows.as_slice(), id)
    }

    /// Makes at least so many places spare. The rows stay as they are.
    pub fn reserve(&mut self, more: usize) -> Result<(), NoMemory>
        ensures rows { self.new.0 ≡ self.old.0 }
        ensures grows { self.old.1 ≤ self.new.1 }
        ensures ok { OnOk result (more ≤ self.new.1) }
    {
        self.rows.reserve(more)?;
        Ok(())
    }

    /// Replaces the row of this id, or adds the row. It takes no memory, and a place only if no row of
    /// the id is there.
    pub fn put(&mut self, row: T)
        requires spare { row_at T.id self.old.0 (T.id row) ≡ None → 0 < self.old.1 }
        ensures rows { self.new.0 ≡ put_row T.id self.old.0 row }
        ensures spare { self.old.1 ≤ self.new.1 + 1 }
        ensures replaced { (row_at T.id self.old.0 (T.id row) ≡ None → ⊥)
            → self.old.1 ≤ self.new.1 }
    {
        match place_of(self.rows.as_slice(), row.id()) {
            Ok(place) => self.rows[place] = row,
            Err(place) => {
                let _ = self.rows.insert(place, row);
            }
        }
    }

    /// Removes the row of this id, if there is one.
    pub fn remove(&mut self, id: u32)
        ensures rows { self.new.0 ≡ without T.id self.old.0 id }
        ensures spare { self.old.1 ≤ self.new.1 }
    {
        self.rows.retain(|row| row.id() != id);
    }
}

impl<T: HasId + Duplicate> Shelf<T> {
    /// Equal rows of their own.
    pub fn copy(&self, alloc: Global) -> Result<Self, NoMemory>
        ensures rows { IfOk result (λ made. made.0 ≡ self.now.0) }
    {
        Ok(Shelf::from_items(Items::from_slice(alloc, self.as_slice())?))
    }
}
