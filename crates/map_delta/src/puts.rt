//! Rows by id in lists of messages.
ghost use Rattle.std.specs.Prelude.{◌≡◌, ◌<◌, ◌≤◌, ℕ, IfErr, IfOk, OnOk, insert, length, slice_set};
ghost use Rattle.std.specs.Option.{option_copied};
ghost use Rattle.net_rows.specs.Shelf.{put_row, row_at};
ghost use Rattle.map_delta.specs.Puts.{node_id, profile_id, put_rows};

use std::alloc::Global;
use tail_base::{Duplicate, NoMemory};
use tailcfg::{NodeRow, Profile};

/// A row that a map lists by its id.
pub(crate) trait Listed: Drop {
    ghost number: { Self → ℕ };

    /// The id of the row.
    fn number(&self) -> u32
        ensures value { result ≡ number self.now };
}

impl Listed for NodeRow {
    ghost number = { node_id };

    fn number(&self) -> u32 {
        self.id
    }
}

impl Listed for Profile {
    ghost number = { profile_id };

    fn number(&self) -> u32 {
        self.id
    }
}

/// The row of this id.
pub(crate) fn listed_row<T: Listed>(rows: &[T], id: u32) -> Option<&T>
    ensures value { option_copied result ≡ row_at T.number rows.now id }
{
    rows.iter().find(|row| row.number() == id)
}

/// Where the row of this id stands, or where it would go.
fn place_in<T: Listed>(rows: &[T], id: u32) -> Result<usize, usize>
    ensures there { IfOk result (λ i. (i < length rows.now) × ((x : T) → T.number x ≡ id
        → put_row T.number rows.now x ≡ slice_set rows.now i x)) }
    ensures absent { IfErr result (λ i. (i ≤ length rows.now) × ((x : T) → T.number x ≡ id
        → put_row T.number rows.now x ≡ insert rows.now i x)) }
{
    for (i, row) in rows.iter().enumerate() {
        let at = row.number();
        if at == id {
            return Ok(i);
        }
        if at > id {
            return Err(i);
        }
    }
    Err(rows.len())
}

/// Replaces the row of its id, or adds the row.
fn put_listed<T: Listed>(rows: &mut Vec<T>, row: T) -> Result<(), NoMemory>
    ensures ok { OnOk result (rows.new.items ≡ put_row T.number rows.old.items row) }
{
    match place_in(rows.as_slice(), row.number()) {
        Ok(place) => rows[place] = row,
        Err(place) => rows.insert(place, row)?,
    }
    Ok(())
}

/// Puts copies of these rows, one after the other.
pub(crate) fn put_rows<T: Listed + Duplicate>(
    alloc: Global,
    rows: &mut Vec<T>,
    more: &[T],
) -> Result<(), NoMemory>
    ensures ok { OnOk result (rows.new.items ≡ put_rows T.number rows.old.items more.now) }
{
    for row in more {
        put_listed(rows, row.copy(alloc)?)?;
    }
    Ok(())
}
