//! What a path leads to.
ghost use Rattle.std.specs.Prelude.{◌≡◌, option_map};
ghost use Rattle.path_routes.specs.Finds.{found_in, owner_in, text_of, with_id};
ghost use Rattle.path_routes.specs.Table.{entry_in};

use crate::found::Found;
use crate::segments::{id_of, segment_from};
use crate::table::{Entry, all_paths};
use matchit::Router;
use std::alloc::Global;
use std::marker::Model;
use tail_base::NoMemory;

/// All paths, by which a request's is looked up.
#[derive(Drop)]
pub struct Paths {
    router: Router<Entry>,
}

impl Model for Paths {
    ghost use Rattle.std.specs.Prelude.{◌≡◌};
    ghost use Rattle.path_routes.specs.Table.{table};

    ghost Value = { Unit {0} };

    ghost view = { λ a. tt };

    ghost invariant = { λ a. a.router ≡ table };
}

impl Paths {
    /// The table of all paths. Only memory can be missing: the router takes each path of the table.
    pub fn new(alloc: Global) -> Result<Paths, NoMemory> {
        Ok(Paths {
            router: all_paths(alloc)?,
        })
    }

    fn entry_in(&self, path: &str) -> Option<Entry>
        ensures value { result ≡ entry_in path.now }
    {
        match self.router.at(path) {
            Ok(found) => Some(*found.value),
            Err(_) => None,
        }
    }

    /// What a path leads to, if it leads anywhere: it has to be UTF-8 and one of the table, and if it
    /// has an id, that is a number from 1 to the greatest counter without leading zeros.
    pub fn found(&self, path: &[u8]) -> Option<Found>
        ensures value { result ≡ found_in path.now }
    {
        let text = text_of(path)?;
        with_id(path, self.entry_in(text)?)
    }
}

/// The text that a path, or a segment of one, is, if it is UTF-8.
pub fn text_of(path: &[u8]) -> Option<&str>
    ensures value { option_map (λ t. t.now) result ≡ text_of path.now }
{
    match str::from_utf8(path) {
        Ok(text) => Some(text),
        Err(_) => None,
    }
}

fn with_id(path: &[u8], entry: Entry) -> Option<Found>
    ensures value { result ≡ with_id path.now entry }
{
    let Entry {
        route,
        start,
        has_id,
    } = entry;
    if has_id {
        id_of(segment_from(path, start)).map(|id| Found { route, id, start })
    } else {
        Some(Found {
            route,
            id: 0,
            start,
        })
    }
}

/// The segment of a path that names a row, if one does, and else nothing.
pub fn owner_in(path: &[u8], found: Found) -> &[u8]
    ensures value { result.now ≡ owner_in path.now found }
{
    segment_from(path, found.start)
}
