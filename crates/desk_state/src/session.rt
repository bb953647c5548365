//! Sessions: how far the maps of machines' clients are kept up.
ghost use Rattle.std.specs.Prelude.{◌≡◌, []};

use fresh_maps::View;
use net_rows::{HasId, Shelf};
use std::alloc::Global;
use tail_base::Text;

/// How far the map of a machine's client is kept up. It outlives the poll, so that the client can go on
/// from there.
#[derive(Drop)]
pub struct Session {
    /// The id of the machine.
    pub id: u32,
    /// How the client names it.
    pub handle: Text,
    /// The number of the last response; 0 before the first.
    pub seq: u64,
    /// The map that the client has after that response.
    pub sent: Option<View>,
}

impl HasId for Session {
    ghost id = { λ r. r.id };

    fn id(&self) -> u32 {
        self.id
    }
}

/// That a poll holds a machine's session.
#[derive(Clone, Copy, Debug, PartialEq, Eq, Drop)]
pub struct Attachment {
    /// The id of the machine.
    pub id: u32,
    /// Whether the poll may wait for something new.
    pub may_wait: bool,
}

impl HasId for Attachment {
    ghost id = { λ r. r.id };

    fn id(&self) -> u32 {
        self.id
    }
}

/// The sessions of a tailnet: at most one for each machine.
#[derive(Drop)]
pub struct Sessions {
    /// All of them.
    pub rows: Shelf<Session>,
    /// Those that are attached: a poll holds them.
    pub attached: Shelf<Attachment>,
    /// The number of the next one.
    pub next: u64,
}

impl Sessions {
    /// No sessions. It takes no memory.
    pub fn new(alloc: Global) -> Self
        ensures rows { result.rows.0 ≡ [] }
        ensures attached { result.attached.0 ≡ [] }
        ensures next { result.next ≡ 1 }
    {
        Sessions {
            rows: Shelf::new(alloc),
            attached: Shelf::new(alloc),
            next: 1,
        }
    }
}
