//! What changes of the tables, and what may be wrong with them.
ghost use Rattle.std.specs.Prelude.{◌≡◌};

use crate::key::AuthKey;
use crate::machine::Machine;
use crate::pending::Pending;
use crate::user::User;
use std::alloc::Global;
use tail_base::{Duplicate, Items, NoMemory, Text};
use tailcfg::DnsExtra;

/// The next id of each kind of row. An id is never given twice.
#[derive(Clone, Copy, Debug, PartialEq, Eq, Drop)]
pub struct Counters {
    pub user: u32,
    pub key: u32,
    pub pending: u32,
    pub machine: u32,
}

/// The kinds of rows, in the order in which tables are read.
#[derive(Clone, Copy, Debug, PartialEq, Eq, Drop)]
pub enum Kind {
    /// The counters.
    Meta,
    User,
    Key,
    Pending,
    Machine,
    /// The list of extra DNS records.
    Extras,
    /// The text of the policy.
    Policy,
}

/// A row that breaks a rule of the tables: its kind, and its id, which is 0 where the kind is Meta,
/// Extras or Policy.
#[derive(Clone, Copy, Debug, PartialEq, Eq, Drop)]
pub struct Damage {
    pub kind: Kind,
    pub id: u32,
}

/// A row that is put into the tables: it replaces the row of its id, the whole list of extra records
/// or the policy.
#[derive(Drop)]
pub enum Row {
    User(User),
    Key(AuthKey),
    Pending(Pending),
    Machine(Machine),
    Extras(Items<DnsExtra>),
    Policy(Text),
}

/// A row that goes, by its id.
#[derive(Clone, Copy, Debug, PartialEq, Eq, Drop)]
pub enum RowKey {
    User(u32),
    Key(u32),
    Pending(u32),
    Machine(u32),
}

/// A change of the tables: first the gone rows go, then the puts are put in order, and then the
/// counters are the next ones.
#[derive(Drop)]
pub struct Change {
    pub puts: Items<Row>,
    pub gone: Items<RowKey>,
    pub next: Counters,
}

impl Duplicate for Row {
    fn copy(&self, alloc: Global) -> Result<Self, NoMemory> {
        Ok(match self {
            Row::User(user) => Row::User(user.copy(alloc)?),
            Row::Key(key) => Row::Key(key.copy(alloc)?),
            Row::Pending(pending) => Row::Pending(pending.copy(alloc)?),
            Row::Machine(machine) => Row::Machine(machine.copy(alloc)?),
            Row::Extras(extras) => Row::Extras(extras.copy(alloc)?),
            Row::Policy(text) => Row::Policy(text.copy(alloc)?),
        })
    }
}

impl Duplicate for RowKey {
    fn copy(&self, _: Global) -> Result<Self, NoMemory> {
        Ok(*self)
    }
}

impl Duplicate for Counters {
    fn copy(&self, _: Global) -> Result<Self, NoMemory> {
        Ok(*self)
    }
}

impl Duplicate for Kind {
    fn copy(&self, _: Global) -> Result<Self, NoMemory> {
        Ok(*self)
    }
}

impl Duplicate for Change {
    fn copy(&self, alloc: Global) -> Result<Self, NoMemory> {
        Ok(Change {
            puts: self.puts.copy(alloc)?,
            gone: self.gone.copy(alloc)?,
            next: self.next,
        })
    }
}
