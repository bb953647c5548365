//! Rows of all kinds with spare places, whatever rules they break.
ghost use Rattle.std.specs.Prelude.{◌≡◌, ℕ, ◌<◌, ◌≤◌, ◌+◌, List, [], ◌∷◌, None, OnOk, IfOk};
ghost use Rattle.net_rows.specs.declared.change.Row.{Row};
ghost use Rattle.net_rows.specs.Rows.{put, take_out, put_all, take_all_out, after, empty_rows};
ghost use Rattle.net_rows.specs.Damage.{damage};
ghost use Rattle.net_rows.specs.Held.{Suffices};
ghost use Rattle.net_rows.specs.Shelf.{IsAscending};

use crate::change::{Change, Counters, Row, RowKey};
use crate::key::AuthKey;
use crate::machine::Machine;
use crate::pending::Pending;
use crate::rows::Rows;
use crate::shelf::Shelf;
use crate::user::User;
use std::alloc::Global;
use std::marker::Model;
use tail_base::{Duplicate, Items, NoMemory, Text};
use tailcfg::DnsExtra;

/// Rows of all kinds, each by ascending id, and the places that are spare for more.
#[derive(Drop)]
pub struct Lists {
    users: Shelf<User>,
    keys: Shelf<AuthKey>,
    pending: Shelf<Pending>,
    machines: Shelf<Machine>,
    extras: Items<DnsExtra>,
    policy: Option<Text>,
    next: Counters,
}

impl Model for Lists {
    ghost use Rattle.net_rows.specs.Rows.{Rows};
    ghost use Rattle.net_rows.specs.Held.{Spare, Held};

    ghost Value = { Held };

    ghost view = { λ a. record {
      rows = record {
        users = a.users.0;
        keys = a.keys.0;
        pending = a.pending.0;
        machines = a.machines.0;
        extras = a.extras;
        policy = a.policy;
        next = a.next;
      };
      spare = record {
        users = a.users.1;
        keys = a.keys.1;
        pending = a.pending.1;
        machines = a.machines.1;
      };
    } };
}

impl Lists {
    /// No rows, and counters at 1. It takes no memory.
    pub fn empty(alloc: Global) -> Lists
        ensures rows { result.rows ≡ empty_rows }
    {
        Lists {
            users: Shelf::new(alloc),
            keys: Shelf::new(alloc),
            pending: Shelf::new(alloc),
            machines: Shelf::new(alloc),
            extras: Items::new(alloc),
            policy: None,
            next: Counters {
                user: 1,
                key: 1,
                pending: 1,
                machine: 1,
            },
        }
    }

    /// These rows, which keep the rules.
    pub fn from_rows(rows: Rows) -> Lists
        requires sound { damage rows ≡ None }
        ensures rows { result.rows ≡ rows }
    {
        let Rows {
            users,
            keys,
            pending,
            machines,
            extras,
            policy,
            next,
        } = rows;
        Lists {
            users: Shelf::from_items(users),
            keys: Shelf::from_items(keys),
            pending: Shelf::from_items(pending),
            machines: Shelf::from_items(machines),
            extras,
            policy,
            next,
        }
    }

    /// The users, by id.
    pub fn users(&self) -> &[User]
        ensures value { result.now ≡ self.now.rows.users }
        ensures ascending { IsAscending (λ r. r.id) result.now }
    {
        self.users.as_slice()
    }

    /// The pre-auth keys, by id.
    pub fn keys(&self) -> &[AuthKey]
        ensures value { result.now ≡ self.now.rows.keys }
        ensures ascending { IsAscending (λ r. r.id) result.now }
    {
        self.keys.as_slice()
    }

    /// The registrations that wait for an operator, by id.
    pub fn pending(&self) -> &[Pending]
        ensures value { result.now ≡ self.now.rows.pending }
        ensures ascending { IsAscending (λ r. r.id) result.now }
    {
        self.pending.as_slice()
    }

    /// The machines, by id.
    pub fn machines(&self) -> &[Machine]
        ensures value { result.now ≡ self.now.rows.machines }
        ensures ascending { IsAscending (λ r. r.id) result.now }
    {
        self.machines.as_slice()
    }

    /// The extra DNS records in their order.
    pub fn extras(&self) -> &[DnsExtra]
        ensures value { result.now ≡ self.now.rows.extras }
    {
        self.extras.as_slice()
    }

    /// The text of the policy, if one was saved.
    pub fn policy(&self) -> &Option<Text>
        ensures value { result.now ≡ self.now.rows.policy }
    {
        &self.policy
    }

    /// The next id of each kind.
    pub fn next(&self) -> Counters
        ensures value { result ≡ self.now.rows.next }
    {
        self.next
    }

    /// Puts one row.
    pub fn put(&mut self, row: Row)
        requires reserved { Suffices self.old.spare (row ∷ []) }
        ensures rows { self.new.rows ≡ put self.old.rows row }
        ensures spare { (rest : List Row) → Suffices self.old.spare (row ∷ rest)
            → Suffices self.new.spare rest }
    {
        match row {
            Row::User(user) => self.users.put(user),
            Row::Key(key) => self.keys.put(key),
            Row::Pending(pending) => self.pending.put(pending),
            Row::Machine(machine) => self.machines.put(machine),
            Row::Extras(extras) => self.extras = extras,
            Row::Policy(text) => self.policy = Some(text),
        }
    }

    /// Takes one row out.
    pub fn take_out(&mut self, key: RowKey)
        ensures rows { self.new.rows ≡ take_out self.old.rows key }
        ensures spare { (rest : List Row) → Suffices self.old.spare rest
            → Suffices self.new.spare rest }
    {
        match key {
            RowKey::User(id) => self.users.remove(id),
            RowKey::Key(id) => self.keys.remove(id),
            RowKey::Pending(id) => self.pending.remove(id),
            RowKey::Machine(id) => self.machines.remove(id),
        }
    }

    fn take_all_out(&mut self, gone: &[RowKey])
        ensures rows { self.new.rows ≡ take_all_out self.old.rows gone.now }
        ensures spare { (rest : List Row) → Suffices self.old.spare rest
            → Suffices self.new.spare rest }
    {
        for key in gone {
            self.take_out(*key);
        }
    }

    fn put_all(&mut self, puts: Vec<Row>)
        requires reserved { Suffices self.old.spare puts.items }
        ensures rows { self.new.rows ≡ put_all self.old.rows puts.items }
    {
        for row in puts {
            self.put(row);
        }
    }

    /// Makes the change. It takes no memory.
    pub fn apply(&mut self, change: Change)
        requires reserved { Suffices self.old.spare change.puts }
        ensures rows { self.new.rows ≡ after self.old.rows change }
    {
        let Change { puts, gone, next } = change;
        self.take_all_out(gone.as_slice());
        self.put_all(puts.into_vec());
        self.next = next;
    }

    /// Makes room for these puts, of whatever kinds they are. The rows stay as they are.
    #[tactic(auto, using(crate::proofs::HeldLemmas::suffices))]
    pub fn reserve(&mut self, puts: &[Row]) -> Result<(), NoMemory>
        ensures rows { self.new.rows ≡ self.old.rows }
        ensures ok { OnOk result (Suffices self.new.spare puts.now) }
    {
        let more = puts.len();
        self.users.reserve(more)?;
        self.keys.reserve(more)?;
        self.pending.reserve(more)?;
        self.machines.reserve(more)?;
        Ok(())
    }

    /// Equal rows of their own.
    pub fn copy(&self, alloc: Global) -> Result<Lists, NoMemory>
        ensures rows { IfOk result (λ made. made.rows ≡ self.now.rows) }
    {
        Ok(Lists {
            users: self.users.copy(alloc)?,
            keys: self.keys.copy(alloc)?,
            pending: self.pending.copy(alloc)?,
            machines: self.machines.copy(alloc)?,
            extras: self.extras.copy(alloc)?,
            policy: self.policy.copy(alloc)?,
            next: self.next,
        })
    }
}
