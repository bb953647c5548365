//! The tables: rows that keep the rules.
ghost use Rattle.std.specs.Prelude.{◌≡◌, ℕ, None, Some, OnOk, IfOk, IfErr};
ghost use Rattle.std.specs.Option.{option_copied};
ghost use Rattle.net_rows.specs.Rows.{after, empty_rows, user_with, machine_with, key_with, machine_of, key_of, pending_of, pending_with};
ghost use Rattle.net_rows.specs.Held.{Suffices};
ghost use Rattle.net_rows.specs.Damage.{damage};
ghost use Rattle.net_rows.specs.Room.{has_room};

use crate::change::{Change, Counters, Damage, Kind};
use crate::check::damage;
use crate::key::AuthKey;
use crate::limits::{COUNTER_LIMIT, KEY_LIMIT, MACHINE_LIMIT, PENDING_LIMIT, USER_LIMIT};
use crate::lists::Lists;
use crate::machine::Machine;
use crate::pending::Pending;
use crate::rows::Rows;
use crate::shelf::row_of;
use crate::user::User;
use std::alloc::Global;
use std::marker::Model;
use tail_base::{Duplicate, MachineKey, NoMemory, Text, is_same_secret};
use tailcfg::DnsExtra;

/// The tables of a tailnet: rows without damage, and spare places. Only `reserve` and the condition of
/// `apply` speak of the places.
#[derive(Drop)]
pub struct Tables {
    lists: Lists,
}

impl Model for Tables {
    ghost use Rattle.std.specs.Prelude.{◌≡◌, None};
    ghost use Rattle.net_rows.specs.Held.{Held};
    ghost use Rattle.net_rows.specs.Damage.{damage};

    ghost Value = { Held };

    ghost view = { λ a. a.lists };

    ghost invariant = { λ a. damage a.lists.rows ≡ None };
}

impl Tables {
    /// The tables of these rows, or the first rule that they break. It takes no memory.
    pub fn checked(rows: Rows) -> Result<Tables, Damage>
        ensures ok { IfOk result (λ made. made.rows ≡ rows) }
        ensures sound { OnOk result (damage rows ≡ None) }
        ensures err { IfErr result (λ found. damage rows ≡ Some found) }
    {
        match damage(&rows) {
            Some(found) => Err(found),
            None => Ok(Tables {
                lists: Lists::from_rows(rows),
            }),
        }
    }

    /// Makes room for the change. The rows stay as they are.
    pub fn reserve(&mut self, change: &Change) -> Result<(), NoMemory>
        ensures rows { self.new.rows ≡ self.old.rows }
        ensures ok { OnOk result (Suffices self.new.spare change.now.puts) }
    {
        self.lists.reserve(change.puts.as_slice())
    }

    /// Makes the change: gone rows go first, then each put replaces the row of its id or adds it, and
    /// then the counters are the next ones. It takes no memory and can't be refused.
    pub fn apply(&mut self, change: Change)
        requires reserved { Suffices self.old.spare change.puts }
        requires sound { damage (after self.old.rows change) ≡ None }
        ensures rows { self.new.rows ≡ after self.old.rows change }
    {
        self.lists.apply(change);
    }

    /// The tables that `apply` would leave, as a copy.
    pub fn after(&self, alloc: Global, change: &Change) -> Result<Tables, NoMemory>
        requires sound { damage (after self.now.rows change.now) ≡ None }
        ensures rows { IfOk result (λ made. made.rows ≡ after self.now.rows change.now) }
    {
        let mut lists = self.lists.copy(alloc)?;
        lists.reserve(change.puts.as_slice())?;
        lists.apply(change.copy(alloc)?);
        Ok(Tables { lists })
    }

    /// Equal tables of their own.
    pub fn copy(&self, alloc: Global) -> Result<Tables, NoMemory>
        ensures rows { IfOk result (λ made. made.rows ≡ self.now.rows) }
    {
        Ok(Tables {
            lists: self.lists.copy(alloc)?,
        })
    }

    /// The users by id.
    pub fn users(&self) -> &[User]
        ensures value { result.now ≡ self.now.rows.users }
        ensures sound { damage self.now.rows ≡ None }
    {
        self.lists.users()
    }

    /// The pre-auth keys by id.
    pub fn keys(&self) -> &[AuthKey]
        ensures value { result.now ≡ self.now.rows.keys }
        ensures sound { damage self.now.rows ≡ None }
    {
        self.lists.keys()
    }

    /// The pending entries by id.
    pub fn pending(&self) -> &[Pending]
        ensures value { result.now ≡ self.now.rows.pending }
        ensures sound { damage self.now.rows ≡ None }
    {
        self.lists.pending()
    }

    /// The machines by id, whether they are live or not.
    pub fn machines(&self) -> &[Machine]
        ensures value { result.now ≡ self.now.rows.machines }
        ensures sound { damage self.now.rows ≡ None }
    {
        self.lists.machines()
    }

    /// The extra DNS records.
    pub fn extras(&self) -> &[DnsExtra]
        ensures value { result.now ≡ self.now.rows.extras }
        ensures sound { damage self.now.rows ≡ None }
    {
        self.lists.extras()
    }

    /// The text of the policy; None before the first is kept.
    pub fn policy(&self) -> &Option<Text>
        ensures value { result.now ≡ self.now.rows.policy }
        ensures sound { damage self.now.rows ≡ None }
    {
        self.lists.policy()
    }

    /// The next ids.
    pub fn next(&self) -> Counters
        ensures value { result ≡ self.now.rows.next }
        ensures sound { damage self.now.rows ≡ None }
    {
        self.lists.next()
    }

    /// The user of an id.
    pub fn user(&self, id: u32) -> Option<&User>
        ensures value { option_copied result ≡ user_with self.now.rows.users id }
    {
        row_of(self.lists.users(), id)
    }

    /// The machine of an id.
    pub fn machine(&self, id: u32) -> Option<&Machine>
        ensures value { option_copied result ≡ machine_with self.now.rows.machines id }
    {
        row_of(self.lists.machines(), id)
    }

    /// The machine of a machine key.
    pub fn machine_of(&self, key: &MachineKey) -> Option<&Machine>
        ensures value { option_copied result ≡ machine_of self.now.rows.machines key.now.0 }
    {
        self.machines().iter().find(|row| row.machine == *key)
    }

    /// The pre-auth key of an id.
    pub fn key(&self, id: u32) -> Option<&AuthKey>
        ensures value { option_copied result ≡ key_with self.now.rows.keys id }
    {
        row_of(self.lists.keys(), id)
    }

    /// The pre-auth key of a text. Each text is compared in a time that doesn't tell where they differ.
    pub fn key_of(&self, text: &str) -> Option<&AuthKey>
        ensures value { option_copied result ≡ key_of self.now.rows.keys text.now }
    {
        self.keys()
            .iter()
            .find(|row| is_same_secret(row.text.as_slice(), text.as_bytes()))
    }

    /// The pending entry of a machine key.
    pub fn pending_of(&self, key: &MachineKey) -> Option<&Pending>
        ensures value { option_copied result ≡ pending_of self.now.rows.pending key.now.0 }
    {
        self.pending().iter().find(|row| row.machine == *key)
    }

    /// The pending entry of a text.
    pub fn pending_with(&self, text: &str) -> Option<&Pending>
        ensures value { option_copied result ≡ pending_with self.now.rows.pending text.now }
    {
        self.pending().iter().find(|row| row.text.as_str() == text)
    }

    /// Whether one more row of the kind may be added. Of a kind without ids none may.
    pub fn room(&self, kind: Kind) -> bool
        ensures value { result ≡ has_room self.now.rows kind }
    {
        let next = self.next();
        match kind {
            Kind::User => self.users().len() < USER_LIMIT && next.user < COUNTER_LIMIT,
            Kind::Key => self.keys().len() < KEY_LIMIT && next.key < COUNTER_LIMIT,
            Kind::Pending => self.pending().len() < PENDING_LIMIT && next.pending < COUNTER_LIMIT,
            Kind::Machine => self.machines().len() < MACHINE_LIMIT && next.machine < COUNTER_LIMIT,
            Kind::Meta | Kind::Extras | Kind::Policy => false,
        }
    }

    /// No rows, and counters at 1. It takes no memory.
    pub fn empty(alloc: Global) -> Tables
        ensures rows { result.rows ≡ empty_rows }
    {
        Tables {
            lists: Lists::empty(alloc),
        }
    }
}
