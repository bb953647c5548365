//! Rows that are kept under an id, each kind in a table of its own.
ghost use Rattle.std.specs.Prelude.{◌≡◌, ℕ, List, IfOk, OnOk};
ghost use Rattle.store_rows.specs.Readable.{IsReadable, IsReadableMachine};
ghost use Rattle.store_rows.specs.Rows.{IsTypedKey, IsTypedPending, IsTypedUser, auth_key_cells, machine_cells, pending_cells, user_cells};
ghost use Rattle.store_rows.specs.declared.cell.Cell.{Cell};
ghost use Rattle.store_sql.specs.declared.texts.TheConstants.{INSERT_AUTH_KEYS, INSERT_MACHINES, INSERT_PENDING, INSERT_USERS, UPDATE_AUTH_KEYS, UPDATE_MACHINES, UPDATE_PENDING, UPDATE_USERS};

use net_rows::{AuthKey, Machine, Pending, User};
use std::alloc::Global;
use store_rows::{Cell, write_auth_key, write_machine, write_pending, write_user};
use store_sql::{
    INSERT_AUTH_KEYS, INSERT_MACHINES, INSERT_PENDING, INSERT_USERS, UPDATE_AUTH_KEYS,
    UPDATE_MACHINES, UPDATE_PENDING, UPDATE_USERS,
};
use tail_base::{Items, NoMemory};

/// Rows that are kept under an id.
pub trait DatabaseRow: Drop + Sized {
    /// The row as it is stored.
    ghost cells: { Self → List Cell };

    /// What is read again of what is written.
    ghost Readable: { Self → Type 0 };

    /// The text that replaces the row of an id.
    ghost update_text: { List ℕ };

    /// The text that adds one.
    ghost insert_text: { List ℕ };

    /// The text that replaces the row of an id.
    fn update() -> &'static str
        ensures value { result.now ≡ update_text };

    /// The text that adds one.
    fn insert() -> &'static str
        ensures value { result.now ≡ insert_text };

    /// The row as it is stored.
    fn write(&self, alloc: Global) -> Result<Items<Cell>, NoMemory>
        ensures value { IfOk result (λ made. made ≡ cells self.now) }
        ensures readable { OnOk result (Readable self.now) };
}

impl DatabaseRow for User {
    ghost cells = { user_cells };

    ghost Readable = { IsReadable user_cells IsTypedUser };

    ghost update_text = { UPDATE_USERS.now };

    ghost insert_text = { INSERT_USERS.now };

    fn update() -> &'static str {
        UPDATE_USERS
    }

    fn insert() -> &'static str {
        INSERT_USERS
    }

    fn write(&self, alloc: Global) -> Result<Items<Cell>, NoMemory> {
        write_user(alloc, self)
    }
}

impl DatabaseRow for AuthKey {
    ghost cells = { auth_key_cells };

    ghost Readable = { IsReadable auth_key_cells IsTypedKey };

    ghost update_text = { UPDATE_AUTH_KEYS.now };

    ghost insert_text = { INSERT_AUTH_KEYS.now };

    fn update() -> &'static str {
        UPDATE_AUTH_KEYS
    }

    fn insert() -> &'static str {
        INSERT_AUTH_KEYS
    }

    fn write(&self, alloc: Global) -> Result<Items<Cell>, NoMemory> {
        write_auth_key(alloc, self)
    }
}

impl DatabaseRow for Pending {
    ghost cells = { pending_cells };

    ghost Readable = { IsReadable pending_cells IsTypedPending };

    ghost update_text = { UPDATE_PENDING.now };

    ghost insert_text = { INSERT_PENDING.now };

    fn update() -> &'static str {
        UPDATE_PENDING
    }

    fn insert() -> &'static str {
        INSERT_PENDING
    }

    fn write(&self, alloc: Global) -> Result<Items<Cell>, NoMemory> {
        write_pending(alloc, self)
    }
}

impl DatabaseRow for Machine {
    ghost cells = { machine_cells };

    ghost Readable = { IsReadableMachine };

    ghost update_text = { UPDATE_MACHINES.now };

    ghost insert_text = { INSERT_MACHINES.now };

    fn update() -> &'static str {
        UPDATE_MACHINES
    }

    fn insert() -> &'static str {
        INSERT_MACHINES
    }

    fn write(&self, alloc: Global) -> Result<Items<Cell>, NoMemory> {
        write_machine(alloc, self)
    }
}
