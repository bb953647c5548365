//! Rows of each kind as they are read from their table.
ghost use Rattle.std.specs.Prelude.{◌≡◌, ℕ, List, IfOk};
ghost use Rattle.std.specs.List.{AllByRecursion};
ghost use Rattle.net_rows.specs.declared.change.Kind.{Kind as RowKind};
ghost use Rattle.store_reads.specs.Back.{IsOfOurs};
ghost use Rattle.store_rows.specs.Reads.{IsReadBack};
ghost use Rattle.store_rows.specs.Rows.{IsTypedKey, IsTypedMachine, IsTypedPending, IsTypedUser, auth_key_cells, machine_cells, pending_cells, user_cells};
ghost use Rattle.store_rows.specs.declared.cell.Cell.{Cell};
ghost use Rattle.store_sql.specs.declared.texts.TheConstants.{SELECT_AUTH_KEYS, SELECT_MACHINES, SELECT_PENDING, SELECT_USERS};

use net_rows::{AuthKey, Kind, Machine, Pending, User};
use std::alloc::Global;
use store_rows::{Cell, read_auth_key, read_machine, read_pending, read_user};
use store_sql::{SELECT_AUTH_KEYS, SELECT_MACHINES, SELECT_PENDING, SELECT_USERS};
use tail_base::NoMemory;

/// Rows that are read from a table of their own.
pub(crate) trait Loaded: Drop + Sized {
    /// The row as it is stored.
    ghost stored: { Self → List Cell };

    /// The values of its type.
    ghost Typed: { Self → Type 0 };

    /// The text that shows all of them.
    ghost select_text: { List ℕ };

    /// Their kind.
    ghost kind_is: { RowKind };

    /// Their kind.
    fn kind() -> Kind
        ensures value { result ≡ kind_is };

    /// The text that shows all of them.
    fn select() -> &'static str
        ensures value { result.now ≡ select_text };

    /// The row that is stored so, if there is one.
    fn read(alloc: Global, cells: &[Cell]) -> Result<Option<Self>, NoMemory>
        ensures exact { IfOk result (λ found. IsReadBack stored Typed cells.now found) };

    /// All cells of a stored row are values of a database. It does nothing.
    fn cells_are_of_ours()
        ensures ours { (x : Self) → AllByRecursion IsOfOurs (stored x) };
}

impl Loaded for User {
    ghost stored = { user_cells };

    ghost Typed = { IsTypedUser };

    ghost select_text = { SELECT_USERS.now };

    ghost kind_is = { RowKind.User };

    fn kind() -> Kind {
        Kind::User
    }

    fn select() -> &'static str {
        SELECT_USERS
    }

    fn read(alloc: Global, cells: &[Cell]) -> Result<Option<Self>, NoMemory> {
        read_user(alloc, cells)
    }

    fn cells_are_of_ours() {}
}

impl Loaded for AuthKey {
    ghost stored = { auth_key_cells };

    ghost Typed = { IsTypedKey };

    ghost select_text = { SELECT_AUTH_KEYS.now };

    ghost kind_is = { RowKind.Key };

    fn kind() -> Kind {
        Kind::Key
    }

    fn select() -> &'static str {
        SELECT_AUTH_KEYS
    }

    fn read(alloc: Global, cells: &[Cell]) -> Result<Option<Self>, NoMemory> {
        read_auth_key(alloc, cells)
    }

    fn cells_are_of_ours() {}
}

impl Loaded for Pending {
    ghost stored = { pending_cells };

    ghost Typed = { IsTypedPending };

    ghost select_text = { SELECT_PENDING.now };

    ghost kind_is = { RowKind.Pending };

    fn kind() -> Kind {
        Kind::Pending
    }

    fn select() -> &'static str {
        SELECT_PENDING
    }

    fn read(alloc: Global, cells: &[Cell]) -> Result<Option<Self>, NoMemory> {
        read_pending(alloc, cells)
    }

    fn cells_are_of_ours() {}
}

impl Loaded for Machine {
    ghost stored = { machine_cells };

    ghost Typed = { IsTypedMachine };

    ghost select_text = { SELECT_MACHINES.now };

    ghost kind_is = { RowKind.Machine };

    fn kind() -> Kind {
        Kind::Machine
    }

    fn select() -> &'static str {
        SELECT_MACHINES
    }

    fn read(alloc: Global, cells: &[Cell]) -> Result<Option<Self>, NoMemory> {
        read_machine(alloc, cells)
    }

    fn cells_are_of_ours() {}
}
