//! Rows of `users`.
ghost use Rattle.std.specs.Prelude.{◌≡◌, IfOk, OnOk};
ghost use Rattle.store_rows.specs.Readable.{IsReadable};
ghost use Rattle.store_rows.specs.Reads.{IsReadBack};
ghost use Rattle.store_rows.specs.Rows.{IsTypedUser, user_cells};

use crate::cell::Cell;
use crate::grouped::add;
use crate::part::{End, One, Part};
use net_rows::User;
use std::alloc::Global;
use tail_base::{Items, Login, NoMemory};

/// The row of a user: its id and its login.
pub fn write_user(alloc: Global, user: &User) -> Result<Items<Cell>, NoMemory>
    ensures value { IfOk result (λ made. made ≡ user_cells user.now) }
    ensures readable { OnOk result (IsReadable user_cells IsTypedUser user.now) }
{
    let mut row = Items::new(alloc);
    add(alloc, &mut row, &user.id)?;
    add(alloc, &mut row, &user.login)?;
    Ok(row)
}

/// The user whose row this is, if it is the row of one.
pub fn read_user(alloc: Global, given: &[Cell]) -> Result<Option<User>, NoMemory>
    ensures exact { IfOk result (λ found. IsReadBack user_cells IsTypedUser given.now found) }
{
    match <One<u32, One<Login, End>>>::read_part(alloc, given)? {
        Some(One(id, One(login, End))) => Ok(Some(User { id, login })),
        None => Ok(None),
    }
}
