//! Rows of `auth_keys`.
ghost use Rattle.std.specs.Prelude.{◌≡◌, IfOk, OnOk};
ghost use Rattle.store_rows.specs.Readable.{IsReadable};
ghost use Rattle.store_rows.specs.Reads.{IsReadBack};
ghost use Rattle.store_rows.specs.Rows.{IsTypedKey, auth_key_cells};

use crate::cell::Cell;
use crate::grouped::{add, add_three};
use crate::part::{End, One, Part};
use net_addr::Moment;
use net_rows::AuthKey;
use std::alloc::Global;
use tail_base::{Items, NoMemory, Tag, Text};

/// The row of a pre-auth key: its id, text and user, its flags, its expiry and its tags.
pub fn write_auth_key(alloc: Global, key: &AuthKey) -> Result<Items<Cell>, NoMemory>
    ensures value { IfOk result (λ made. made ≡ auth_key_cells key.now) }
    ensures readable { OnOk result (IsReadable auth_key_cells IsTypedKey key.now) }
{
    let mut row = Items::new(alloc);
    add_three(alloc, &mut row, &key.id, &key.text, &key.user)?;
    add_three(alloc, &mut row, &key.reusable, &key.ephemeral, &key.used)?;
    add(alloc, &mut row, &key.expiry)?;
    add(alloc, &mut row, &key.tags)?;
    Ok(row)
}

/// The columns from the flags on.
type Flags = One<bool, One<bool, One<bool, One<Option<Moment>, One<Items<Tag>, End>>>>>;

/// All columns, in the order of the schema.
type Columns = One<u32, One<Text, One<u32, Flags>>>;

/// The pre-auth key of these columns.
fn of_columns(columns: Columns) -> AuthKey
    ensures value { result ≡ record {
      id = columns.0;
      text = columns.1.0;
      user = columns.1.1.0;
      reusable = columns.1.1.1.0;
      ephemeral = columns.1.1.1.1.0;
      used = columns.1.1.1.1.1.0;
      expiry = columns.1.1.1.1.1.1.0;
      tags = columns.1.1.1.1.1.1.1.0;
    } }
{
    let One(id, columns) = columns;
    let One(text, columns) = columns;
    let One(user, columns) = columns;
    let One(reusable, columns) = columns;
    let One(ephemeral, columns) = columns;
    let One(used, columns) = columns;
    let One(expiry, columns) = columns;
    let One(tags, _) = columns;
    AuthKey {
        id,
        text,
        user,
        reusable,
        ephemeral,
        used,
        expiry,
        tags,
    }
}

/// The pre-auth key whose row this is, if it is the row of one.
pub fn read_auth_key(alloc: Global, given: &[Cell]) -> Result<Option<AuthKey>, NoMemory>
    ensures exact { IfOk result (λ found. IsReadBack auth_key_cells IsTypedKey given.now found) }
{
    match Columns::read_part(alloc, given)? {
        Some(columns) => Ok(Some(of_columns(columns))),
        None => Ok(None),
    }
}
