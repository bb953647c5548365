//! The row of `policy`.
ghost use Rattle.std.specs.Prelude.{◌≡◌, ⊤, true, IfOk, OnOk};
ghost use Rattle.std.specs.Str.{is_utf8};
ghost use Rattle.store_rows.specs.Reads.{IsReadBack};
ghost use Rattle.store_rows.specs.Rows.{policy_cells};

use crate::cell::Cell;
use crate::column::Column;
use crate::grouped::add;
use crate::same::is_number;
use std::alloc::Global;
use tail_base::{Items, NoMemory, Text};

/// The row of a policy: 1, and its text.
pub fn write_policy_text(alloc: Global, body: &Text) -> Result<Items<Cell>, NoMemory>
    ensures value { IfOk result (λ made. made ≡ policy_cells body.now) }
    ensures readable { OnOk result (is_utf8 body.now ≡ true) }
{
    let mut row = Items::new(alloc);
    add(alloc, &mut row, &1u32)?;
    add(alloc, &mut row, body)?;
    Ok(row)
}

/// The text of the policy whose row this is, if it is the row of one.
pub fn read_policy_text(alloc: Global, given: &[Cell]) -> Result<Option<Text>, NoMemory>
    ensures exact { IfOk result (λ found. IsReadBack policy_cells (λ _. ⊤) given.now found) }
{
    let [k, body] = given else {
        return Ok(None);
    };
    if !is_number(k, 1) {
        return Ok(None);
    }
    <Text as Column>::read(alloc, body)
}
