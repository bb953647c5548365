//! Rows of `extras`.
ghost use Rattle.std.specs.Prelude.{◌≡◌, IfOk, OnOk};
ghost use Rattle.store_rows.specs.Readable.{IsReadableExtra};
ghost use Rattle.store_rows.specs.Reads.{IsReadBack};
ghost use Rattle.store_rows.specs.Rows.{IsTypedExtra, extra_cells};

use crate::addresses::{address_text_cell, read_address_text};
use crate::cell::Cell;
use crate::column::Column;
use crate::grouped::add;
use crate::same::is_number;
use std::alloc::Global;
use tail_base::{Items, NoMemory, Text};
use tailcfg::DnsExtra;

/// The row of the extra record at a place, counted from 1: the place, its name, and its address as
/// a text.
pub fn write_extra(alloc: Global, place: u32, extra: &DnsExtra) -> Result<Items<Cell>, NoMemory>
    ensures value { IfOk result (λ made. made ≡ extra_cells place extra.now) }
    ensures readable { OnOk result (IsReadableExtra extra.now) }
{
    let mut row = Items::new(alloc);
    add(alloc, &mut row, &place)?;
    add(alloc, &mut row, &extra.name)?;
    let addr = address_text_cell(alloc, &extra.addr)?;
    row.push(addr)?;
    Ok(row)
}

/// The extra record whose row at this place it is, if it is the row of one.
pub fn read_extra(alloc: Global, place: u32, given: &[Cell]) -> Result<Option<DnsExtra>, NoMemory>
    ensures exact { IfOk result (λ found.
        IsReadBack (extra_cells place) IsTypedExtra given.now found) }
{
    let [own, name, addr] = given else {
        return Ok(None);
    };
    if !is_number(own, place) {
        return Ok(None);
    }
    let Some(name) = <Text as Column>::read(alloc, name)? else {
        return Ok(None);
    };
    match read_address_text(alloc, addr)? {
        Some(addr) => Ok(Some(DnsExtra { name, addr })),
        None => Ok(None),
    }
}
