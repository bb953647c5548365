//! Addresses in a column.
ghost use Rattle.std.specs.Prelude.{◌≡◌, ◌<◌, ◌^◌, length, true, IfOk, IfSome, OnOk};
ghost use Rattle.std.specs.Str.{is_utf8};
ghost use Rattle.std.specs.Int.{from_be_bytes, w64};
ghost use Rattle.net_addr.specs.AddrTexts.{addr_text};
ghost use Rattle.store_rows.specs.Addresses.{IsAddress, IsV4, IsV6, address_cell, address_text_cell, v6_bytes, v6_in};
ghost use Rattle.store_rows.specs.Reads.{IsReadBack};
ghost use Rattle.store_rows.specs.declared.cell.Cell.TheVariants.{Blob, Number};

use crate::cell::Cell;
use crate::column::Column;
use crate::same::is_same;
use crate::scalars::number_in;
use crate::utf8::text_is_utf8;
use net_addr::Addr;
use std::alloc::Global;
use tail_base::{Bytes, NoMemory};

const HALF: u128 = 1 << 64;

/// The 16 bytes of a number.
#[tactic(auto, unfolding(crate::specs::Addresses::v6_bytes))]
fn v6_bytes(alloc: Global, bits: u128) -> Result<Bytes, NoMemory>
    ensures value { IfOk result (λ made. made ≡ v6_bytes bits) }
{
    let high = (bits / HALF) as u64;
    let low = (bits % HALF) as u64;
    let mut bytes = Vec::from_slice(alloc, &high.to_be_bytes())?;
    bytes.extend_from_slice(&low.to_be_bytes())?;
    Ok(Bytes::from_vec(bytes))
}

/// The number of eight bytes.
fn half_in(bytes: &[u8]) -> u64
    requires eight { length bytes.now ≡ 8 }
    ensures value { result ≡ from_be_bytes w64 bytes.now }
    ensures fits { result < 2 ^ 64 }
{
    match bytes {
        [a, b, c, d, e, f, g, h] => u64::from_be_bytes([*a, *b, *c, *d, *e, *f, *g, *h]),
        _ => 0,
    }
}

/// The number of 16 bytes.
#[tactic(auto, unfolding(crate::specs::Addresses::v6_in))]
fn v6_in(bytes: &[u8]) -> Option<u128>
    ensures value { result ≡ v6_in bytes.now }
    ensures fits { IfSome result (λ bits. bits < 2 ^ 128) }
{
    if bytes.len() != 16 {
        return None;
    }
    let high = half_in(&bytes[..8]);
    let low = half_in(&bytes[8..]);
    Some(u128::from(high) * HALF + u128::from(low))
}

/// The number whose bytes these are, if there are 16.
fn read_v6(alloc: Global, bytes: &[u8]) -> Result<Option<u128>, NoMemory>
    ensures exact { IfOk result (λ found.
        IsReadBack v6_bytes (λ bits. bits < 2 ^ 128) bytes.now found) }
{
    let Some(bits) = v6_in(bytes) else {
        return Ok(None);
    };
    let again = v6_bytes(alloc, bits)?;
    if is_same(again.as_slice(), bytes) {
        Ok(Some(bits))
    } else {
        Ok(None)
    }
}

/// The IPv6 address of these bytes, if there are 16.
#[tactic(auto, using(crate::proofs::AddressLemmas::blob_read))]
fn read_bytes(alloc: Global, bytes: &[u8]) -> Result<Option<Addr>, NoMemory>
    ensures exact { IfOk result (λ found. IsReadBack address_cell IsV6 (Blob bytes.now) found) }
{
    match read_v6(alloc, bytes)? {
        Some(bits) => Ok(Some(Addr::new(true, bits))),
        None => Ok(None),
    }
}

/// The IPv4 address of this number, if it is one.
#[tactic(auto, using(crate::proofs::AddressLemmas::number_read))]
fn read_number(n: i64) -> Option<Addr>
    ensures exact { IsReadBack address_cell IsV4 (Number n) result }
{
    match number_in(n) {
        Some(bits) => Some(Addr::new(false, u128::from(bits))),
        None => None,
    }
}

/// The cell of an address.
fn address_cell(alloc: Global, addr: &Addr) -> Result<Cell, NoMemory>
    ensures value { IfOk result (λ made. made ≡ address_cell addr.now) }
    ensures writable { OnOk result (IsAddress addr.now) }
{
    let bits = addr.bits();
    if addr.is_v6() {
        Ok(Cell::Blob(v6_bytes(alloc, bits)?))
    } else {
        Ok(Cell::Number(bits as i64))
    }
}

/// An IPv4 address in its column.
#[derive(Drop)]
pub(crate) struct V4(pub Addr);

/// An IPv6 address in its column.
#[derive(Drop)]
pub(crate) struct V6(pub Addr);

impl Column for V4 {
    ghost use Rattle.store_rows.specs.Addresses.{IsAddress, IsV4, address_cell};

    ghost stored = { λ a. address_cell a.0 };

    ghost Fits = { λ a. IsV4 a.0 };

    ghost Has = { λ a. IsAddress a.0 };

    fn write(&self, alloc: Global) -> Result<Cell, NoMemory> {
        address_cell(alloc, &self.0)
    }

    #[tactic(auto, using(crate::proofs::AddressLemmas::v4_stored))]
    fn read(_: Global, given: &Cell) -> Result<Option<Self>, NoMemory> {
        match given {
            Cell::Number(n) => match read_number(*n) {
                Some(addr) => Ok(Some(V4(addr))),
                None => Ok(None),
            },
            Cell::Null | Cell::Text(_) | Cell::Blob(_) | Cell::Other => Ok(None),
        }
    }
}

impl Column for V6 {
    ghost use Rattle.store_rows.specs.Addresses.{IsAddress, IsV6, address_cell};

    ghost stored = { λ a. address_cell a.0 };

    ghost Fits = { λ a. IsV6 a.0 };

    ghost Has = { λ a. IsAddress a.0 };

    fn write(&self, alloc: Global) -> Result<Cell, NoMemory> {
        address_cell(alloc, &self.0)
    }

    #[tactic(auto, using(crate::proofs::AddressLemmas::v6_stored))]
    fn read(alloc: Global, given: &Cell) -> Result<Option<Self>, NoMemory> {
        match given {
            Cell::Blob(bytes) => match read_bytes(alloc, bytes.as_slice())? {
                Some(addr) => Ok(Some(V6(addr))),
                None => Ok(None),
            },
            Cell::Null | Cell::Number(_) | Cell::Text(_) | Cell::Other => Ok(None),
        }
    }
}

/// The address that is written as this text.
fn read_text(alloc: Global, text: &[u8]) -> Result<Option<Addr>, NoMemory>
    ensures exact { IfOk result (λ found. IsReadBack addr_text IsAddress text.now found) }
{
    let Some(addr) = Addr::read(text) else {
        return Ok(None);
    };
    let _in_family = addr.bits();
    let again = addr.write(alloc)?;
    if is_same(again.as_slice(), text) {
        Ok(Some(addr))
    } else {
        Ok(None)
    }
}

/// The address as its text.
pub(crate) fn address_text_cell(alloc: Global, addr: &Addr) -> Result<Cell, NoMemory>
    ensures value { IfOk result (λ made. made ≡ address_text_cell addr.now) }
    ensures writable { OnOk result (IsAddress addr.now × (is_utf8 (addr_text addr.now) ≡ true)) }
{
    let _in_family = addr.bits();
    let text = addr.write(alloc)?;
    text_is_utf8(text.as_str());
    Ok(Cell::Text(text))
}

/// The address that is stored as its text, if there is one.
pub(crate) fn read_address_text(alloc: Global, given: &Cell) -> Result<Option<Addr>, NoMemory>
    ensures exact { IfOk result (λ found. IsReadBack address_text_cell IsAddress given.now found) }
{
    match given {
        Cell::Text(text) => read_text(alloc, text.as_slice()),
        Cell::Null | Cell::Number(_) | Cell::Blob(_) | Cell::Other => Ok(None),
    }
}
