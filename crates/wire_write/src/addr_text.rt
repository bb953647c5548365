//! Texts of addresses, prefixes and endpoints, added to a text.
ghost use Rattle.std.specs.Prelude.{◌≡◌, ◌++◌, ◌∷◌, ◌<◌, ◌^◌, decimal, OnOk, string_bytes};
ghost use Rattle.net_addr.specs.AddrTexts.{addr_text};
ghost use Rattle.net_addr.specs.EndpointTexts.{endpoint_text, host_part};
ghost use Rattle.net_addr.specs.PrefixTexts.{prefix_text};
ghost use Rattle.net_addr.specs.QuadTexts.{byte_at, quad_text};
ghost use Rattle.wire_write.specs.Filters.{span_text};

use crate::groups::append_v6;
use crate::numerals::append_decimal;
use net_addr::{Addr, Endpoint, Prefix};
use tail_base::NoMemory;

/// The byte of a number, counted from the lowest.
fn byte_at(bits: u128, place: u32) -> u32
    requires inside { place < 16 }
    ensures value { result ≡ byte_at bits place }
{
    (bits >> (8 * place) & 0xff) as u32
}

/// Adds a dot and the byte of a number.
fn append_dotted(bits: u128, place: u32, room: &mut String) -> Result<(), NoMemory>
    requires inside { place < 16 }
    ensures ok { OnOk result
        (string_bytes room.new ≡ string_bytes room.old ++ 46 ∷ decimal (byte_at bits place)) }
{
    room.push_str(".")?;
    append_decimal(byte_at(bits, place), room)?;
    Ok(())
}

/// Adds four decimal numbers with dots between them.
fn append_quad(bits: u128, room: &mut String) -> Result<(), NoMemory>
    requires in_family { bits < 2 ^ 32 }
    ensures ok { OnOk result (string_bytes room.new ≡ string_bytes room.old ++ quad_text bits) }
{
    append_decimal(byte_at(bits, 3), room)?;
    append_dotted(bits, 2, room)?;
    append_dotted(bits, 1, room)?;
    append_dotted(bits, 0, room)?;
    Ok(())
}

/// Adds the text of an address.
pub(crate) fn append_addr(addr: &Addr, room: &mut String) -> Result<(), NoMemory>
    ensures ok { OnOk result (string_bytes room.new ≡ string_bytes room.old ++ addr_text addr.now) }
{
    if addr.is_v6() {
        append_v6(addr.bits(), room)
    } else {
        append_quad(addr.bits(), room)
    }
}

/// Adds the text of a prefix.
pub(crate) fn append_prefix(prefix: &Prefix, room: &mut String) -> Result<(), NoMemory>
    ensures ok { OnOk result
        (string_bytes room.new ≡ string_bytes room.old ++ prefix_text prefix.now) }
{
    append_addr(&prefix.base(), room)?;
    room.push_str("/")?;
    append_decimal(u32::from(prefix.len()), room)?;
    Ok(())
}

/// Adds the text of a prefix, without its length where it is one address.
pub(crate) fn append_span(prefix: &Prefix, room: &mut String) -> Result<(), NoMemory>
    ensures ok { OnOk result
        (string_bytes room.new ≡ string_bytes room.old ++ span_text prefix.now) }
{
    let base = prefix.base();
    let bits = if base.is_v6() { 128 } else { 32 };
    if prefix.len() == bits {
        append_addr(&base, room)
    } else {
        append_prefix(prefix, room)
    }
}

/// Adds the text of an address as it stands before a port.
fn append_host(addr: &Addr, room: &mut String) -> Result<(), NoMemory>
    ensures ok { OnOk result (string_bytes room.new ≡ string_bytes room.old ++ host_part addr.now) }
{
    if !addr.is_v6() {
        return append_addr(addr, room);
    }
    room.push_str("[")?;
    append_addr(addr, room)?;
    room.push_str("]")?;
    Ok(())
}

/// Adds the text of an endpoint.
pub(crate) fn append_endpoint(endpoint: &Endpoint, room: &mut String) -> Result<(), NoMemory>
    ensures ok { OnOk result
        (string_bytes room.new ≡ string_bytes room.old ++ endpoint_text endpoint.now) }
{
    append_host(&endpoint.addr, room)?;
    room.push_str(":")?;
    append_decimal(u32::from(endpoint.port), room)?;
    Ok(())
}
